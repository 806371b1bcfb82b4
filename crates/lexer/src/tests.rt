// What `lex` answers: how many tokens there are, or why there are none.
use crate::lex;
use crate::refusals::Refusal::{self, NoMemory, NoToken, TooLarge, TooLong};
use refusal::Refused;
use std::process::Abort;
use std::test::Fail;
use syntax::token::{Kind, Mark, Relation, Token};

fn check_all(rt: &(impl Abort + AllocGlobal), cases: &[(&[u8], Result<usize, Refusal>)]) {
    for (source, expected) in cases {
        let count = lex(rt.alloc(), source).map(|tokens| tokens.len());
        assert_eq!(rt; count, *expected);
    }
}

#[test]
fn sources(rt: HostRuntime) {
    let cases: [(&[u8], Result<usize, Refusal>); 48] = [
        (b"", Ok(0)),
        (b"abcdefghijklmnop", Ok(1)),
        (b"; abcdefghijklmnopq", Err(TooLarge(2))),
        (b"1073741823", Ok(1)),
        (b"1073741824", Err(TooLarge(0))),
        (b"x=999999999999999999999999999999", Err(TooLarge(2))),
        (b"1073741824 abcdefghijklmnopq", Err(TooLarge(0))),
        // the second question goes before the third
        (b"1073741824 !", Err(NoToken(11))),
        (b"0", Ok(1)),
        (b"00", Err(NoToken(0))),
        (b"a 007", Err(NoToken(2))),
        (b"12ab", Ok(2)),
        (b"0x1", Ok(2)),
        (b"0 0", Ok(2)),
        (b"100", Ok(1)),
        (b"#include <stdio.h>", Ok(1)),
        (b"#include<stdio.h>", Ok(1)),
        (b"#include\t \t<stdio.h>", Ok(1)),
        (b"a#include<stdio.h>b", Ok(3)),
        (b"#include\n<stdio.h>", Err(NoToken(0))),
        (b" #include <stdlib.h>", Err(NoToken(1))),
        (b"# include <stdio.h>", Err(NoToken(0))),
        (b"#includes <stdio.h>", Err(NoToken(0))),
        (b"#include", Err(NoToken(0))),
        (b"\"%d\"(){},;&=+-*/%", Ok(14)),
        (b"==!=<=>=<>", Ok(6)),
        (b"===", Ok(2)),
        (b"<==", Ok(2)),
        (b"= =", Ok(2)),
        (b"a ! =", Err(NoToken(2))),
        (b"!", Err(NoToken(0))),
        (b"(\"%i\")", Err(NoToken(1))),
        (b"\"%d", Err(NoToken(0))),
        (b"\"%d\"\"", Err(NoToken(4))),
        (b"\t\n\r \x00", Err(NoToken(4))),
        (b"a\x0b", Err(NoToken(1))),
        (b"a\x0c", Err(NoToken(1))),
        (b"a\xc8", Err(NoToken(1))),
        (b"a_b", Err(NoToken(1))),
        (b"1.5", Err(NoToken(1))),
        (b"a // b", Ok(4)),
        (b"int main scanf printf if else while return", Ok(8)),
        (b"Int MAIN scanF", Ok(3)),
        (b"a\nb\rc\td", Ok(4)),
        (b"a1 1a", Ok(3)),
        (b"-1", Ok(2)),
        (b"a&&b", Ok(4)),
        (b"'a'", Err(NoToken(0))),
    ];
    check_all(&rt, &cases);
}

#[test]
fn lengths(rt: HostRuntime) -> Result<(), Fail> {
    let blanks = vec![in rt.alloc(); b' '; 16_384]?;
    let more = vec![in rt.alloc(); b' '; 16_385]?;
    let strays = vec![in rt.alloc(); b'!'; 16_385]?;
    let digits = vec![in rt.alloc(); b'9'; 16_384]?;
    check_all(
        &rt,
        &[
            (&blanks, Ok(0)),
            (&more, Err(TooLong)),
            (&strays, Err(TooLong)),
            (&digits, Err(TooLarge(0))),
        ],
    );
    Ok(())
}

fn token(kind: Kind, place: u32, length: u32) -> Token {
    Token {
        kind,
        place,
        length,
    }
}

// Kinds, places and lengths: a reserved word, a name that begins like it, a symbol of two bytes and a number.
#[test]
fn tokens(rt: HostRuntime) -> Result<(), Fail> {
    let Ok(tokens) = lex(rt.alloc(), b" while whiles<=42") else {
        return Err(Fail::new("refused"));
    };
    let expected = [
        token(Kind::Mark(Mark::While), 1, 5),
        token(Kind::Name, 7, 6),
        token(Kind::Relation(Relation::AtMost), 13, 2),
        token(Kind::Number(42), 15, 2),
    ];
    assert_eq!(rt; &tokens[..], &expected[..]);
    Ok(())
}

// The number that stands for each refusal, and the place that goes with it.
#[test]
fn refusals(rt: HostRuntime) {
    let cases = [
        (TooLong, 1, 16_384),
        (NoToken(7), 2, 7),
        (TooLarge(7), 3, 7),
        (NoMemory, 40, 0),
    ];
    for (refusal, number, place) in cases {
        assert_eq!(rt; Refused::from(refusal), Refused { number, place });
    }
}
