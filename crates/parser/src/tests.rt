// Which statements the tree of some tokens holds, and which tokens are refused.
use crate::parse;
use crate::refusals::Refusal;
use std::alloc::{AllocError, Global};
use std::test::Fail;
use syntax::token::{Kind, Mark, Relation, Token};
use syntax::tree::Statement;

// Tokens of these kinds, each one byte behind the one before.
fn tokens(heap: Global, kinds: &[Kind]) -> Result<Vec<Token>, AllocError> {
    let mut tokens = Vec::new(heap);
    for (place, kind) in (0..100u32).zip(kinds) {
        tokens.push(Token {
            kind: *kind,
            place,
            length: 1,
        })?;
    }
    Ok(tokens)
}

#[test]
fn an_else(rt: HostRuntime) -> Result<(), Fail> {
    let heap = rt.alloc();
    let kinds = [
        Kind::Mark(Mark::Head),
        Kind::Mark(Mark::Int),
        Kind::Mark(Mark::Main),
        Kind::Mark(Mark::LeftParen),
        Kind::Mark(Mark::RightParen),
        Kind::Mark(Mark::LeftBrace),
        Kind::Mark(Mark::Int),
        Kind::Name,
        Kind::Mark(Mark::Semicolon),
        Kind::Mark(Mark::If),
        Kind::Mark(Mark::LeftParen),
        Kind::Name,
        Kind::Relation(Relation::Less),
        Kind::Number(1),
        Kind::Mark(Mark::RightParen),
        Kind::Name,
        Kind::Mark(Mark::Assign),
        Kind::Number(2),
        Kind::Mark(Mark::Semicolon),
        Kind::Mark(Mark::Else),
        Kind::Name,
        Kind::Mark(Mark::Assign),
        Kind::Number(3),
        Kind::Mark(Mark::Semicolon),
        Kind::Mark(Mark::Return),
        Kind::Number(0),
        Kind::Mark(Mark::Semicolon),
        Kind::Mark(Mark::RightBrace),
    ];
    let all = tokens(heap, &kinds)?;
    let Ok(program) = parse(heap, &all) else {
        return Err(Fail::new("refused"));
    };
    let first = program.statements.first();
    assert!(rt; matches!(first, Some(Statement::IfElse { else_place: 19, .. })));
    let short = tokens(heap, &kinds[..27])?;
    assert!(rt; parse(heap, &short).err() == Some(Refusal::TooSoon));
    Ok(())
}
