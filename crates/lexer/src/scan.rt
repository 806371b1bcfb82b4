// The token that starts at the front of a text.
ghost use Rattle.std.specs.Prelude.{◌≡◌, true, min, Some};
ghost use Rattle.std.specs.List.{AllByRecursion};
ghost use Rattle.syntax.specs.Tokens.{kind_of};
ghost use Rattle.lexer.specs.Bytes.{digit};
ghost use Rattle.lexer.specs.Scan.{word_kind, value_of, word_at, number_at, head_at, symbol_at, scanned, limited, seen};

use crate::MAX_NUMBER;
use syntax::token::{Additive, Kind, Mark, Multiplicative, Relation};

// A number above the greatest is kept as this.
const BEYOND: u32 = MAX_NUMBER + 1;

// A token's kind and how many bytes it has.
#[derive(Clone, Copy)]
pub struct Found {
    pub kind: Kind,
    pub length: usize,
}

fn word_kind(word: &[u8]) -> Kind
    ensures { kind_of result word.now ≡ word_kind word.now }
{
    match word {
        b"int" => Kind::Mark(Mark::Int),
        b"main" => Kind::Mark(Mark::Main),
        b"scanf" => Kind::Mark(Mark::Scanf),
        b"printf" => Kind::Mark(Mark::Printf),
        b"if" => Kind::Mark(Mark::If),
        b"else" => Kind::Mark(Mark::Else),
        b"while" => Kind::Mark(Mark::While),
        b"return" => Kind::Mark(Mark::Return),
        _ => Kind::Name,
    }
}

// Cut at each digit, so that nothing wraps.
fn value(digits: &[u8]) -> u32
    requires { AllByRecursion (λ b. digit b ≡ true) digits.now }
    ensures { result ≡ min (value_of digits.now) 1073741824 }
{
    let value = digits.iter().fold(0u64, |value, digit| {
        let unit = u64::from(digit.saturating_sub(b'0'));
        let more = value.wrapping_mul(10).wrapping_add(unit);
        more.min(u64::from(BEYOND))
    });
    value as u32
}

fn word(text: &[u8]) -> Found
    ensures { seen text.now (Some result) ≡ limited (word_at text.now) }
{
    let length = text
        .iter()
        .take_while(|byte| byte.is_ascii_alphanumeric())
        .count();
    let kind = word_kind(&text[..length]);
    Found { kind, length }
}

fn number(text: &[u8]) -> Option<Found>
    ensures { seen text.now result ≡ limited (number_at text.now) }
{
    let length = text.iter().take_while(|byte| byte.is_ascii_digit()).count();
    match &text[..length] {
        [b'0', _, ..] => None,
        digits => Some(Found {
            kind: Kind::Number(value(digits)),
            length,
        }),
    }
}

fn head(text: &[u8]) -> Option<Found>
    ensures { seen text.now result ≡ limited (head_at text.now) }
{
    let behind = text.strip_prefix(b"#include")?;
    let gap = behind
        .iter()
        .take_while(|byte| matches!(**byte, b' ' | b'\t'))
        .count();
    let rest = behind[gap..].strip_prefix(b"<stdio.h>")?;
    Some(Found {
        kind: Kind::Mark(Mark::Head),
        length: text.len() - rest.len(),
    })
}

fn symbol(text: &[u8]) -> Option<Found>
    ensures { seen text.now result ≡ limited (symbol_at text.now) }
{
    let (kind, length) = match text {
        [b'"', b'%', b'd', b'"', ..] => (Kind::Mark(Mark::Format), 4),
        [b'=', b'=', ..] => (Kind::Relation(Relation::Equal), 2),
        [b'!', b'=', ..] => (Kind::Relation(Relation::Unequal), 2),
        [b'<', b'=', ..] => (Kind::Relation(Relation::AtMost), 2),
        [b'>', b'=', ..] => (Kind::Relation(Relation::AtLeast), 2),
        [b'<', ..] => (Kind::Relation(Relation::Less), 1),
        [b'>', ..] => (Kind::Relation(Relation::Greater), 1),
        [b'=', ..] => (Kind::Mark(Mark::Assign), 1),
        [b'(', ..] => (Kind::Mark(Mark::LeftParen), 1),
        [b')', ..] => (Kind::Mark(Mark::RightParen), 1),
        [b'{', ..] => (Kind::Mark(Mark::LeftBrace), 1),
        [b'}', ..] => (Kind::Mark(Mark::RightBrace), 1),
        [b',', ..] => (Kind::Mark(Mark::Comma), 1),
        [b';', ..] => (Kind::Mark(Mark::Semicolon), 1),
        [b'&', ..] => (Kind::Mark(Mark::Ampersand), 1),
        [b'+', ..] => (Kind::Additive(Additive::Plus), 1),
        [b'-', ..] => (Kind::Additive(Additive::Minus), 1),
        [b'*', ..] => (Kind::Multiplicative(Multiplicative::Times), 1),
        [b'/', ..] => (Kind::Multiplicative(Multiplicative::Divide), 1),
        [b'%', ..] => (Kind::Multiplicative(Multiplicative::Modulo), 1),
        _ => return None,
    };
    Some(Found { kind, length })
}

// The token that the text begins with, if one starts there.
pub fn scan_token(text: &[u8]) -> Option<Found>
    ensures { seen text.now result ≡ limited (scanned text.now) }
{
    let first = text.first()?;
    if first.is_ascii_alphabetic() {
        Some(word(text))
    } else if first.is_ascii_digit() {
        number(text)
    } else if *first == b'#' {
        head(text)
    } else {
        symbol(text)
    }
}
