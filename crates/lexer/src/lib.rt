// From the bytes of a source to its tokens.
#![tactic(auto)]

ghost use Rattle.std.specs.Prelude.{◌≡◌, ◌≤◌, length, IfOk, MatchResult};
ghost use Rattle.std.specs.List.{AllByRecursion, find};
ghost use Rattle.std.specs.Option.{option_map};
ghost use Rattle.syntax.specs.Tokens.{tokens_of};
ghost use Rattle.lexer.specs.Bytes.{blank};
ghost use Rattle.lexer.specs.Reading.{Lexical};
ghost use Rattle.lexer.specs.Lex.{good, lexing, limited_all, lexemes_of, coded_too_large, answer, accepted, Refuses, Strays, Within};

pub mod refusals;
mod scan;

use refusals::Refusal;
use scan::scan_token;
use std::alloc::Global;
use syntax::token::{Kind, Token};

const MAX_BYTES: usize = 16_384;

const MAX_NAME: u32 = 16;

const MAX_NUMBER: u32 = 1_073_741_823;

// `is_ascii_whitespace` would take a form feed too.
fn is_blank(byte: u8) -> bool
    ensures { result ≡ blank byte }
{
    matches!(byte, b'\t' | b'\n' | b'\r' | b' ')
}

// The tokens of a source; a number above the greatest is cut to one more than that.
fn tokens(heap: Global, source: &[u8]) -> Result<Vec<Token>, Refusal>
    requires { length source.now ≤ 16384 }
    ensures { MatchResult result (λ v. limited_all (lexing source.now) ≡ good (lexemes_of source.now v.items)) (λ e. Strays (lexing source.now) e) }
{
    let mut tokens = Vec::new(heap);
    let mut rest = source;
    while let Some((first, behind)) = rest.split_first() {
        if is_blank(*first) {
            rest = behind;
        } else {
            let place = (source.len() - rest.len()) as u32;
            let found = scan_token(rest).ok_or(Refusal::NoToken(place))?;
            let token = Token {
                kind: found.kind,
                place,
                length: found.length as u32,
            };
            tokens.push(token)?;
            rest = &rest[found.length..];
        }
    }
    Ok(tokens)
}

fn is_too_large(token: &Token) -> bool
    ensures { result ≡ coded_too_large token.now }
{
    match token.kind {
        Kind::Name => token.length > MAX_NAME,
        Kind::Number(value) => value > MAX_NUMBER,
        _ => false,
    }
}

fn first_too_large(tokens: &[Token]) -> Option<u32>
    ensures { result ≡ option_map (λ t. t.place) (find coded_too_large tokens.now) }
{
    tokens
        .iter()
        .find(|token| is_too_large(token))
        .map(|token| token.place)
}

// The tokens of a source, or the first of the three questions that is answered no.
#[tactic(auto, using(crate::proofs::Only::lexical, crate::proofs::Limits::all_within, crate::proofs::Limits::small_lexed, crate::proofs::Limits::small_accepted, crate::proofs::Limits::large_refused))]
pub fn lex(heap: Global, source: &[u8]) -> Result<Vec<Token>, Refusal>
    ensures answers { MatchResult result (λ v. answer source.now ≡ accepted (tokens_of source.now v.items)) (λ e. Refuses source.now e) }
    ensures lexemes { IfOk result (λ v. lexing source.now ≡ good (lexemes_of source.now v.items)) }
    ensures within { IfOk result (λ v. AllByRecursion (Within source.now) v.items) }
    ensures lexical { Lexical source.now }
{
    if source.len() > MAX_BYTES {
        return Err(Refusal::TooLong);
    }
    let tokens = tokens(heap, source)?;
    match first_too_large(&tokens) {
        Some(place) => Err(Refusal::TooLarge(place)),
        None => Ok(tokens),
    }
}

#[cfg(test)]
mod tests;
