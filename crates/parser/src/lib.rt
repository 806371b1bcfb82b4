// Are the tokens of a source those of a program within both depths, and of which?
#![tactic(auto)]

ghost use Rattle.parser.specs.Promise.{Answers, Parses};

mod expression;
mod program;
mod reader;
pub mod refusals;
mod statement;

use reader::Reader;
use refusals::Refusal;
use std::alloc::Global;
use syntax::token::Token;
use syntax::tree::Program;

pub fn parse(heap: Global, tokens: &[Token]) -> Result<Program, Refusal>
    ensures { Parses tokens.now result }
{
    let mut reader = Reader { rest: tokens, heap };
    let program = reader.program()?;
    match reader.rest.first() {
        None => Ok(program),
        Some(token) => Err(Refusal::Grammar(token.place)),
    }
}

pub fn check(heap: Global, tokens: &[Token]) -> Result<(), Refusal>
    ensures { Answers tokens.now result }
{
    parse(heap, tokens)?;
    Ok(())
}

#[cfg(test)]
mod tests;
