// Readers of declarations and of a whole program.
ghost use Rattle.parser.specs.Readers.{Fewer};
ghost use Rattle.parser.specs.Programs.{ReadsNames, ReadsDeclaration, ReadsProgram};

use crate::reader::Reader;
use crate::refusals::Refusal;
use syntax::token::Mark;
use syntax::tree::{Name, Program};

// How many levels there may be below an outermost statement.
const LEVELS: u32 = 31;

impl Reader<'_> {
    // The names of a declaration behind its first.
    fn names(&mut self, names: &mut Vec<Name>) -> Result<(), Refusal>
        ensures reads { ReadsNames self.old names.old.items result self.new names.new.items }
        ensures fewer { Fewer self.old result self.new }
    {
        while self.accept(Mark::Comma).is_some() {
            let name = self.name()?;
            names.push(name)?;
        }
        self.expect(Mark::Semicolon)?;
        Ok(())
    }

    fn declaration(&mut self) -> Result<Vec<Name>, Refusal>
        ensures reads { ReadsDeclaration self.old result self.new }
        ensures fewer { Fewer self.old result self.new }
    {
        let mut names = Vec::new(self.heap);
        if self.accept(Mark::Int).is_none() {
            return Ok(names);
        }
        let first = self.name()?;
        names.push(first)?;
        self.names(&mut names)?;
        Ok(names)
    }

    pub fn program(&mut self) -> Result<Program, Refusal>
        ensures reads { ReadsProgram self.old result self.new }
    {
        self.expect_all(&[
            Mark::Head,
            Mark::Int,
            Mark::Main,
            Mark::LeftParen,
            Mark::RightParen,
            Mark::LeftBrace,
        ])?;
        let declared = self.declaration()?;
        let mut statements = Vec::new(self.heap);
        self.statements(&mut statements, Mark::Return, LEVELS)?;
        self.zero()?;
        self.expect_all(&[Mark::Semicolon, Mark::RightBrace])?;
        Ok(Program {
            declared,
            statements,
        })
    }
}
