// Readers of statements.
ghost use Rattle.std.specs.Prelude.{◌≡◌, ℕ, List, [], ◌∷◌};
ghost use Rattle.parser.specs.Readers.{Fewer};
ghost use Rattle.parser.specs.Statements.{Less, ReadsCondition, ReadsAssigned, ReadsCall, ReadsStatement, ReadsBody, ReadsGuarded, ReadsIf, ReadsBlock, ReadsStatements};

use crate::reader::{Reader, deeper};
use crate::refusals::Refusal;
use syntax::token::{Kind, Mark};
use syntax::tree::{Condition, Expression, Guarded, Name, Statement};

// How many parentheses a factor may stand in.
const PARENTHESES: u32 = 32;

impl Reader<'_> {
    fn condition(&mut self) -> Result<Condition, Refusal>
        ensures reads { ReadsCondition self.old result self.new }
        ensures fewer { Fewer self.old result self.new }
    {
        self.expect(Mark::LeftParen)?;
        let left = self.expression(PARENTHESES)?;
        let (relation, place) = self.relation()?;
        let right = self.expression(PARENTHESES)?;
        self.expect(Mark::RightParen)?;
        Ok(Condition {
            left,
            relation,
            place,
            right,
        })
    }

    // The value of an assignment behind its name.
    fn assigned(&mut self) -> Result<Expression, Refusal>
        ensures reads { ReadsAssigned self.old result self.new }
        ensures fewer { Fewer self.old result self.new }
    {
        self.expect(Mark::Assign)?;
        let value = self.expression(PARENTHESES)?;
        self.expect(Mark::Semicolon)?;
        Ok(value)
    }

    // A call of `scanf` or `printf` behind its word; these tokens stand before its name.
    fn call(&mut self, opening: &[Mark]) -> Result<Name, Refusal>
        ensures reads { ReadsCall self.old opening.now result self.new }
        ensures fewer { Fewer self.old result self.new }
    {
        self.expect_all(opening)?;
        let name = self.name()?;
        self.expect_all(&[Mark::RightParen, Mark::Semicolon])?;
        Ok(name)
    }

    // A statement with so many levels to spare below it.
    #[cycle(statement_readers)]
    fn statement(&mut self, depth: u32) -> Result<Statement, Refusal>
        ensures reads { ReadsStatement self.old depth result self.new }
        ensures less { Less self.old result self.new }
    {
        let token = self.next()?;
        let inner = deeper(depth, token.place);
        match token.kind {
            Kind::Name => {
                let value = self.assigned()?;
                Ok(Statement::Assign(token.into(), value))
            }
            Kind::Mark(Mark::Scanf) => {
                let name = self.call(&[
                    Mark::LeftParen,
                    Mark::Format,
                    Mark::Comma,
                    Mark::Ampersand,
                ])?;
                Ok(Statement::Scan(name))
            }
            Kind::Mark(Mark::Printf) => {
                let name = self.call(&[Mark::LeftParen, Mark::Format, Mark::Comma])?;
                Ok(Statement::Print(name))
            }
            Kind::Mark(Mark::If) => self.if_statement(token.place, inner?),
            Kind::Mark(Mark::While) => {
                let guarded = self.guarded(token.place, inner?)?;
                Ok(Statement::While(guarded))
            }
            Kind::Mark(Mark::LeftBrace) => {
                let statements = self.block(inner?)?;
                Ok(Statement::Block(statements))
            }
            _ => Err(Refusal::Grammar(token.place)),
        }
    }

    // A statement as another one holds it.
    #[cycle(statement_readers)]
    fn body(&mut self, depth: u32) -> Result<Box<Statement>, Refusal>
        ensures reads { ReadsBody self.old depth result self.new }
        ensures less { Less self.old result self.new }
    {
        let statement = self.statement(depth)?;
        let boxed = Box::new(self.heap, statement)?;
        Ok(boxed)
    }

    // A condition and the statement behind it; the word before them stands at this place.
    #[cycle(statement_readers)]
    fn guarded(&mut self, place: u32, depth: u32) -> Result<Guarded, Refusal>
        ensures reads { ReadsGuarded self.old place depth result self.new }
        ensures fewer { Fewer self.old result self.new }
    {
        let condition = self.condition()?;
        let body = self.body(depth)?;
        Ok(Guarded {
            place,
            condition,
            body,
        })
    }

    // An `else` belongs to the `if` whose body was read last.
    #[cycle(statement_readers)]
    fn if_statement(&mut self, place: u32, depth: u32) -> Result<Statement, Refusal>
        ensures reads { ReadsIf self.old place depth result self.new }
        ensures fewer { Fewer self.old result self.new }
    {
        let first = self.guarded(place, depth)?;
        let Some(else_place) = self.accept(Mark::Else) else {
            return Ok(Statement::If(first));
        };
        let else_body = self.body(depth)?;
        Ok(Statement::IfElse {
            first,
            else_place,
            else_body,
        })
    }

    // One or more statements behind their brace.
    #[cycle(statement_readers)]
    fn block(&mut self, depth: u32) -> Result<Vec<Statement>, Refusal>
        ensures reads { ReadsBlock self.old depth result self.new }
        ensures fewer { Fewer self.old result self.new }
    {
        let mut statements = Vec::new(self.heap);
        let first = self.statement(depth)?;
        statements.push(first)?;
        self.statements(&mut statements, Mark::RightBrace, depth)?;
        Ok(statements)
    }

    // Statements up to this token, which is read too.
    #[cycle(statement_readers)]
    pub fn statements(
        &mut self,
        statements: &mut Vec<Statement>,
        end: Mark,
        depth: u32,
    ) -> Result<(), Refusal>
        ensures reads { ReadsStatements self.old statements.old.items end depth result self.new statements.new.items }
        ensures fewer { Fewer self.old result self.new }
    {
        while self.accept(end).is_none() {
            let statement = self.statement(depth)?;
            statements.push(statement)?;
        }
        Ok(())
    }
}
