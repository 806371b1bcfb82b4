// The names used in statements, looked up in the order of the source.
#![tactic(auto, using(crate::proofs::Sequences::one_by_one))]

ghost use Rattle.std.specs.Prelude.{[], ◌∷◌, ◌++◌};
ghost use Rattle.syntax.specs.TreeOf.{name_of, factor_of, term_of, expression_of, condition_of, body_of, statement_of, statements_of};
ghost use Rattle.names.specs.Uses.{uses_in_factor, uses_in_term, uses_in_expression, uses_in_condition, uses_in_statement, uses_in_statements, Checks};

use crate::cells::Scope;
use crate::refusals::Refusal;
use syntax::tree::{Condition, Expression, Factor, Guarded, Name, Statement, Term};

impl Scope<'_> {
    fn check_name(&self, name: Name) -> Result<(), Refusal>
        ensures { Checks self.now ((name_of self.now.source.now name, name.place) ∷ []) result }
    {
        self.cell(name).ok_or(Refusal::Undeclared(name.place))?;
        Ok(())
    }

    #[cycle(expression_uses)]
    fn check_factor(&self, factor: &Factor) -> Result<(), Refusal>
        ensures { Checks self.now (uses_in_factor (factor_of self.now.source.now factor.now)) result }
    {
        match factor {
            Factor::Variable(name) => self.check_name(*name),
            Factor::Number { .. } => Ok(()),
            Factor::Parenthesized(expression) => self.check_expression(expression),
        }
    }

    #[cycle(expression_uses)]
    fn check_term(&self, term: &Term) -> Result<(), Refusal>
        ensures { Checks self.now (uses_in_term (term_of self.now.source.now term.now)) result }
    {
        match term {
            Term::One(factor) => self.check_factor(factor),
            Term::Product { left, right, .. } => {
                self.check_term(left)?;
                self.check_factor(right)
            }
        }
    }

    #[cycle(expression_uses)]
    fn check_expression(&self, expression: &Expression) -> Result<(), Refusal>
        ensures { Checks self.now (uses_in_expression (expression_of self.now.source.now expression.now)) result }
    {
        match expression {
            Expression::First(term) | Expression::Negative { term, .. } => self.check_term(term),
            Expression::Sum { left, right, .. } => {
                self.check_expression(left)?;
                self.check_term(right)
            }
        }
    }

    fn check_condition(&self, condition: &Condition) -> Result<(), Refusal>
        ensures { Checks self.now (uses_in_condition (condition_of self.now.source.now condition.now)) result }
    {
        self.check_expression(&condition.left)?;
        self.check_expression(&condition.right)
    }

    #[cycle(statement_uses)]
    fn check_guarded(&self, guarded: &Guarded) -> Result<(), Refusal>
        ensures { Checks self.now (uses_in_condition (condition_of self.now.source.now guarded.now.condition) ++ uses_in_statement (body_of self.now.source.now guarded.now)) result }
    {
        self.check_condition(&guarded.condition)?;
        self.check_statement(&guarded.body)
    }

    #[cycle(statement_uses)]
    fn check_statement(&self, statement: &Statement) -> Result<(), Refusal>
        ensures { Checks self.now (uses_in_statement (statement_of self.now.source.now statement.now)) result }
    {
        match statement {
            Statement::Assign(name, value) => {
                self.check_name(*name)?;
                self.check_expression(value)
            }
            Statement::Scan(name) | Statement::Print(name) => self.check_name(*name),
            Statement::If(guarded) | Statement::While(guarded) => self.check_guarded(guarded),
            Statement::IfElse {
                first,
                else_body,
                ..
            } => {
                self.check_guarded(first)?;
                self.check_statement(else_body)
            }
            Statement::Block(statements) => self.check_statements(statements),
        }
    }

    // Whether each name in the statements is declared. The first that is not is what is refused.
    #[cycle(statement_uses)]
    pub(crate) fn check_statements(&self, statements: &[Statement]) -> Result<(), Refusal>
        ensures { Checks self.now (uses_in_statements (statements_of self.now.source.now statements.now)) result }
    {
        for statement in statements {
            self.check_statement(statement)?;
        }
        Ok(())
    }
}
