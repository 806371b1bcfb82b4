// Readers of the three levels of an expression, which call one another through parentheses.
ghost use Rattle.std.specs.Prelude.{◌≡◌, ℕ, List};
ghost use Rattle.syntax.specs.TreeOf.{term_of, expression_of};
ghost use Rattle.parser.specs.Reads.{signed_by};
ghost use Rattle.parser.specs.Readers.{Fewer, ReadsFactor, ReadsParenthesized, ReadsTerm, ReadsExpression};

use crate::reader::{Reader, deeper};
use crate::refusals::Refusal;
use syntax::token::{Additive, Kind, Mark};
use syntax::tree::{Expression, Factor, Term};

impl Reader<'_> {
    // `term` has a loop like this one: one for both would take closures for operator, operand and node, and be longer.
    #[cycle(expression_readers)]
    pub fn expression(&mut self, parens: u32) -> Result<Expression, Refusal>
        ensures reads { ReadsExpression self.old parens result self.new }
        ensures fewer { Fewer self.old result self.new }
    {
        let sign = self.additive();
        let mut sum = signed(sign, self.term(parens)?);
        while let Some((operator, place)) = self.additive() {
            let right = self.term(parens)?;
            let left = Box::new(self.heap, sum)?;
            sum = Expression::Sum {
                left,
                operator,
                place,
                right,
            };
        }
        Ok(sum)
    }

    #[cycle(expression_readers)]
    fn term(&mut self, parens: u32) -> Result<Term, Refusal>
        ensures reads { ReadsTerm self.old parens result self.new }
        ensures fewer { Fewer self.old result self.new }
    {
        let mut product = Term::One(self.factor(parens)?);
        while let Some((operator, place)) = self.multiplicative() {
            let right = self.factor(parens)?;
            let left = Box::new(self.heap, product)?;
            product = Term::Product {
                left,
                operator,
                place,
                right,
            };
        }
        Ok(product)
    }

    #[cycle(expression_readers)]
    fn factor(&mut self, parens: u32) -> Result<Factor, Refusal>
        ensures reads { ReadsFactor self.old parens result self.new }
        ensures fewer { Fewer self.old result self.new }
    {
        let token = self.next()?;
        match token.kind {
            Kind::Name => Ok(Factor::Variable(token.into())),
            Kind::Number(value) => Ok(Factor::Number {
                value,
                place: token.place,
            }),
            Kind::Mark(Mark::LeftParen) => self.parenthesized(deeper(parens, token.place)?),
            _ => Err(Refusal::Grammar(token.place)),
        }
    }

    // A factor behind its open parenthesis.
    #[cycle(expression_readers)]
    fn parenthesized(&mut self, parens: u32) -> Result<Factor, Refusal>
        ensures reads { ReadsParenthesized self.old parens result self.new }
        ensures fewer { Fewer self.old result self.new }
    {
        let inner = self.expression(parens)?;
        self.expect(Mark::RightParen)?;
        let inner = Box::new(self.heap, inner)?;
        Ok(Factor::Parenthesized(inner))
    }
}

fn signed(sign: Option<(Additive, u32)>, term: Term) -> Expression
    ensures { (source : List ℕ) → expression_of source result ≡ signed_by sign (term_of source term) }
{
    match sign {
        Some((Additive::Minus, place)) => Expression::Negative { place, term },
        _ => Expression::First(term),
    }
}
