// The code of expressions: the three levels call for one another through parentheses.
ghost use Rattle.std.specs.Prelude.{◌≡◌, ◌<◌, ◌≤◌, pos, IfOk, OnOk, MatchResult};
ghost use Rattle.translator.specs.declared.failure.Failure.TheVariants.{WideOperand};
ghost use Rattle.translator.specs.Linear.{code_of_sum, code_of_product, code_of_relation};
ghost use Rattle.translator.specs.Emitted.{factor_code, term_code, expression_code, condition_code};
ghost use Rattle.translator.specs.Emitters.{Emits};

use crate::emitter::Emitter;
use crate::failure::Failure;
use code::Instruction;
use syntax::token::{Additive, Multiplicative, Relation};
use syntax::tree::{Condition, Expression, Factor, Term};

// A literal has less than this, in 31 bits.
const LITERAL_END: i32 = 0x4000_0000;

// A number as the operand of LIT.
fn literal(value: u32) -> Result<i32, Failure>
    ensures { MatchResult result (λ z. (z ≡ pos value) × (value < 1073741824)) (λ e. (e ≡ WideOperand) × (1073741824 ≤ value)) }
{
    let z = i32::try_from(value)?;
    if z < LITERAL_END {
        Ok(z)
    } else {
        Err(Failure::WideOperand)
    }
}

// No `From`: both its types are foreign here. A trait of our own would hold these matches, and nothing be generic over it.
fn sum(operator: Additive) -> Instruction
    ensures { result ≡ code_of_sum operator }
{
    match operator {
        Additive::Plus => Instruction::Add,
        Additive::Minus => Instruction::Subtract,
    }
}

fn product(operator: Multiplicative) -> Instruction
    ensures { result ≡ code_of_product operator }
{
    match operator {
        Multiplicative::Times => Instruction::Multiply,
        Multiplicative::Divide => Instruction::Divide,
        Multiplicative::Modulo => Instruction::Modulo,
    }
}

fn comparison(relation: Relation) -> Instruction
    ensures { result ≡ code_of_relation relation }
{
    match relation {
        Relation::Equal => Instruction::Equal,
        Relation::Unequal => Instruction::Unequal,
        Relation::Less => Instruction::Less,
        Relation::Greater => Instruction::Greater,
        Relation::AtMost => Instruction::AtMost,
        Relation::AtLeast => Instruction::AtLeast,
    }
}

impl Emitter<'_> {
    #[cycle(expression_emitters)]
    fn factor(&mut self, factor: &Factor) -> Result<(), Failure>
        ensures { OnOk result (Emits self.old (factor_code self.old.scope factor.now) self.new) }
    {
        match factor {
            Factor::Variable(name) => self.put(Instruction::Load(self.cell(*name)), name.place),
            Factor::Number { value, place } => {
                self.put(Instruction::Literal(literal(*value)?), *place)
            }
            Factor::Parenthesized(inner) => self.expression(inner),
        }
    }

    #[cycle(expression_emitters)]
    fn term(&mut self, term: &Term) -> Result<(), Failure>
        ensures { OnOk result (Emits self.old (term_code self.old.scope term.now) self.new) }
    {
        match term {
            Term::One(factor) => self.factor(factor),
            Term::Product {
                left,
                operator,
                place,
                right,
            } => {
                self.term(left)?;
                self.factor(right)?;
                self.put(product(*operator), *place)
            }
        }
    }

    #[cycle(expression_emitters)]
    pub fn expression(&mut self, expression: &Expression) -> Result<(), Failure>
        ensures { OnOk result (Emits self.old (expression_code self.old.scope expression.now) self.new) }
    {
        match expression {
            Expression::First(term) => self.term(term),
            Expression::Negative { place, term } => {
                self.term(term)?;
                self.put(Instruction::Literal(-1), *place)?;
                self.put(Instruction::Multiply, *place)
            }
            Expression::Sum {
                left,
                operator,
                place,
                right,
            } => {
                self.expression(left)?;
                self.term(right)?;
                self.put(sum(*operator), *place)
            }
        }
    }

    pub fn condition(&mut self, condition: &Condition) -> Result<(), Failure>
        ensures { OnOk result (Emits self.old (condition_code self.old.scope condition.now) self.new) }
    {
        self.expression(&condition.left)?;
        self.expression(&condition.right)?;
        self.put(comparison(condition.relation), condition.place)
    }
}
