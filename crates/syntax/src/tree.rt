// The syntax tree. Each node keeps the places of the tokens that its instructions are blamed on.
ghost use Rattle.std.specs.Prelude.{◌≡◌};

use crate::token::{Additive, Multiplicative, Relation, Token};

// Where a name stands in the source.
#[derive(Clone, Copy, PartialEq, Eq, Debug)]
pub struct Name {
    pub place: u32,
    pub length: u32,
}

impl From<Token> for Name {
    ghost from_gives = { λ token name. (name.place ≡ token.place) × (name.length ≡ token.length) };

    fn from(token: Token) -> Name {
        Name {
            place: token.place,
            length: token.length,
        }
    }
}

#[cycle(factor)]
#[derive(Drop)]
pub enum Factor {
    Variable(Name),
    Number { value: u32, place: u32 },
    Parenthesized(Box<Expression>),
}

#[cycle(factor)]
#[derive(Drop)]
pub enum Term {
    One(Factor),
    Product {
        left: Box<Term>,
        operator: Multiplicative,
        place: u32,
        right: Factor,
    },
}

// The first term may have a sign; a plus leaves no trace.
#[cycle(factor)]
#[derive(Drop)]
pub enum Expression {
    First(Term),
    Negative {
        place: u32,
        term: Term,
    },
    Sum {
        left: Box<Expression>,
        operator: Additive,
        place: u32,
        right: Term,
    },
}

#[derive(Drop)]
pub struct Condition {
    pub left: Expression,
    pub relation: Relation,
    pub place: u32,
    pub right: Expression,
}

// A condition and the statement behind it. The place is that of the word `if` or `while`.
#[cycle(statement)]
#[derive(Drop)]
pub struct Guarded {
    pub place: u32,
    pub condition: Condition,
    pub body: Box<Statement>,
}

#[cycle(statement)]
#[derive(Drop)]
pub enum Statement {
    Assign(Name, Expression),
    Scan(Name),
    Print(Name),
    If(Guarded),
    IfElse {
        first: Guarded,
        else_place: u32,
        else_body: Box<Statement>,
    },
    While(Guarded),
    Block(Vec<Statement>),
}

#[derive(Drop)]
pub struct Program {
    pub declared: Vec<Name>,
    pub statements: Vec<Statement>,
}
