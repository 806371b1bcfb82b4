// Tokens: what each is, where it begins in the source, and how many bytes it has.

// A token with one spelling that is no operator.
#[derive(Clone, Copy, PartialEq, Eq, Debug)]
pub enum Mark {
    Head,
    Int,
    Main,
    Scanf,
    Printf,
    If,
    Else,
    While,
    Return,
    Format,
    LeftParen,
    RightParen,
    LeftBrace,
    RightBrace,
    Comma,
    Semicolon,
    Ampersand,
    Assign,
}

#[derive(Clone, Copy, PartialEq, Eq, Debug)]
pub enum Relation {
    Equal,
    Unequal,
    Less,
    Greater,
    AtMost,
    AtLeast,
}

#[derive(Clone, Copy, PartialEq, Eq, Debug)]
pub enum Additive {
    Plus,
    Minus,
}

#[derive(Clone, Copy, PartialEq, Eq, Debug)]
pub enum Multiplicative {
    Times,
    Divide,
    Modulo,
}

// A name's bytes stand in the source, at the token's place.
#[derive(Clone, Copy, PartialEq, Eq, Debug)]
pub enum Kind {
    Mark(Mark),
    Name,
    Number(u32),
    Relation(Relation),
    Additive(Additive),
    Multiplicative(Multiplicative),
}

#[derive(Clone, Copy, PartialEq, Eq, Debug)]
pub struct Token {
    pub kind: Kind,
    pub place: u32,
    pub length: u32,
}
