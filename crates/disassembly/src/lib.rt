// Code as a person reads it: instructions by their names, places by line and column.
#![tactic(auto)]

ghost use Rattle.std.specs.Prelude.{◌≡◌, take, Some};
ghost use Rattle.disassembly.specs.Text.{named, position};

use code::Instruction;
use std::fmt;

// An instruction's name and operand.
#[derive(Clone, Copy)]
pub struct Mnemonic(pub Instruction);

impl fmt::Display for Mnemonic {
    ghost output = { λ x. Some (named x.0) };

    fn fmt<W: fmt::Write>(&self, f: &mut fmt::Formatter<W>) -> fmt::Result {
        match self.0 {
            Instruction::Literal(z) => write!(f, "LIT {z}"),
            Instruction::Read(n) => write!(f, "READ {n}"),
            Instruction::Write(n) => write!(f, "WRITE {n}"),
            Instruction::Load(n) => write!(f, "LOAD {n}"),
            Instruction::Store(n) => write!(f, "STORE {n}"),
            Instruction::Jump(n) => write!(f, "JMP {n}"),
            Instruction::JumpIfZero(n) => write!(f, "JMC {n}"),
            Instruction::Add => write!(f, "ADD"),
            Instruction::Subtract => write!(f, "SUB"),
            Instruction::Multiply => write!(f, "MUL"),
            Instruction::Divide => write!(f, "DIV"),
            Instruction::Modulo => write!(f, "MOD"),
            Instruction::Less => write!(f, "LT"),
            Instruction::Equal => write!(f, "EQ"),
            Instruction::Unequal => write!(f, "NE"),
            Instruction::Greater => write!(f, "GT"),
            Instruction::AtMost => write!(f, "LE"),
            Instruction::AtLeast => write!(f, "GE"),
        }
    }
}

// A line and a column, both from 1.
#[derive(Clone, Copy, PartialEq, Eq, Debug)]
pub struct Position {
    pub line: usize,
    pub column: usize,
}

// Where a place of a source stands.
pub fn position_of(source: &[u8], place: usize) -> Position
    ensures { (result.line, result.column) ≡ position (take place source.now) }
{
    let before = source.get(..place).unwrap_or(source);
    before
        .iter()
        .fold(Position { line: 1, column: 1 }, |at, byte| {
            if *byte == b'\n' {
                Position {
                    line: at.line + 1,
                    column: 1,
                }
            } else {
                Position {
                    column: at.column + 1,
                    ..at
                }
            }
        })
}
