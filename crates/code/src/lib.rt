// The instructions of the AM stack machine, and their 32-bit words.
#![tactic(auto)]

ghost use Rattle.code.specs.Words.{Encoded, Decoded, OneWordEach, Examples};
ghost use Rattle.code.specs.Division.{RoundsDown};
ghost use Rattle.code.specs.Advances.{AdvancesAddUp, AdvancesStayWithin};
ghost use Rattle.code.specs.Stack.{Frame, TooFew, Full, Jumps};

// One instruction. Cells and jump targets count from 1.
// Flat: with the operations in an enum of their own, one case of this, a step took about a tenth longer in a trial with an
// older kit.
#[derive(Clone, Copy, PartialEq, Eq, Debug)]
pub enum Instruction {
    Literal(i32),
    Read(u16),
    Write(u16),
    Load(u16),
    Store(u16),
    Jump(u16),
    JumpIfZero(u16),
    Add,
    Subtract,
    Multiply,
    Divide,
    Modulo,
    Less,
    Equal,
    Unequal,
    Greater,
    AtMost,
    AtLeast,
}

// The word of an instruction, or none where a literal needs more than 31 bits.
// Two functions and no TryFrom: its error type would say no more than None, both here and in decode.
pub fn encode(instruction: Instruction) -> Option<u32>
    ensures { Encoded instruction result }
{
    match instruction {
        Instruction::Literal(z) => encode_literal(z),
        Instruction::Read(n) => Some(0x4000_0000 + u32::from(n)),
        Instruction::Write(n) => Some(0x4800_0000 + u32::from(n)),
        Instruction::Load(n) => Some(0x5000_0000 + u32::from(n)),
        Instruction::Store(n) => Some(0x5800_0000 + u32::from(n)),
        Instruction::Jump(n) => Some(0x6000_0000 + u32::from(n)),
        Instruction::JumpIfZero(n) => Some(0x6800_0000 + u32::from(n)),
        Instruction::Add => Some(1),
        Instruction::Subtract => Some(2),
        Instruction::Multiply => Some(3),
        Instruction::Divide => Some(4),
        Instruction::Modulo => Some(5),
        Instruction::Less => Some(6),
        Instruction::Equal => Some(7),
        Instruction::Unequal => Some(8),
        Instruction::Greater => Some(9),
        Instruction::AtMost => Some(10),
        Instruction::AtLeast => Some(11),
    }
}

fn encode_literal(z: i32) -> Option<u32>
    ensures { Encoded (Instruction.Literal z) result }
{
    match z {
        0..=0x3FFF_FFFF => Some(0x8000_0000 + z.cast_unsigned()),
        -0x4000_0000..=-1 => Some(z.cast_unsigned()),
        _ => None,
    }
}

// The instruction of a word, or none where no instruction has the word.
pub fn decode(word: u32) -> Option<Instruction>
    ensures { Decoded word result }
{
    if word >= 0xC000_0000 {
        return Some(Instruction::Literal(word.cast_signed()));
    }
    if word >= 0x8000_0000 {
        return Some(Instruction::Literal((word - 0x8000_0000).cast_signed()));
    }
    let operand = (word % 0x1_0000) as u16;
    match word / 0x1_0000 {
        0x4000 => Some(Instruction::Read(operand)),
        0x4800 => Some(Instruction::Write(operand)),
        0x5000 => Some(Instruction::Load(operand)),
        0x5800 => Some(Instruction::Store(operand)),
        0x6000 => Some(Instruction::Jump(operand)),
        0x6800 => Some(Instruction::JumpIfZero(operand)),
        0 => operation(operand),
        _ => None,
    }
}

// The instruction without operand whose word is this number.
fn operation(number: u16) -> Option<Instruction>
    ensures { Decoded number result }
{
    match number {
        1 => Some(Instruction::Add),
        2 => Some(Instruction::Subtract),
        3 => Some(Instruction::Multiply),
        4 => Some(Instruction::Divide),
        5 => Some(Instruction::Modulo),
        6 => Some(Instruction::Less),
        7 => Some(Instruction::Equal),
        8 => Some(Instruction::Unequal),
        9 => Some(Instruction::Greater),
        10 => Some(Instruction::AtMost),
        11 => Some(Instruction::AtLeast),
        _ => None,
    }
}

// The words of instructions are their own, and decoding undoes encoding.
pub fn one_word_each()
    ensures each { OneWordEach }
    ensures examples { Examples }
{}

// Division rounds down, and its remainder has the divisor's sign.
pub fn rounds_down()
    ensures { RoundsDown }
{}

// How the machine's instructions use the stack.
pub fn stack_laws()
    ensures frame { Frame }
    ensures few { TooFew }
    ensures full { Full }
    ensures jumps { Jumps }
{}

// What holds of advances, whatever the code.
pub fn advances_add_up()
    ensures together { AdvancesAddUp }
    ensures within { AdvancesStayWithin }
{}

#[cfg(test)]
mod tests {
    use super::*;

    #[test]
    fn words_of_instructions(rt: HostRuntime) {
        assert_eq!(rt; encode(Instruction::Literal(-1)), Some(0xFFFF_FFFF));
        assert_eq!(rt; encode(Instruction::JumpIfZero(13)), Some(0x6800_000D));
        assert_eq!(rt;
            encode(Instruction::Literal(0x3FFF_FFFF)),
            Some(0xBFFF_FFFF)
        );
        assert_eq!(rt; encode(Instruction::Literal(0x4000_0000)), None);
        assert_eq!(rt;
            encode(Instruction::Literal(-0x4000_0000)),
            Some(0xC000_0000)
        );
        assert_eq!(rt; encode(Instruction::Literal(-0x4000_0001)), None);
        assert_eq!(rt; encode(Instruction::AtLeast), Some(11));
    }

    #[test]
    fn instructions_of_words(rt: HostRuntime) {
        assert_eq!(rt; decode(0xFFFF_FFFF), Some(Instruction::Literal(-1)));
        assert_eq!(rt; decode(0x6800_000D), Some(Instruction::JumpIfZero(13)));
        assert_eq!(rt; decode(0x4800_FFFF), Some(Instruction::Write(65535)));
        assert_eq!(rt; decode(0), None, "no operation has number 0");
        assert_eq!(rt; decode(12), None, "nor 12");
        assert_eq!(rt; decode(0x4001_0001), None, "a bit above the operand");
        assert_eq!(rt; decode(0x7000_0001), None, "kind 6");
        assert_eq!(rt; decode(0x7800_0001), None, "kind 7");
    }
}
