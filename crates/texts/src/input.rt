// An input tape over text, one number to a line.
ghost use Rattle.std.specs.Prelude.{◌≡◌, length, MatchResult};
ghost use Rattle.texts.specs.Texts.{lines_of, Words, FirstBad, Lines};
ghost use Rattle.texts.specs.Refusals.{place_of};

use crate::refusals::Refusal;
use lines::{LINE_LENGTH, read_line};
use std::marker::Model;
use tapes::input::InputTape;

#[derive(Drop)]
pub struct TextInput {
    bytes: Vec<u8>,
    // a place, since a line is read as a slice, and `IntoIter` gives none of what is left
    next: usize,
}

impl Model for TextInput {
    ghost use Rattle.std.specs.Prelude.{List, ℤ, ◌≤◌, length, drop};
    ghost use Rattle.texts.specs.Texts.{numbers_in, Lines};

    ghost Value = { List ℤ };

    ghost view = { λ t. numbers_in (drop t.next t.bytes.items) };

    ghost invariant = { λ t. (t.next ≤ length t.bytes.items) × Lines (drop t.next t.bytes.items) };
}

impl TextInput {
    // A tape on which the numbers of all lines wait; their lines are the bytes.
    pub fn new(bytes: Vec<u8>) -> Result<TextInput, Refusal>
        ensures { MatchResult result (λ waiting. (lines_of waiting ≡ bytes.items) × Words waiting) (λ e. FirstBad bytes.items (place_of e)) }
    {
        check(&bytes)?;
        Ok(TextInput { bytes, next: 0 })
    }

    // How many numbers wait, each of 32 bits.
    pub fn len(&self) -> usize
        ensures len { result ≡ length self.now }
        ensures words { Words self.now }
    {
        self.bytes[self.next..].len() / LINE_LENGTH
    }
}

// Refuses the first line that is no number's.
fn check(bytes: &[u8]) -> Result<(), Refusal>
    ensures { MatchResult result (λ _. Lines bytes.now) (λ e. FirstBad bytes.now (place_of e)) }
{
    match bytes
        .chunks(LINE_LENGTH)
        .position(|line| read_line(line).is_none())
    {
        Some(before) => Err(Refusal::NotALine(before + 1)),
        None => Ok(()),
    }
}

impl InputTape for TextInput {
    ghost waiting = { λ t. t };

    fn take(&mut self) -> Option<i32> {
        let (line, _) = self.bytes[self.next..].split_first_chunk::<LINE_LENGTH>()?;
        let x = read_line(line)?;
        self.next += LINE_LENGTH;
        Some(x)
    }
}

#[cfg(test)]
mod tests {
    use super::*;
    use std::test::Fail;

    // How many numbers a text gives, nine at most, or the line that is refused.
    fn taken(bytes: Vec<u8>) -> Result<usize, Refusal> {
        let mut tape = TextInput::new(bytes)?;
        Ok((0..9).take_while(|_| tape.take().is_some()).count())
    }

    #[test]
    fn lines_are_taken(rt: HostRuntime) -> Result<(), Fail> {
        let heap = rt.alloc();
        assert_eq!(rt; taken(Vec::new(heap)), Ok(0));
        let three = b"          4\n-2147483648\n 2147483647\n";
        assert_eq!(rt; taken(three.to_vec(heap)?), Ok(3));
        Ok(())
    }

    #[test]
    fn the_first_bad_line_is_named(rt: HostRuntime) -> Result<(), Fail> {
        let cases: [(&[u8], usize); 8] = [
            (b"          4\n          5", 2),
            (b"         -0\n", 1),
            (b"          4\n         +1\n         01\n", 2),
            (b" 2147483648\n", 1),
            (b"           \n", 1),
            (b"          -\n", 1),
            (b"         \t1\n", 1),
            (b"5\n", 1),
        ];
        for (text, line) in cases {
            assert_eq!(rt;
                taken(text.to_vec(rt.alloc())?),
                Err(Refusal::NotALine(line))
            );
        }
        Ok(())
    }
}
