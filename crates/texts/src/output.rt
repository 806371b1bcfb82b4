// An output tape over text in memory given at the start, one number to a line.
ghost use Rattle.std.specs.Prelude.{◌≡◌, ◌+◌, ◌/◌, ◌≤◌, ◌++◌, length, vec_len, vec_capacity};
ghost use Rattle.lines.specs.Lines.{line_of};
ghost use Rattle.tapes.specs.Meaning.{unwritten, filling_means, filling_bounded};
ghost use Rattle.texts.specs.Texts.{lines_of};

use lines::{LINE_LENGTH, write_line};
use std::marker::Model;
use tapes::output::{OutputTape, Pinch};

// No generic tape with WordOutput: to one of another crate no `text` can be added, and a struct around it passes on each method.
#[derive(Drop)]
pub struct TextOutput {
    text: Vec<u8>,
    // no more lines than the memory was long for, though the capacity may be larger
    left: usize,
}

impl Model for TextOutput {
    ghost use Rattle.std.specs.Prelude.{◌+◌, ◌*◌, ◌≤◌, vec_len, vec_capacity};
    ghost use Rattle.tapes.specs.Meaning.{Filling};
    ghost use Rattle.texts.specs.Texts.{numbers_in, Lines};

    ghost Value = { Filling };

    ghost view = { λ t. record { written = numbers_in t.text.items; room = t.left } };

    ghost invariant = { λ t. (vec_len t.text + 12 * t.left ≤ vec_capacity t.text) × Lines t.text.items };
}

impl TextOutput {
    // A tape with nothing written, and as much room as the memory has whole lines.
    pub fn new(mut memory: Vec<u8>) -> TextOutput
        ensures { result ≡ unwritten (length memory.items / 12) }
    {
        let left = memory.len() / LINE_LENGTH;
        memory.clear();
        TextOutput { text: memory, left }
    }

    // The lines of the numbers written.
    pub fn text(&self) -> &[u8]
        ensures { result.now ≡ lines_of self.now.written }
    {
        &self.text
    }
}

// Appends the line of a number where there is capacity, and so allocates nothing.
fn append_line(text: &mut Vec<u8>, x: i32)
    requires { vec_len text.old + 12 ≤ vec_capacity text.old }
    ensures items { text.new.items ≡ text.old.items ++ line_of x }
    ensures len { vec_len text.new ≡ vec_len text.old + 12 }
    ensures capacity { vec_capacity text.old ≤ vec_capacity text.new }
{
    text.extend_from_slice(&write_line(x)).unwrap();
}

impl OutputTape for TextOutput {
    ghost means = { filling_means };

    ghost bounded = { filling_bounded };

    fn room(&self) -> usize {
        self.left
    }

    fn pinch(&self) -> Pinch {
        Pinch::full()
    }

    fn put(&mut self, x: i32) -> Result<(), Pinch> {
        if self.left == 0 {
            return Err(Pinch::full());
        }
        append_line(&mut self.text, x);
        self.left -= 1;
        Ok(())
    }

    fn settle(&mut self) {}
}

#[cfg(test)]
mod tests {
    use super::*;
    use std::test::Fail;

    // Memory of 35 bytes has room for two lines.
    #[test]
    fn writes_whole_lines(rt: HostRuntime) -> Result<(), Fail> {
        let mut tape = TextOutput::new(vec![in rt.alloc(); 0u8; 35]?);
        assert_eq!(rt; tape.room(), 2);
        assert!(rt; tape.put(4).is_ok());
        assert!(rt; tape.put(-2_147_483_648).is_ok());
        assert_eq!(rt; tape.put(5), Err(Pinch::full()));
        assert!(rt; tape.text() == b"          4\n-2147483648\n".as_slice());
        Ok(())
    }
}
