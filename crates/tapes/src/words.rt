// Tapes over words in memory given at the start.
ghost use Rattle.std.specs.Prelude.{◌≡◌, length};
ghost use Rattle.tapes.specs.Meaning.{unwritten, filling_means, filling_bounded};

use crate::input::InputTape;
use crate::output::{OutputTape, Pinch};
use std::marker::Model;
use std::vec::IntoIter;

#[derive(Drop)]
pub struct WordInput {
    words: IntoIter<i32>,
}

impl Model for WordInput {
    ghost use Rattle.std.specs.Prelude.{List, ℤ};
    ghost use Rattle.std.specs.Vec.Iter.{into_iter_items};

    ghost Value = { List ℤ };

    ghost view = { λ t. into_iter_items t.words };
}

impl WordInput {
    // A tape on which all these words wait.
    pub fn new(words: Vec<i32>) -> WordInput
        ensures { result ≡ words.items }
    {
        WordInput {
            words: words.into_iter(),
        }
    }
}

impl InputTape for WordInput {
    ghost waiting = { λ t. t };

    fn take(&mut self) -> Option<i32> {
        self.words.next()
    }
}

#[derive(Drop)]
pub struct WordOutput {
    words: Vec<i32>,
    // no more than the memory had words, though the capacity may be larger
    left: usize,
}

impl Model for WordOutput {
    ghost use Rattle.std.specs.Prelude.{◌+◌, ◌≤◌, vec_len, vec_capacity};
    ghost use Rattle.tapes.specs.Meaning.{Filling};

    ghost Value = { Filling };

    ghost view = { λ t. record { written = t.words.items; room = t.left } };

    ghost invariant = { λ t. vec_len t.words + t.left ≤ vec_capacity t.words };
}

impl WordOutput {
    // A tape with nothing written, and as much room as the memory has words.
    pub fn new(mut memory: Vec<i32>) -> WordOutput
        ensures { result ≡ unwritten (length memory.items) }
    {
        let left = memory.len();
        memory.clear();
        WordOutput {
            words: memory,
            left,
        }
    }

    // The words written.
    pub fn written(&self) -> &[i32]
        ensures { result.now ≡ self.now.written }
    {
        &self.words
    }
}

impl OutputTape for WordOutput {
    ghost means = { filling_means };

    ghost bounded = { filling_bounded };

    fn room(&self) -> usize {
        self.left
    }

    fn pinch(&self) -> Pinch {
        Pinch::full()
    }

    fn put(&mut self, x: i32) -> Result<(), Pinch> {
        if self.left == 0 {
            return Err(Pinch::full());
        }
        self.words.push_reserved(x);
        self.left -= 1;
        Ok(())
    }

    fn settle(&mut self) {}
}
