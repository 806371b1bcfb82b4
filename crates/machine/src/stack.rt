// The stack of a run.
ghost use Rattle.std.specs.Prelude.{◌≡◌, ◌<◌, ◌≤◌, [], ◌∷◌, drop, length, OnOk};
ghost use Rattle.code.specs.Machine.{nth};
ghost use Rattle.machine.specs.View.{Room, Operands, Popped};

use crate::fault::Cause;
use std::marker::Model;

const MOST: usize = 68;

// At most 68 words, the last of the first `depth` on top. With an ArrayVec 20 million steps of a loop took 0.044 and not
// 0.037 seconds.
#[derive(Drop)]
pub struct Stack {
    words: [i32; MOST],
    depth: usize,
}

// Clauses see the words, the top first.
impl Model for Stack {
    ghost use Rattle.std.specs.Prelude.{List, ℤ, ◌≤◌};

    ghost Value = { List ℤ };

    ghost use Rattle.machine.specs.View.{tops};
    ghost use Rattle.machine.specs.declared.stack.TheConstants.{MOST};

    ghost view = { λ s. tops s.words s.depth };

    ghost invariant = { λ s. s.depth ≤ MOST };
}

impl Stack {
    pub(crate) fn new() -> Stack
        ensures { result ≡ [] }
    {
        Stack {
            words: [0; MOST],
            depth: 0,
        }
    }

    // Whether there is room for one word more.
    pub(crate) fn room(&self) -> Result<(), Cause>
        ensures words { Room self.now result }
        ensures space { OnOk result (length self.now < MOST) }
    {
        if self.depth >= MOST {
            return Err(Cause::StackFull);
        }
        Ok(())
    }

    pub(crate) fn push(&mut self, v: i32)
        requires room { length self.old < MOST }
        ensures { self.new ≡ v ∷ self.old }
    {
        self.words[self.depth] = v;
        self.depth += 1;
    }

    pub(crate) fn pop(&mut self) -> Result<i32, Cause>
        ensures { Popped self.old result self.new }
    {
        if self.depth == 0 {
            return Err(Cause::TooFewWords);
        }
        self.depth -= 1;
        Ok(self.words[self.depth])
    }

    // The two upper words, widened; the upper one is the right operand.
    pub(crate) fn operands(&self) -> Result<(i64, i64), Cause>
        ensures words { Operands self.now result }
        ensures deep { OnOk result (2 ≤ length self.now) }
    {
        if self.depth < 2 {
            return Err(Cause::TooFewWords);
        }
        let left = self.words[self.depth - 2];
        let right = self.words[self.depth - 1];
        Ok((i64::from(left), i64::from(right)))
    }

    // Puts a word in the place of the two upper ones.
    pub(crate) fn replace(&mut self, v: i32)
        requires two { 2 ≤ length self.old }
        ensures { self.new ≡ v ∷ drop 2 self.old }
    {
        self.words[self.depth - 2] = v;
        self.depth -= 1;
    }

    // The word at a place; the top has place 0.
    pub(crate) fn word(&self, place: usize) -> Option<i32>
        ensures { result ≡ nth self.now place }
    {
        let below = self.depth.checked_sub(place)?;
        self.words[..below].last().copied()
    }
}
