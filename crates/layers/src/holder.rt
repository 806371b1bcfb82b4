// The holder: keeps up to 16 words, and passes them down on settling and before it keeps a 17th.
ghost use Rattle.std.specs.Prelude.{◌≡◌, ◌≤◌, []};
ghost use Rattle.arrayvec.specs.ArrayVec.{array_vec_len};
ghost use Rattle.layers.specs.Layers.{holder_means, held_bounded, Moved};

use crate::send::send;
use arrayvec::ArrayVec;
use tapes::output::{OutputTape, Pinch};

#[derive(Drop)]
pub struct Holder<O: OutputTape> {
    below: O,
    held: ArrayVec<i32, 16>,
    ghost fit: { array_vec_len held ≤ (O.OutputTape.means below).room },
}

impl<O: OutputTape> Holder<O> {
    // A holder that keeps nothing yet.
    pub fn new(below: O) -> Holder<O>
        ensures { (result.below ≡ below) × (result.held.items ≡ []) }
    {
        Holder {
            below,
            held: ArrayVec::new(),
        }
    }

    // The tape below, with all that was written passed down to it.
    pub fn into_below(mut self) -> O
        ensures { Moved (⟦<Holder<O> as OutputTape>⟧.means self) (holder_means [] (O.OutputTape.means result)) }
    {
        self.pass_down();
        let Holder { below, held: _ } = self;
        below
    }

    // Passes down the held words.
    fn pass_down(&mut self)
        ensures empty { self.new.held.items ≡ [] }
        ensures moved { Moved (⟦<Holder<O> as OutputTape>⟧.means self.old) (⟦<Holder<O> as OutputTape>⟧.means self.new) }
    {
        send(&mut self.below, &self.held);
        self.held.clear();
    }
}

impl<O: OutputTape> OutputTape for Holder<O> {
    ghost means = { λ t. holder_means t.held.items (O.OutputTape.means t.below) };

    ghost bounded = { λ t. held_bounded t.held.items (O.OutputTape.means t.below) (O.OutputTape.bounded t.below) };

    fn room(&self) -> usize {
        self.below.room() - self.held.len()
    }

    fn pinch(&self) -> Pinch {
        self.below.pinch().deeper()
    }

    fn put(&mut self, x: i32) -> Result<(), Pinch> {
        if self.room() == 0 {
            return Err(self.pinch());
        }
        if self.held.is_full() {
            self.pass_down();
        }
        self.held.push(x);
        Ok(())
    }

    fn settle(&mut self) {
        self.pass_down();
        self.below.settle();
    }
}

#[cfg(test)]
mod tests {
    use super::*;
    use std::alloc::Global;
    use std::process::Abort;
    use std::test::Fail;
    use tapes::words::WordOutput;

    // A holder after so many puts, over a word tape of 40 words.
    fn filled(rt: &impl Abort, heap: Global, puts: i32) -> Result<Holder<WordOutput>, Fail> {
        let mut holder = Holder::new(WordOutput::new(vec![in heap; 0i32; 40]?));
        for x in 0..puts {
            assert!(rt; holder.put(x).is_ok());
        }
        Ok(holder)
    }

    // What is passed down, what is held, and the room.
    fn stands(
        rt: &impl Abort,
        holder: &Holder<WordOutput>,
        passed: usize,
        held: usize,
        room: usize,
    ) {
        assert_eq!(rt; holder.below.written().len(), passed);
        assert_eq!(rt; holder.held.len(), held);
        assert_eq!(rt; holder.room(), room);
    }

    #[test]
    fn keeps_sixteen(rt: HostRuntime) -> Result<(), Fail> {
        stands(&rt, &filled(&rt, rt.alloc(), 16)?, 0, 16, 24);
        Ok(())
    }

    #[test]
    fn passes_sixteen_before_the_seventeenth(rt: HostRuntime) -> Result<(), Fail> {
        stands(&rt, &filled(&rt, rt.alloc(), 17)?, 16, 1, 23);
        Ok(())
    }

    #[test]
    fn settles_the_rest(rt: HostRuntime) -> Result<(), Fail> {
        let mut holder = filled(&rt, rt.alloc(), 33)?;
        stands(&rt, &holder, 32, 1, 7);
        holder.settle();
        stands(&rt, &holder, 33, 0, 7);
        Ok(())
    }
}
