// Input tapes.
ghost use Rattle.std.specs.Prelude.{List, ℤ};
ghost use Rattle.tapes.specs.Waiting.{Taken};

pub trait InputTape {
    // the numbers still to be taken, the next one first
    ghost waiting: { Self → List ℤ };

    // The next number, or none where none waits.
    fn take(&mut self) -> Option<i32>
        ensures { Taken (waiting self.old) result (waiting self.new) };
}
