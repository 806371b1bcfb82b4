// What can be seen of a run between advances.
ghost use Rattle.std.specs.Prelude.{◌≡◌};
ghost use Rattle.code.specs.Machine.{nth};
ghost use Rattle.machine.specs.Numbers.{fault_of};
ghost use Rattle.machine.specs.Runs.{state_of};

use crate::fault::Fault;
use crate::run::Run;
use tapes::input::InputTape;
use tapes::output::OutputTape;
use units::arithmetic::Arithmetic;

impl<'a, U: Arithmetic, I: InputTape, O: OutputTape> Run<'a, U, I, O> {
    // The address of the next instruction, from 1.
    pub fn counter(&self) -> usize
        ensures { result ≡ (state_of I.waiting O.means self.now).counter }
    {
        self.core.counter
    }

    // The steps made so far.
    pub fn steps(&self) -> u64
        ensures { result ≡ (state_of I.waiting O.means self.now).steps }
    {
        self.core.steps
    }

    pub fn fault(&self) -> Option<Fault>
        ensures { fault_of result ≡ (state_of I.waiting O.means self.now).fault }
    {
        self.core.fault
    }

    // The word at a place of the stack; the top has place 0.
    pub fn word(&self, place: usize) -> Option<i32>
        ensures { result ≡ nth (state_of I.waiting O.means self.now).stack place }
    {
        self.memory.stack.word(place)
    }

    // The cells, from cell 1 on.
    pub fn cells(&self) -> &[Option<i32>]
        ensures { result.now ≡ (state_of I.waiting O.means self.now).world.cells }
    {
        &self.memory.cells
    }

    pub fn output(&self) -> &O
        ensures { result.now ≡ self.now.memory.output }
    {
        &self.memory.output
    }
}
