// The end of a run.
ghost use Rattle.std.specs.Prelude.{◌≡◌, ℕ, List};
ghost use Rattle.code.specs.Machine.{finish};
ghost use Rattle.tapes.specs.Meaning.{settled};
ghost use Rattle.machine.specs.Runs.{code_of, state_of};
ghost use Rattle.machine.specs.Finishing.{report_of};

use crate::fault::Fault;
use crate::finished::Finished;
use crate::run::{Memory, Run};
use tapes::input::InputTape;
use tapes::output::OutputTape;
use units::arithmetic::Arithmetic;

impl<'a, U: Arithmetic, I: InputTape, O: OutputTape> Run<'a, U, I, O> {
    // Settles the output tape, and gives back all that the run had and how it stands. A fault's address becomes a place by
    // any place list.
    pub fn finish(self) -> Finished<U, I, O>
        ensures report { (places : List ℕ) → report_of I.waiting O.means places result ≡ finish self.entry.lid (code_of self.entry) places (state_of I.waiting O.means self.entry) }
        ensures settled { O.means result.output ≡ settled (O.means self.entry.memory.output) }
        ensures unit { result.unit ≡ self.entry.memory.unit }
        ensures input { result.input ≡ self.entry.memory.input }
    {
        let Run {
            image,
            lid,
            core,
            memory,
        } = self;
        let status = core.status(image.instructions().len(), lid);
        let Memory {
            unit,
            input,
            mut output,
            cells,
            stack: _,
        } = memory;
        output.settle();
        Finished {
            unit,
            input,
            output,
            cells,
            steps: core.steps,
            status,
            fault: core.fault,
        }
    }
}
