// One step of a run.
ghost use Rattle.std.specs.Prelude.{◌≡◌, ◌-◌, ◌^◌, ◌<◌, ◌≤◌, true, length, is_ok};
ghost use Rattle.code.specs.Machine.{fetch};
ghost use Rattle.image.specs.Bounds.{all_inside};
ghost use Rattle.machine.specs.View.{unit};
ghost use Rattle.machine.specs.Steps.{status_of, Went, Closed, Stepped};

use crate::fault::{Cause, Fault};
use crate::run::{Core, Memory};
use crate::status::Status;
use code::Instruction;
use tapes::input::InputTape;
use tapes::output::OutputTape;
use units::arithmetic::Arithmetic;

// The instruction at an address from 1, if any.
fn instruction_at(code: &[Instruction], address: usize) -> Option<Instruction>
    requires { 1 ≤ address }
    ensures { result ≡ fetch code.now address }
{
    code.get(address - 1).copied()
}

impl Core {
    // The first that fits: faulted, ended, at the limit, running.
    pub(crate) fn status(&self, len: usize, limit: u64) -> Status
        ensures { result ≡ status_of self.now.fault len self.now.counter self.now.steps limit }
    {
        if self.fault.is_some() {
            Status::Faulted
        } else if self.counter - 1 >= len {
            Status::Ended
        } else if self.steps >= limit {
            Status::AtLid
        } else {
            Status::Running
        }
    }

    // On to the next address, if an instruction was done.
    pub(crate) fn go_on(&mut self, done: Result<(), Cause>) -> Result<(), Cause>
        requires placed { self.old.counter ≤ 4096 }
        ensures went { Went done self.old self.new }
        ensures same { result ≡ done }
    {
        if done.is_ok() {
            self.counter += 1;
        }
        done
    }

    // Counts a step, or keeps the fault; whether it was a step.
    fn close(&mut self, done: Result<(), Cause>) -> bool
        requires room { self.old.steps < 2 ^ 64 - 1 }
        ensures closed { Closed done self.old self.new }
        ensures value { result ≡ is_ok done }
    {
        match done {
            Ok(()) => {
                self.steps += 1;
                true
            }
            Err(cause) => {
                self.fault = Some(Fault {
                    cause,
                    address: self.counter,
                });
                false
            }
        }
    }

    // One step, if the run is running; whether one was made. It takes the instructions of the image, and not the image: with
    // that it took 24 and not 22 instructions of the processor.
    pub(crate) fn step<U: Arithmetic, I: InputTape, O: OutputTape>(
        &mut self,
        code: &[Instruction],
        limit: u64,
        memory: &mut Memory<U, I, O>,
    ) -> bool
        requires few { length code.now ≤ 4096 }
        requires sound { all_inside (length code.now) code.now ≡ true }
        ensures { Stepped (unit U.Arithmetic) I.waiting O.means code.now limit self.old memory.old result self.new memory.new }
    {
        let Some(instruction) = instruction_at(code, self.counter) else {
            return false;
        };
        if self.status(code.len(), limit) != Status::Running {
            return false;
        }
        let done = memory.execute(self, instruction);
        self.close(done)
    }
}
