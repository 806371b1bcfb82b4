// What each instruction does.
ghost use Rattle.std.specs.Prelude.{◌≡◌, ◌≤◌, ℕ, ℤ, true, Result};
ghost use Rattle.code.specs.declared.Instruction.TheVariants.{Literal, Read, Write, Load, Store};
ghost use Rattle.image.specs.Bounds.{inside};
ghost use Rattle.machine.specs.declared.fault.Cause.{Cause};
ghost use Rattle.machine.specs.View.{unit, world_of, Word, Acted, Worked, Did};
ghost use Rattle.machine.specs.Closures.{Computes, Decides, operation, comparing};

use crate::cell::Cell;
use crate::division::{floor_quotient, floor_remainder};
use crate::fault::Cause;
use crate::run::{Core, Memory};
use code::Instruction;
use tapes::input::InputTape;
use tapes::output::OutputTape;
use units::arithmetic::Arithmetic;

impl<U: Arithmetic, I: InputTape, O: OutputTape> Memory<U, I, O> {
    // One instruction. The counter moves in each arm: moved once, after the match, 20 million steps took 0.050 and not
    // 0.038 seconds.
    pub(crate) fn execute(&mut self, core: &mut Core, instruction: Instruction) -> Result<(), Cause>
        requires sound { (len : ℕ) × (inside len instruction ≡ true) }
        requires placed { core.old.counter ≤ 4096 }
        ensures { Acted (unit U.Arithmetic) I.waiting O.means instruction core.old self.old result core.new self.new }
    {
        match instruction {
            Instruction::Literal(z) => core.go_on(self.literal(z)),
            Instruction::Read(number) => core.go_on(self.read(Cell { number })),
            Instruction::Write(number) => core.go_on(self.write(Cell { number })),
            Instruction::Load(number) => core.go_on(self.load(Cell { number })),
            Instruction::Store(number) => core.go_on(self.store(Cell { number })),
            Instruction::Jump(target) => {
                core.counter = usize::from(target);
                Ok(())
            }
            Instruction::JumpIfZero(target) => {
                core.counter = if self.stack.pop()? == 0 {
                    usize::from(target)
                } else {
                    core.counter + 1
                };
                Ok(())
            }
            Instruction::Add => core.go_on(self.operate(|x, y| Ok(x + y))),
            Instruction::Subtract => core.go_on(self.operate(|x, y| Ok(x - y))),
            Instruction::Multiply => core.go_on(self.operate(|x, y| Ok(x * y))),
            Instruction::Divide => core.go_on(self.operate(floor_quotient)),
            Instruction::Modulo => core.go_on(self.operate(floor_remainder)),
            Instruction::Less => core.go_on(self.compare(|x, y| x < y)),
            Instruction::Equal => core.go_on(self.compare(|x, y| x == y)),
            Instruction::Unequal => core.go_on(self.compare(|x, y| x != y)),
            Instruction::Greater => core.go_on(self.compare(|x, y| x > y)),
            Instruction::AtMost => core.go_on(self.compare(|x, y| x <= y)),
            Instruction::AtLeast => core.go_on(self.compare(|x, y| x >= y)),
        }
    }

    fn literal(&mut self, z: i32) -> Result<(), Cause>
        ensures { (address : ℕ) → Worked (unit U.Arithmetic) I.waiting O.means (Literal z) address self.old result self.new }
    {
        self.stack.room()?;
        let v = self.unit.narrow(i64::from(z)).ok_or(Cause::OutOfRange)?;
        self.stack.push(v);
        Ok(())
    }

    fn load(&mut self, cell: Cell) -> Result<(), Cause>
        ensures { (address : ℕ) → Worked (unit U.Arithmetic) I.waiting O.means (Load cell.number) address self.old result self.new }
    {
        self.stack.room()?;
        let v = self.cells[cell.index()].ok_or(Cause::Unset)?;
        self.stack.push(v);
        Ok(())
    }

    fn store(&mut self, cell: Cell) -> Result<(), Cause>
        ensures { (address : ℕ) → Worked (unit U.Arithmetic) I.waiting O.means (Store cell.number) address self.old result self.new }
    {
        let v = self.stack.pop()?;
        self.cells[cell.index()] = Some(v);
        Ok(())
    }

    fn read(&mut self, cell: Cell) -> Result<(), Cause>
        ensures { (address : ℕ) → Worked (unit U.Arithmetic) I.waiting O.means (Read cell.number) address self.old result self.new }
    {
        let x = self.input.take().ok_or(Cause::NoInput)?;
        let v = self.unit.narrow(i64::from(x)).ok_or(Cause::OutOfRange)?;
        self.cells[cell.index()] = Some(v);
        Ok(())
    }

    fn write(&mut self, cell: Cell) -> Result<(), Cause>
        ensures { (address : ℕ) → Worked (unit U.Arithmetic) I.waiting O.means (Write cell.number) address self.old result self.new }
    {
        let v = self.cells[cell.index()].ok_or(Cause::Unset)?;
        self.output.put(v)?;
        Ok(())
    }

    // An operation on two words, whose exact result is brought into the unit's range. A division may have none.
    fn operate<F: FnOnce(i64, i64) -> Result<i64, Cause>>(&mut self, f: F) -> Result<(), Cause>
        requires callable { (x y : ℤ) → Word x → Word y → F.pre f x y }
        ensures { (address : ℕ) (g : ℤ → ℤ → Result ℤ Cause) → Computes (F.post f) g → Did I.waiting O.means (operation address self.old.stack (world_of I.waiting O.means self.old) U.narrowed g) address self.old result self.new }
    {
        let (x, y) = self.stack.operands()?;
        let v = self.unit.narrow(f(x, y)?).ok_or(Cause::OutOfRange)?;
        self.stack.replace(v);
        Ok(())
    }

    // A comparison of two words, which leaves 1 or 0.
    fn compare<F: FnOnce(i64, i64) -> bool>(&mut self, f: F) -> Result<(), Cause>
        requires callable { F.IsAlwaysCallable f }
        ensures { (address : ℕ) (g : ℤ → ℤ → ℤ) → Decides (F.post f) g → Did I.waiting O.means (comparing address self.old.stack (world_of I.waiting O.means self.old) g) address self.old result self.new }
    {
        let (x, y) = self.stack.operands()?;
        self.stack.replace(i32::from(f(x, y)));
        Ok(())
    }
}
