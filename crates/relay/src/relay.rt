// Takes numbers from one tape, and puts them through a unit to another.
ghost use Rattle.std.specs.Prelude.{◌≡◌, [], ◌++◌, length, OnOk};
ghost use Rattle.relay.specs.Relaying.{puts, Delivered};

use std::{fmt, io};
use tapes::input::InputTape;
use tapes::output::{OutputTape, Pinch};
use units::arithmetic::Arithmetic;

// Why a number that was taken is not put.
#[derive(Clone, Copy, PartialEq, Eq, Debug)]
pub enum Undelivered {
    OutOfRange,
    NoRoom(i32, Pinch),
}

impl fmt::Display for Undelivered {
    fn fmt<W: fmt::Write>(&self, f: &mut fmt::Formatter<W>) -> fmt::Result {
        match self {
            Undelivered::OutOfRange => write!(f, "out of range"),
            Undelivered::NoRoom(x, pinch) => {
                let depth = pinch.depth;
                let reason = pinch.reason.number();
                write!(f, "no room for {x}: depth {depth}, reason {reason}")
            }
        }
    }
}

// What the unit makes of a number is put.
fn deliver<U: Arithmetic, O: OutputTape>(
    unit: &U,
    output: &mut O,
    x: i32,
) -> Result<i32, Undelivered>
    ensures { Delivered U.narrowed (O.means output.old) x result (O.means output.new) }
{
    let v = unit.narrow(i64::from(x)).ok_or(Undelivered::OutOfRange)?;
    output
        .put(v)
        .map_err(|pinch| Undelivered::NoRoom(v, pinch))?;
    Ok(v)
}

// Takes every number; each that the unit narrows and for which there is room is put; then all is settled.
pub fn relay<R: Print, U: Arithmetic, I: InputTape, O: OutputTape>(
    rt: &R,
    unit: &U,
    input: &mut I,
    output: &mut O,
) -> io::Result<()>
    ensures taken { OnOk result (I.waiting input.new ≡ []) }
    ensures put { OnOk result ((O.means output.new).written ≡ (O.means output.old).written ++ puts U.narrowed (I.waiting input.old) (O.means output.old).room) }
    ensures settled { OnOk result ((O.means output.new).rest ≡ length (O.means output.new).written) }
{
    while let Some(x) = input.take() {
        println!(rt; "took {x}")?;
        match deliver(unit, output, x) {
            Ok(v) => println!(rt; "put {v}")?,
            Err(undelivered) => println!(rt; "{undelivered}")?,
        }
    }
    output.settle();
    Ok(())
}
