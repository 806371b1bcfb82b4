// Why a run stops for good.
ghost use Rattle.std.specs.Prelude.{◌≡◌};
ghost use Rattle.machine.specs.Numbers.{cause_of};
ghost use Rattle.machine.specs.declared.fault.Cause.TheVariants.{NoRoom};

use tapes::output::Pinch;

#[derive(Clone, Copy, PartialEq, Eq, Debug)]
pub enum Cause {
    NoInput,
    // with what the output tape refused
    NoRoom(Pinch),
    Unset,
    OutOfRange,
    DivisionByZero,
    TooFewWords,
    StackFull,
}

impl Cause {
    pub fn number(self) -> u8
        ensures { result ≡ (cause_of self).cause }
    {
        match self {
            Cause::NoInput => 20,
            Cause::NoRoom(_) => 21,
            Cause::Unset => 22,
            Cause::OutOfRange => 23,
            Cause::DivisionByZero => 24,
            Cause::TooFewWords => 25,
            Cause::StackFull => 26,
        }
    }
}

impl From<Pinch> for Cause {
    ghost from_gives = { λ p c. c ≡ NoRoom p };

    fn from(pinch: Pinch) -> Cause {
        Cause::NoRoom(pinch)
    }
}

// The instruction at the address, from 1, could not be done.
#[derive(Clone, Copy, PartialEq, Eq, Debug)]
pub struct Fault {
    pub cause: Cause,
    pub address: usize,
}
