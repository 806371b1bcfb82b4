// Why the emitters gave no code.
ghost use Rattle.std.specs.Prelude.{◌≡◌};
ghost use Rattle.translator.specs.declared.failure.Failure.TheVariants.{NoMemory, WideOperand};

use std::alloc::AllocFailed;
use std::num::TryFromIntError;

#[derive(Clone, Copy, PartialEq, Eq, Debug)]
pub enum Failure {
    NoMemory,
    // an instruction has no room for its operand, which no accepted source gives rise to
    WideOperand,
}

// By hand: a derived one is for a single `T`, in a variant that keeps the value.
impl<T: Drop> From<AllocFailed<T>> for Failure {
    ghost from_gives = { λ _ y. y ≡ NoMemory };

    fn from(_refused: AllocFailed<T>) -> Failure {
        Failure::NoMemory
    }
}

impl From<TryFromIntError> for Failure {
    ghost from_gives = { λ _ y. y ≡ WideOperand };

    fn from(_wide: TryFromIntError) -> Failure {
        Failure::WideOperand
    }
}
