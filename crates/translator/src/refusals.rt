// Why a source has no code to give.
ghost use Rattle.std.specs.Prelude.{◌≡◌};
ghost use Rattle.translator.specs.declared.refusals.Refusal.TheVariants.{Naming, NoMemory};
ghost use Rattle.translator.specs.Refusals.{number_of, place_of};

use crate::failure::Failure;
use refusal::Refused;
use std::alloc::AllocError;

#[derive(Clone, Copy, PartialEq, Eq, Debug)]
pub enum Refusal {
    Naming(names::refusals::Refusal),
    // over 4,096 instructions; the place of the first one too many
    TooMuchCode(u32),
    // a buffer is shorter than the code
    SmallBuffer,
    NoMemory,
}

impl From<Refusal> for Refused {
    ghost from_gives = { λ e r. (r.number ≡ number_of e) × (r.place ≡ place_of e) };

    fn from(e: Refusal) -> Refused {
        let (number, place) = match e {
            Refusal::Naming(refusal) => return refusal.into(),
            Refusal::TooMuchCode(place) => (9, place),
            Refusal::SmallBuffer => (10, 0),
            Refusal::NoMemory => (40, 0),
        };
        Refused {
            number,
            place: place as usize,
        }
    }
}

// By hand: `store` and `translate_program` promise which error their `?` makes.
impl From<AllocError> for Refusal {
    ghost from_gives = { λ _ y. y ≡ NoMemory };

    fn from(_refused: AllocError) -> Refusal {
        Refusal::NoMemory
    }
}

impl From<names::refusals::Refusal> for Refusal {
    ghost from_gives = { λ x y. y ≡ Naming x };

    fn from(refusal: names::refusals::Refusal) -> Refusal {
        Refusal::Naming(refusal)
    }
}

// A wide operand has no number of its own.
impl From<Failure> for Refusal {
    ghost from_gives = { λ _ y. y ≡ NoMemory };

    fn from(_failure: Failure) -> Refusal {
        Refusal::NoMemory
    }
}
