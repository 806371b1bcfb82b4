// Why words are no image.
ghost use Rattle.std.specs.Prelude.{◌≡◌};
ghost use Rattle.image.specs.Refusals.{number_of, place_of};
ghost use Rattle.image.specs.declared.refusals.Refusal.TheVariants.{NoMemory};

use crate::admission::MAX_WORDS;
use refusal::Refused;
use std::alloc::AllocError;

// Addresses count from 1.
#[derive(Clone, Copy, PartialEq, Eq, Debug)]
pub enum Refusal {
    TooLong,
    NotInstruction(usize),
    OutOfBounds(usize),
    NoMemory,
}

// By hand: `admit` promises which error its `?` makes.
impl From<AllocError> for Refusal {
    ghost from_gives = { λ _ e. e ≡ NoMemory };

    fn from(_e: AllocError) -> Refusal {
        Refusal::NoMemory
    }
}

impl From<Refusal> for Refused {
    ghost from_gives = { λ e r. (r.number ≡ number_of e) × (r.place ≡ place_of e) };

    fn from(e: Refusal) -> Refused {
        let (number, place) = match e {
            Refusal::TooLong => (11, MAX_WORDS + 1),
            Refusal::NotInstruction(address) => (12, address),
            Refusal::OutOfBounds(address) => (13, address),
            Refusal::NoMemory => (40, 0),
        };
        Refused { number, place }
    }
}
