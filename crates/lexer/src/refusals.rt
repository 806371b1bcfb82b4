// Why a source has no tokens to give.
ghost use Rattle.std.specs.Prelude.{◌≡◌};
ghost use Rattle.lexer.specs.declared.refusals.Refusal.TheVariants.{NoMemory};
ghost use Rattle.lexer.specs.Lex.{number_of, place_of};

use refusal::Refused;
use std::alloc::AllocFailed;

#[derive(Clone, Copy, PartialEq, Eq, Debug)]
pub enum Refusal {
    // over 16,384 bytes
    TooLong,
    // no token starts at this place
    NoToken(u32),
    // the token at this place is a name over 16 bytes or a number over 1,073,741,823
    TooLarge(u32),
    NoMemory,
}

impl From<Refusal> for Refused {
    ghost from_gives = { λ e r. (r.number ≡ number_of e) × (r.place ≡ place_of e) };

    fn from(e: Refusal) -> Refused {
        let (number, place) = match e {
            Refusal::TooLong => (1, 16_384),
            Refusal::NoToken(place) => (2, place),
            Refusal::TooLarge(place) => (3, place),
            Refusal::NoMemory => (40, 0),
        };
        Refused {
            number,
            place: place as usize,
        }
    }
}

// By hand: `tokens` promises which error its `?` makes.
impl<T: Drop> From<AllocFailed<T>> for Refusal {
    ghost from_gives = { λ _ y. y ≡ NoMemory };

    fn from(_refused: AllocFailed<T>) -> Refusal {
        Refusal::NoMemory
    }
}
