// What is wrong with a program's names, and at which place.
ghost use Rattle.std.specs.Prelude.{◌≡◌};
ghost use Rattle.names.specs.Declares.{number_of, place_of};

use refusal::Refused;

#[derive(Clone, Copy, PartialEq, Eq, Debug)]
pub enum Refusal {
    // the 65th declared name
    TooMany(u32),
    // the first declared name that was declared before
    Repeated(u32),
    // the first name in the statements that is not declared
    Undeclared(u32),
}

impl From<Refusal> for Refused {
    ghost from_gives = { λ e r. (r.number ≡ number_of e) × (r.place ≡ place_of e) };

    fn from(e: Refusal) -> Refused {
        let (number, place) = match e {
            Refusal::TooMany(place) => (6, place),
            Refusal::Repeated(place) => (7, place),
            Refusal::Undeclared(place) => (8, place),
        };
        Refused {
            number,
            place: place as usize,
        }
    }
}
