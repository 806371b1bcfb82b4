// Why a text is no tape.
ghost use Rattle.std.specs.Prelude.{◌≡◌};
ghost use Rattle.texts.specs.Refusals.{number_of, place_of};

use refusal::Refused;

#[derive(Clone, Copy, PartialEq, Eq, Debug)]
pub enum Refusal {
    // the first line, from 1, that is no number's
    NotALine(usize),
}

impl From<Refusal> for Refused {
    ghost from_gives = { λ e r. (r.number ≡ number_of e) × (r.place ≡ place_of e) };

    fn from(e: Refusal) -> Refused {
        match e {
            Refusal::NotALine(line) => Refused {
                number: 14,
                place: line,
            },
        }
    }
}
