// A refusal as a person reads it: its number, and the place it names.
#![tactic(auto)]

ghost use Rattle.std.specs.Prelude.{◌++◌, Some};
ghost use Rattle.refusal.specs.Sentence.{sentence};

use std::fmt;

// Each layer has an enum of its own for what it refuses, and turns it into this one.
#[derive(Clone, Copy, PartialEq, Eq, Debug)]
pub struct Refused {
    pub number: u8,
    pub place: usize,
}

impl fmt::Display for Refused {
    ghost output = { λ x. Some (sentence x.number x.place) };

    fn fmt<W: fmt::Write>(&self, f: &mut fmt::Formatter<W>) -> fmt::Result {
        write!(f, "refused {} at {}", self.number, self.place)
    }
}

#[cfg(test)]
mod tests {
    use super::*;
    use std::test::Fail;

    #[test]
    fn reads_as_a_sentence(rt: HostRuntime) -> Result<(), Fail> {
        let refused = Refused {
            number: 14,
            place: 3,
        };
        assert_eq!(rt;
            format!(in rt.alloc(); "{refused}")?.as_str(),
            "refused 14 at 3"
        );
        Ok(())
    }
}
