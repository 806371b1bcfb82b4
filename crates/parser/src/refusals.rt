// Why tokens make no program.
ghost use Rattle.std.specs.Prelude.{◌≡◌};
ghost use Rattle.parser.specs.declared.refusals.Refusal.TheVariants.{NoMemory};

use std::alloc::AllocFailed;

#[derive(Clone, Copy, PartialEq, Eq, Debug)]
pub enum Refusal {
    // the tokens end too soon
    TooSoon,
    // the token at this place breaks the grammar
    Grammar(u32),
    // the token at this place goes deeper than its depth allows
    Depth(u32),
    // there is no memory for the tree
    NoMemory,
}

// By hand: the readers promise which error their `?` makes.
impl<T: Drop> From<AllocFailed<T>> for Refusal {
    ghost from_gives = { λ _ refusal. refusal ≡ NoMemory };

    fn from(_refused: AllocFailed<T>) -> Refusal {
        Refusal::NoMemory
    }
}
