// Output tapes.
ghost use Rattle.std.specs.Prelude.{◌≡◌};
ghost use Rattle.tapes.specs.Meaning.{Meaning, reason_number, deeper, pinch_of, Put, settled, AtRest};
ghost use Rattle.tapes.specs.declared.output.Reason.TheVariants.{Full};

// Why there is no room.
#[derive(Clone, Copy, PartialEq, Eq, Debug)]
pub enum Reason {
    Full = 1,
    Quota = 2,
}

impl Reason {
    pub fn number(self) -> u8
        ensures { result ≡ reason_number self }
    {
        self as u8
    }
}

// What refuses a put: the reason, and how many layers down it stands.
#[derive(Clone, Copy, PartialEq, Eq, Debug)]
pub struct Pinch {
    pub depth: u32,
    pub reason: Reason,
}

// A tape's own reason.
impl From<Reason> for Pinch {
    ghost from_gives = { λ reason pinch. pinch ≡ pinch_of 0 reason };

    fn from(reason: Reason) -> Pinch {
        Pinch { depth: 0, reason }
    }
}

impl Pinch {
    // The pinch of a tape over fixed memory.
    pub fn full() -> Pinch
        ensures { result ≡ pinch_of 0 Full }
    {
        Reason::Full.into()
    }

    // The same, told by a layer above.
    pub fn deeper(self) -> Pinch
        ensures { result ≡ deeper self }
    {
        Pinch {
            depth: self.depth.saturating_add(1),
            ..self
        }
    }
}

pub trait OutputTape {
    ghost means: { Self → Meaning };

    ghost bounded: { (t : Self) → AtRest (means t) };

    // How many more puts will be accepted.
    fn room(&self) -> usize
        ensures { result ≡ (means self.now).room };

    // What a put would be refused with, were there no room.
    fn pinch(&self) -> Pinch
        ensures { result ≡ (means self.now).pinch };

    fn put(&mut self, x: i32) -> Result<(), Pinch>
        ensures { Put (means self.old) x result (means self.new) };

    // Brings to rest all that is written.
    fn settle(&mut self)
        ensures { means self.new ≡ settled (means self.old) };
}
