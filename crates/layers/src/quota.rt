// The quota: no more than an allotment of puts.
ghost use Rattle.std.specs.Prelude.{◌≡◌};
ghost use Rattle.layers.specs.Layers.{quota_means};

use tapes::output::{OutputTape, Pinch, Reason};

#[derive(Drop)]
pub struct Quota<O: OutputTape> {
    below: O,
    left: usize,
}

impl<O: OutputTape> Quota<O> {
    pub fn new(below: O, allotment: usize) -> Quota<O>
        ensures { (result.below ≡ below) × (result.left ≡ allotment) }
    {
        Quota {
            below,
            left: allotment,
        }
    }

    pub fn into_below(self) -> O
        ensures { result ≡ self.below }
    {
        let Quota { below, left: _ } = self;
        below
    }
}

impl<O: OutputTape> OutputTape for Quota<O> {
    ghost means = { λ t. quota_means t.left (O.OutputTape.means t.below) };

    ghost bounded = { λ t. O.OutputTape.bounded t.below };

    fn room(&self) -> usize {
        self.left.min(self.below.room())
    }

    fn pinch(&self) -> Pinch {
        if self.left <= self.below.room() {
            Reason::Quota.into()
        } else {
            self.below.pinch().deeper()
        }
    }

    fn put(&mut self, x: i32) -> Result<(), Pinch> {
        if self.left == 0 {
            return Err(self.pinch());
        }
        self.below.put(x).map_err(Pinch::deeper)?;
        self.left -= 1;
        Ok(())
    }

    fn settle(&mut self) {
        self.below.settle();
    }
}

#[cfg(test)]
mod tests {
    use super::*;
    use crate::holder::Holder;
    use std::alloc::Global;
    use std::process::Abort;
    use std::test::Fail;
    use tapes::words::WordOutput;

    // Puts until one is refused, within ten, over a word tape of three words; how many were accepted, and the refusal.
    fn filled(rt: &impl Abort, heap: Global, allotment: usize) -> Result<(u32, Pinch), Fail> {
        let mut pile = Quota::new(
            Holder::new(WordOutput::new(vec![in heap; 0i32; 3]?)),
            allotment,
        );
        for accepted in 0..10u32 {
            let pinch = pile.pinch();
            if let Err(refusal) = pile.put(7) {
                assert_eq!(rt; pile.room(), 0);
                assert_eq!(rt; refusal, pinch);
                return Ok((accepted, refusal));
            }
        }
        Err(Fail::new("no put was refused"))
    }

    // Full two layers down; the quota where both are met; the quota with room below.
    #[test]
    fn the_nearest_reason_is_told(rt: HostRuntime) -> Result<(), Fail> {
        let cases = [
            (5, 3, 2, Reason::Full),
            (3, 3, 0, Reason::Quota),
            (2, 2, 0, Reason::Quota),
        ];
        for (allotment, accepted, depth, reason) in cases {
            let refusal = Pinch { depth, reason };
            assert_eq!(rt; filled(&rt, rt.alloc(), allotment)?, (accepted, refusal));
        }
        Ok(())
    }
}
