// 32 bits; a number outside them gives the one inside that differs from it by a multiple of 2^32.
ghost use Rattle.units.specs.Narrowing.{minimum, maximum, wrapping, Wraps};
ghost use Rattle.units.specs.Laws.{least_is_negative, greatest_is_positive, wrapping_keeps, wrapping_inside};

use crate::arithmetic::Arithmetic;

#[derive(Clone, Copy)]
pub struct Wrapping;

impl Arithmetic for Wrapping {
    const LEAST: i32 = i32::MIN;

    const GREATEST: i32 = i32::MAX;

    ghost LEAST = { minimum 32 };

    ghost GREATEST = { maximum 32 };

    ghost narrowed = { wrapping };

    ghost low = { least_is_negative 32 };

    ghost high = { greatest_is_positive 32 tt };

    ghost keeps = { wrapping_keeps };

    ghost inside = { wrapping_inside };

    fn narrow(&self, x: i64) -> Option<i32> {
        Some((x.rem_euclid(0x1_0000_0000) as u32).cast_signed())
    }
}

// Wrapping alters a number by a multiple of 2^32 only.
pub fn wraps_by_multiples()
    ensures { Wraps }
{}
