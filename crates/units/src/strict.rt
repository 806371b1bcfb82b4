// 32 bits; a number outside them gives nothing.
ghost use Rattle.units.specs.Narrowing.{minimum, maximum, strict};
ghost use Rattle.units.specs.Laws.{least_is_negative, greatest_is_positive, strict_keeps, strict_inside};

use crate::arithmetic::Arithmetic;

#[derive(Clone, Copy)]
pub struct Strict;

impl Arithmetic for Strict {
    const LEAST: i32 = i32::MIN;

    const GREATEST: i32 = i32::MAX;

    ghost LEAST = { minimum 32 };

    ghost GREATEST = { maximum 32 };

    ghost narrowed = { strict (minimum 32) (maximum 32) };

    ghost low = { least_is_negative 32 };

    ghost high = { greatest_is_positive 32 tt };

    ghost keeps = { strict_keeps (minimum 32) (maximum 32) };

    ghost inside = { strict_inside (minimum 32) (maximum 32) };

    fn narrow(&self, x: i64) -> Option<i32> {
        i32::try_from(x).ok()
    }
}
