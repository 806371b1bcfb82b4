// 16 bits; a number outside them gives the nearer end.
ghost use Rattle.units.specs.Narrowing.{minimum, maximum, clamped};
ghost use Rattle.units.specs.Laws.{least_is_negative, greatest_is_positive, ordered, clamped_keeps, clamped_inside};

use crate::arithmetic::Arithmetic;

#[derive(Clone, Copy)]
pub struct Clamped;

impl Arithmetic for Clamped {
    const LEAST: i32 = -0x8000;

    const GREATEST: i32 = 0x7FFF;

    ghost LEAST = { minimum 16 };

    ghost GREATEST = { maximum 16 };

    ghost narrowed = { clamped (minimum 16) (maximum 16) };

    ghost low = { least_is_negative 16 };

    ghost high = { greatest_is_positive 16 tt };

    ghost keeps = { clamped_keeps (minimum 16) (maximum 16) };

    ghost inside = { λ x. clamped_inside (minimum 16) (maximum 16) x (ordered 16) };

    fn narrow(&self, x: i64) -> Option<i32> {
        Some(x.clamp(i64::from(Self::LEAST), i64::from(Self::GREATEST)) as i32)
    }
}
