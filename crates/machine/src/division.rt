// Division of words, rounded down.
ghost use Rattle.std.specs.Prelude.{◌≡◌};
ghost use Rattle.code.specs.Division.{quotient, remainder};
ghost use Rattle.machine.specs.View.{Word};
ghost use Rattle.machine.specs.Closures.{divided};

use crate::fault::Cause;

// The greatest whole number not above the quotient.
pub(crate) fn floor_quotient(x: i64, y: i64) -> Result<i64, Cause>
    requires left { Word x }
    requires right { Word y }
    ensures { result ≡ divided quotient x y }
{
    if y == 0 {
        return Err(Cause::DivisionByZero);
    }
    if y > 0 {
        Ok(x.div_euclid(y))
    } else {
        Ok((-x).div_euclid(-y))
    }
}

// What is left of the dividend.
pub(crate) fn floor_remainder(x: i64, y: i64) -> Result<i64, Cause>
    requires left { Word x }
    requires right { Word y }
    ensures { result ≡ divided remainder x y }
{
    Ok(x - y * floor_quotient(x, y)?)
}
