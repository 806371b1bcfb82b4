// What every unit keeps to.
ghost use Rattle.std.specs.Prelude.{◌≡◌, ℤ, pos, negsuc, ◌≤ℤ◌, Some, Option};
ghost use Rattle.units.specs.Narrowing.{Within};

pub trait Arithmetic {
    ghost LEAST: { ℤ };

    ghost GREATEST: { ℤ };

    ghost narrowed: { ℤ → Option ℤ };

    const LEAST: i32;

    const GREATEST: i32;

    // The number of the range that stands for x, or none.
    fn narrow(&self, x: i64) -> Option<i32>
        ensures { result ≡ narrowed x };

    final fn lowest() -> i32
        ensures { result ≡ LEAST }
    {
        Self::LEAST
    }

    final fn highest() -> i32
        ensures { result ≡ GREATEST }
    {
        Self::GREATEST
    }

    ghost low: { LEAST ≤ℤ negsuc 0 };

    ghost high: { pos 1 ≤ℤ GREATEST };

    ghost keeps: { (x : ℤ) → LEAST ≤ℤ x → x ≤ℤ GREATEST → narrowed x ≡ Some x };

    ghost inside: { (x : ℤ) → Within LEAST GREATEST (narrowed x) };
}
