// A kind of figures: plain numbers that stand for values of a set, and what rules calculate with them.

ghost use Rattle.std.specs.Prelude.{◌≡◌, ℕ, ◌≤◌};
ghost use Rattle.figures.specs.Faults.{outcome};
ghost use Rattle.figures.specs.Kinds.{Counts, Kind, Tells, value};
ghost use Rattle.figures.specs.Range.{Within};

use crate::fault::Fault;

pub trait Figures: Copy {
    // the set of values, the functions on them, and the value that a figure's numbers stand for, whatever they hold
    ghost Value: { Type 0 };

    ghost kind: { Kind Value };

    ghost means: { Self → Value };

    fn of(n: u32) -> Result<Self, Fault>
        ensures { outcome means result ≡ kind.of n };

    fn add(self, other: Self) -> Result<Self, Fault>
        ensures { outcome means result ≡ kind.add (means self) (means other) };

    fn subtract(self, other: Self) -> Result<Self, Fault>
        ensures { outcome means result ≡ kind.subtract (means self) (means other) };

    fn multiply(self, other: Self) -> Result<Self, Fault>
        ensures { outcome means result ≡ kind.multiply (means self) (means other) };

    fn divide(self, other: Self) -> Result<Self, Fault>
        ensures { outcome means result ≡ kind.divide (means self) (means other) };

    fn negate(self) -> Self
        ensures { means result ≡ kind.negate (means self) };

    fn round(self) -> Self
        ensures { means result ≡ kind.round (means self) };

    // The nearest whole number, which lies within ±2,000,000,000.
    fn nearest(self) -> i32
        ensures value { result ≡ kind.nearest (means self) }
        ensures bound { Within result };

    fn less(self, other: Self) -> bool
        ensures { result ≡ kind.less (means self) (means other) };

    fn same(self, other: Self) -> bool
        ensures { result ≡ kind.same (means self) (means other) };

    ghost counts: { (n : ℕ) → n ≤ 2048 → Counts kind n };

    ghost tells: { Tells kind };
}

// The figure of 0, which every kind has.
pub fn zero<F: Figures>() -> F
    ensures { F.Figures.kind.of 0 ≡ value (F.Figures.means result) }
{
    F::of(0).unwrap()
}
