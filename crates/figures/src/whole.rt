// Whole figures.

ghost use Rattle.std.specs.Prelude.{◌≡◌, ℤ, pos, Some, refl};
ghost use Rattle.figures.specs.Faults.{outcome};
ghost use Rattle.figures.specs.Range.{Within, in_range};
ghost use Rattle.figures.specs.Whole.{whole, whole_value};
ghost use Rattle.figures.specs.Text.{Reads, WritesWhole};
ghost use Rattle.std.specs.Fmt.{signed_decimal};
ghost use Rattle.std.proofs.Common.{rules};

use crate::fault::Fault;
use crate::kind::Figures;
use crate::range;
use crate::word::NoFigure;
use std::fmt;
use std::str::FromStr;

// A whole number; one beyond ±2,000,000,000 is read as that end of the range. A type of its own beside hundredths: with
// the scale as a parameter, whole figures would be multiplied, divided and rounded through a scale of 1, and printed
// and read by a case apart.
#[derive(Clone, Copy, Debug)]
pub struct Whole {
    pub units: i32,
}

impl Whole {
    // The number that it is read as.
    fn value(self) -> i64
        ensures value { result ≡ whole_value self }
        ensures bound { Within result }
    {
        range::read(self.units)
    }
}

// The figure of a number that lies within the range, or 31.
impl TryFrom<i64> for Whole {
    type Error = Fault;

    ghost try_from_gives = { λ res answer. outcome whole_value answer ≡ in_range res };

    fn try_from(res: i64) -> Result<Whole, Fault> {
        let units = range::fit(res)?;
        Ok(Whole { units })
    }
}

impl Figures for Whole {
    ghost Value = { ℤ };

    ghost kind = { whole };

    ghost means = { whole_value };

    ghost counts = { λ n small. record { figure = pos n; given = Prim.search rules; nearest_is = refl } };

    ghost tells = { record {
      zero = pos 0;
      one = pos 1;
      of_zero = refl;
      of_one = refl;
      zero_is_zero = refl;
      one_is_not = refl;
    } };

    fn of(n: u32) -> Result<Whole, Fault> {
        if n > 999_999_999 {
            return Err(Fault::OutOfRange);
        }
        Ok(Whole { units: n as i32 })
    }

    fn add(self, other: Whole) -> Result<Whole, Fault> {
        Whole::try_from(self.value() + other.value())
    }

    fn subtract(self, other: Whole) -> Result<Whole, Fault> {
        Whole::try_from(self.value() - other.value())
    }

    fn multiply(self, other: Whole) -> Result<Whole, Fault> {
        Whole::try_from(self.value() * other.value())
    }

    fn divide(self, other: Whole) -> Result<Whole, Fault> {
        let units = range::divide(self.value(), other.value())?;
        Ok(Whole { units })
    }

    fn negate(self) -> Whole {
        Whole {
            units: -self.nearest(),
        }
    }

    fn round(self) -> Whole {
        self
    }

    fn nearest(self) -> i32 {
        self.value() as i32
    }

    // no derive of an order, for the reason at `same`
    fn less(self, other: Whole) -> bool {
        self.value() < other.value()
    }

    // no derive: two numbers stored beyond the same end are one figure
    fn same(self, other: Whole) -> bool {
        self.value() == other.value()
    }
}

// A figure prints as the number that it is read as.
impl fmt::Display for Whole {
    ghost output = { λ w. Some (signed_decimal (whole_value w)) };

    fn fmt<W: fmt::Write>(&self, f: &mut fmt::Formatter<W>) -> fmt::Result {
        let number = self.value();
        write!(f, "{number}")
    }
}

// A word of digits, behind a sign or none, is read where its number lies within the range.
impl FromStr for Whole {
    type Err = NoFigure;

    ghost from_str_gives = { Reads WritesWhole whole_value };

    fn from_str(word: &str) -> Result<Whole, NoFigure> {
        let number: i64 = word.parse()?;
        Ok(Whole::try_from(number)?)
    }
}
