// Figures in hundredths.

ghost use Rattle.std.specs.Prelude.{◌≡◌, ◌*◌, ℤ, pos, Some, refl};
ghost use Rattle.figures.specs.Hundredths.{Nearest, hundredths as in_hundredths, hundredths_value};
ghost use Rattle.figures.specs.Faults.{outcome};
ghost use Rattle.figures.specs.Range.{Within, in_range};
ghost use Rattle.figures.specs.Text.{Reads, WritesMoney, money_text};
ghost use Rattle.std.proofs.Common.{arith};
ghost use Rattle.std.proofs.lemmas.Int.{ints};

use crate::fault::Fault;
use crate::kind::Figures;
use crate::range;
use crate::word::{NoFigure, money};
use std::fmt;
use std::str::FromStr;

// So many hundredths; a number beyond ±2,000,000,000 is read as that end of the range. A type of its own: its product,
// quotient, rounding and limit are not those of whole figures.
#[derive(Clone, Copy, Debug)]
pub struct Hundredths {
    pub hundredths: i32,
}

impl Hundredths {
    // The number of hundredths that it is read as.
    fn value(self) -> i64
        ensures value { result ≡ hundredths_value self }
        ensures bound { Within result }
    {
        range::read(self.hundredths)
    }
}

// The figure of a number of hundredths that lies within the range, or 31.
impl TryFrom<i64> for Hundredths {
    type Error = Fault;

    ghost try_from_gives = { λ res answer. outcome hundredths_value answer ≡ in_range res };

    fn try_from(res: i64) -> Result<Hundredths, Fault> {
        let hundredths = range::fit(res)?;
        Ok(Hundredths { hundredths })
    }
}

impl Figures for Hundredths {
    ghost Value = { ℤ };

    ghost kind = { in_hundredths };

    ghost means = { hundredths_value };

    ghost counts = { λ n small. record { figure = pos (100 * n); given = Prim.grind (arith, ints); nearest_is = omega (arith, ints) } };

    ghost tells = { record {
      zero = pos 0;
      one = pos 100;
      of_zero = refl;
      of_one = refl;
      zero_is_zero = refl;
      one_is_not = refl;
    } };

    fn of(n: u32) -> Result<Hundredths, Fault> {
        if n > 20_000_000 {
            return Err(Fault::OutOfRange);
        }
        Ok(Hundredths {
            hundredths: (100 * n) as i32,
        })
    }

    fn add(self, other: Hundredths) -> Result<Hundredths, Fault> {
        Hundredths::try_from(self.value() + other.value())
    }

    fn subtract(self, other: Hundredths) -> Result<Hundredths, Fault> {
        Hundredths::try_from(self.value() - other.value())
    }

    fn multiply(self, other: Hundredths) -> Result<Hundredths, Fault> {
        Hundredths::try_from(self.value() * other.value() / 100)
    }

    fn divide(self, other: Hundredths) -> Result<Hundredths, Fault> {
        let hundredths = range::divide(100 * self.value(), other.value())?;
        Ok(Hundredths { hundredths })
    }

    fn negate(self) -> Hundredths {
        Hundredths {
            hundredths: -self.value() as i32,
        }
    }

    fn round(self) -> Hundredths {
        Hundredths {
            hundredths: 100 * self.nearest(),
        }
    }

    // The whole number n with n - 1/2 ≤ value < n + 1/2.
    fn nearest(self) -> i32
        ensures value { result ≡ in_hundredths.nearest (hundredths_value self) }
        ensures bound { Within result }
        ensures half { Nearest (hundredths_value self) result }
    {
        // the dividend is not negative, so that cutting its quotient is rounding down
        ((self.value() + 2_000_000_050) / 100 - 20_000_000) as i32
    }

    // no derive of an order, for the reason at `same`
    fn less(self, other: Hundredths) -> bool {
        self.value() < other.value()
    }

    // no derive: two numbers stored beyond the same end are one figure
    fn same(self, other: Hundredths) -> bool {
        self.value() == other.value()
    }
}

// A figure prints as money, with two decimals.
impl fmt::Display for Hundredths {
    ghost output = { λ h. Some (money_text (hundredths_value h)) };

    fn fmt<W: fmt::Write>(&self, f: &mut fmt::Formatter<W>) -> fmt::Result {
        let value = self.value();
        let minus = if value < 0 { "-" } else { "" };
        let size = value.unsigned_abs();
        let (units, part) = (size / 100, size % 100);
        write!(f, "{minus}{units}.{part:02}")
    }
}

// Money with two decimals or none, behind a minus sign or none, is read where it lies within the range.
impl FromStr for Hundredths {
    type Err = NoFigure;

    ghost from_str_gives = { Reads WritesMoney hundredths_value };

    fn from_str(word: &str) -> Result<Hundredths, NoFigure> {
        Ok(Hundredths::try_from(money(word)?)?)
    }
}
