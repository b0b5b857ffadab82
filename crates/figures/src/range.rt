// Stored numbers, and what both kinds calculate with them: a stored number is read within the range, and a result
// beyond it is refused.

ghost use Rattle.std.specs.Prelude.{◌≡◌, ℤ, pos, ◌*ℤ◌, ◌≤ℤ◌};
ghost use Rattle.figures.specs.Faults.{outcome};
ghost use Rattle.figures.specs.Range.{Within, clamped, high, in_range, low, quotient};

use crate::fault::Fault;

const LIMIT: i32 = 2_000_000_000;

// A stored number as it is read: within the range, and in the width in which results are found before they are tested.
pub fn read(stored: i32) -> i64
    ensures value { result ≡ clamped stored }
    ensures bound { Within result }
{
    i64::from(stored.clamp(-LIMIT, LIMIT))
}

// A result that lies within the range, or 31.
pub fn fit(res: i64) -> Result<i32, Fault>
    ensures { outcome (λ z. clamped z) result ≡ in_range res }
{
    if res < -i64::from(LIMIT) || res > i64::from(LIMIT) {
        return Err(Fault::OutOfRange);
    }
    Ok(res as i32)
}

// A quotient cut toward zero; 32 where the divisor is zero.
pub fn divide(dividend: i64, divisor: i64) -> Result<i32, Fault>
    requires { ((pos 100 *ℤ low) ≤ℤ dividend) × (dividend ≤ℤ (pos 100 *ℤ high)) }
    ensures { outcome (λ z. clamped z) result ≡ quotient dividend divisor }
{
    if divisor == 0 {
        return Err(Fault::DivisionByZero);
    }
    fit(dividend / divisor)
}
