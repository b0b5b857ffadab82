// A roll over the bytes of a file of amounts.

ghost use Rattle.std.specs.Prelude.{◌≡◌, IfSome, Some, refl};
ghost use Rattle.rolls.specs.Amounts.{amount, amount_text, digits_number, hundredths_figure, in_hundredths};
ghost use Rattle.rolls.specs.Lines.{WithinRange};
ghost use Rattle.rolls.specs.AmountLaws.{amount_line_no_end, written_amount};

use crate::file::{FileRoll, LineFigures};
use crate::text::read_digits;
use figures::hundredths::Hundredths;

pub type AmountRoll<'a> = FileRoll<'a, Hundredths>;

// The number that 1 to 10 digits write.
fn read_number(ds: &[u8]) -> Option<u64>
    ensures { result ≡ digits_number ds.now }
{
    let (value, rest) = read_digits(ds);
    (rest.is_empty() && !ds.is_empty()).then_some(value)
}

// So many units and hundredths, in hundredths, within the range.
fn in_hundredths(units: u64, part: u64) -> Option<u32>
    ensures value { result ≡ in_hundredths (Some units) (Some part) }
    ensures small { IfSome result WithinRange }
{
    let hundredths = units.checked_mul(100)?.checked_add(part)?;
    if hundredths > 2_000_000_000 {
        return None;
    }
    Some(hundredths as u32)
}

// The amount that a line without its sign writes.
fn read_amount(line: &[u8]) -> Option<u32>
    ensures value { result ≡ amount line.now }
    ensures small { IfSome result WithinRange }
{
    if let [units @ .., b'.', tens, ones] = line {
        return in_hundredths(read_number(units)?, read_number(&[*tens, *ones])?);
    }
    in_hundredths(read_number(line)?, 0)
}

impl LineFigures for Hundredths {
    ghost unsigned = { amount };

    ghost written = { amount_text };

    ghost made = { hundredths_figure };

    ghost one_line = { amount_line_no_end };

    ghost no_empty_line = { refl };

    ghost reads_written = { written_amount };

    fn of_number(number: i32) -> Hundredths {
        Hundredths { hundredths: number }
    }

    // The amount of the bytes up to the line's end.
    fn read_unsigned(bytes: &[u8]) -> Option<(u32, &[u8])> {
        let end = bytes.iter().position(|b| *b == b'\n')?;
        let number = read_amount(&bytes[..end])?;
        Some((number, &bytes[end + 1..]))
    }
}
