// A roll over the bytes of a file of whole figures.

ghost use Rattle.std.specs.Prelude.{refl};
ghost use Rattle.std.specs.Fmt.{signed_decimal};
ghost use Rattle.rolls.specs.Lines.{magnitude};
ghost use Rattle.rolls.specs.Text.{DigitsRead, whole_figure};
ghost use Rattle.rolls.specs.WholeLaws.{magnitude_no_end, signed_figure};

use crate::file::{FileRoll, LineFigures};
use figures::whole::Whole;

pub type TextRoll<'a> = FileRoll<'a, Whole>;

// The number that the digits in front write, at most ten, and the bytes behind them.
pub(crate) fn read_digits(bytes: &[u8]) -> (u64, &[u8])
    ensures { DigitsRead bytes.now result.0 result.1.now }
{
    let front = &bytes[..bytes.len().min(10)];
    let mut value: u64 = 0;
    // one walk counts the digits and values them
    for (i, b) in front.iter().enumerate() {
        if !b.is_ascii_digit() {
            return (value, &bytes[i..]);
        }
        value = 10 * value + u64::from(*b - b'0');
    }
    (value, &bytes[front.len()..])
}

impl LineFigures for Whole {
    ghost unsigned = { magnitude };

    ghost written = { signed_decimal };

    ghost made = { whole_figure };

    ghost one_line = { magnitude_no_end };

    ghost no_empty_line = { refl };

    ghost reads_written = { signed_figure };

    fn of_number(number: i32) -> Whole {
        Whole { units: number }
    }

    // 1 to 10 digits of a value within the range, and the line's end.
    fn read_unsigned(bytes: &[u8]) -> Option<(u32, &[u8])> {
        let (value, behind) = read_digits(bytes);
        let (end, rest) = behind.split_first()?;
        if *end != b'\n' || behind.len() == bytes.len() || value > 2_000_000_000 {
            return None;
        }
        Some((value as u32, rest))
    }
}
