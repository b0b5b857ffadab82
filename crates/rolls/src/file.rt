// A roll over the bytes of a file of figures, one a line, read where they are.

ghost use Rattle.std.specs.Prelude.{◌≡◌, ℕ, ℤ, Some, Option, None, [], List, MatchOption, IfSome, ◌+◌, ◌^◌, ◌<◌, ◌≤ℤ◌, true, length};
ghost use Rattle.figures.specs.Range.{low, high};
ghost use Rattle.rolls.specs.Contents.{made_of};
ghost use Rattle.rolls.specs.Lines.{WithinRange, no_end, read_as, signed_line};
ghost use Rattle.rolls.specs.Reading.{FigureLine, NoFigureLine, Reading, ReadsBack};

use crate::roll::{Ending, Roll};
use figures::kind::Figures;
use std::marker::PhantomData;

// A kind of figures that stand in files, one a line.
pub trait LineFigures: Figures {
    // the number that a line without its sign writes, how a number is written, and the figure of a number
    ghost unsigned: { List ℕ → Option ℕ };

    ghost written: { ℤ → List ℕ };

    ghost made: { ℤ → Self };

    // The figure of a number.
    fn of_number(number: i32) -> Self
        ensures { result ≡ made number };

    // The number without a sign that the line in front writes, and the bytes behind that line.
    fn read_unsigned(bytes: &[u8]) -> Option<(u32, &[u8])>
        ensures line { MatchOption result (NoFigureLine unsigned bytes.now) (λ r. FigureLine unsigned bytes.now r.0 r.1.now) }
        ensures small { IfSome result (λ r. WithinRange r.0) };

    // a line that writes a number has no line end inside and is not empty, and a number that is written is read back
    ghost one_line: { (line : List ℕ) (n : ℕ) → unsigned line ≡ Some n → no_end line ≡ true };

    ghost no_empty_line: { unsigned [] ≡ None };

    ghost reads_written: { (z : ℤ) → low ≤ℤ z → z ≤ℤ high → signed_line unsigned (written z) ≡ Some z };
}

// The lines of a file that are still to come, of which the first begins at byte `at` of the file; the place stands
// beside the slice since damage is told by it, and a slice does not say where it lies in the file.
#[derive(Drop)]
pub struct FileRoll<'a, F> {
    rest: &'a [u8],
    at: usize,
    figures: PhantomData<F>,
    ghost within: { at + length rest.now < 2 ^ 64 },
}

impl<'a, F: LineFigures> FileRoll<'a, F> {
    // The roll of all lines of a file.
    pub fn new(bytes: &'a [u8]) -> FileRoll<'a, F>
        ensures value { ⟦<FileRoll<'a, F> as Roll>⟧.holds result ≡ made_of F.made (read_as (signed_line F.unsigned) 0 bytes.now) }
        ensures read_back { ReadsBack (signed_line F.unsigned) F.written bytes.now }
        ensures lines { Reading (signed_line F.unsigned) 0 bytes.now (read_as (signed_line F.unsigned) 0 bytes.now) }
    {
        FileRoll {
            rest: bytes,
            at: 0,
            figures: PhantomData,
        }
    }
}

// The number that the line in front writes, with its sign, and the bytes behind that line.
fn read_line<F: LineFigures>(bytes: &[u8]) -> Option<(i32, &[u8])>
    ensures { MatchOption result (NoFigureLine (signed_line F.unsigned) bytes.now) (λ r. FigureLine (signed_line F.unsigned) bytes.now r.0 r.1.now) }
{
    if let [b'-', behind @ ..] = bytes {
        let (number, rest) = F::read_unsigned(behind)?;
        return Some((-(number as i32), rest));
    }
    let (number, rest) = F::read_unsigned(bytes)?;
    Some((number as i32, rest))
}

impl<'a, F: LineFigures> Roll for FileRoll<'a, F> {
    type Figure = F;

    ghost holds = { λ f. made_of F.made (read_as (signed_line F.unsigned) f.at f.rest.now) };

    fn take(&mut self) -> Result<F, Ending> {
        if self.rest.is_empty() {
            return Err(Ending::End);
        }
        let (number, rest) = read_line::<F>(self.rest).ok_or(Ending::Damaged(self.at))?;
        self.at += self.rest.len() - rest.len();
        self.rest = rest;
        Ok(F::of_number(number))
    }
}
