// Figures read from words, as people write them.

ghost use Rattle.std.specs.Prelude.{◌<◌, ◌^◌, Some};
ghost use Rattle.std.specs.Result.{OkIff};
ghost use Rattle.std.specs.Str.Parse.{IsNumeral, digits_value};
ghost use Rattle.figures.specs.Amounts.{ReadsAmount, ReadsMoney, ReadsParts};
ghost use Rattle.figures.specs.Text.{no_figure};

use crate::fault::Fault;
use std::error::Error;
use std::fmt;
use std::num::ParseIntError;

// The word writes no figure of the kind.
#[derive(Clone, Copy, PartialEq, Eq, Debug)]
pub struct NoFigure;

impl fmt::Display for NoFigure {
    ghost output = { λ _. Some no_figure };

    fn fmt<W: fmt::Write>(&self, f: &mut fmt::Formatter<W>) -> fmt::Result {
        f.write_str("the word writes no figure of this kind")
    }
}

impl Error for NoFigure {}

// A number that lies outside the kind's range is no figure of it.
impl From<Fault> for NoFigure {
    fn from(_e: Fault) -> NoFigure {
        NoFigure
    }
}

// Nor is a word that writes no number.
impl From<ParseIntError> for NoFigure {
    fn from(_e: ParseIntError) -> NoFigure {
        NoFigure
    }
}

// The number that digits write.
fn digits(word: &str) -> Result<u32, NoFigure>
    ensures { OkIff result (IsNumeral 10 word.now × (digits_value 10 word.now < 2 ^ 32)) (digits_value 10 word.now) }
{
    if word.starts_with('+') {
        return Err(NoFigure);
    }
    Ok(word.parse()?)
}

// So many units, and so many hundredths in two digits.
fn parts(units: &str, part: &str) -> Result<i64, NoFigure>
    ensures { ReadsParts units.now part.now result }
{
    if part.len() != 2 {
        return Err(NoFigure);
    }
    let units = digits(units)?;
    let part = digits(part)?;
    Ok(100 * i64::from(units) + i64::from(part))
}

// The hundredths that a word without a sign writes.
fn amount(word: &str) -> Result<i64, NoFigure>
    ensures { ReadsAmount word.now result }
{
    match word.split_once('.') {
        Some((units, part)) => parts(units, part),
        None => parts(word, "00"),
    }
}

// The hundredths that a word writes.
pub(crate) fn money(word: &str) -> Result<i64, NoFigure>
    ensures { ReadsMoney word.now result }
{
    match word.strip_prefix('-') {
        Some(size) => Ok(-amount(size)?),
        None => amount(word),
    }
}
