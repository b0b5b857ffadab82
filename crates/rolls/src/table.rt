// A roll over a table of figures, of any kind.

ghost use Rattle.std.specs.Prelude.{◌≡◌};
ghost use Rattle.rolls.specs.Contents.{all_of};

use crate::roll::{Ending, Roll};
use figures::kind::Figures;

// The figures of a table that are still to come.
#[derive(Drop)]
pub struct TableRoll<'a, F> {
    figures: &'a [F],
}

impl<'a, F: Figures> TableRoll<'a, F> {
    // The roll of all figures of a table.
    pub fn new(figures: &'a [F]) -> TableRoll<'a, F>
        ensures { all_of result.figures.now ≡ all_of figures.now }
    {
        TableRoll { figures }
    }
}

impl<'a, F: Figures> Roll for TableRoll<'a, F> {
    type Figure = F;

    ghost holds = { λ t. all_of t.figures.now };

    fn take(&mut self) -> Result<F, Ending> {
        let (first, rest) = self.figures.split_first().ok_or(Ending::End)?;
        self.figures = rest;
        Ok(*first)
    }
}
