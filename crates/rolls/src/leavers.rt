// The leaver filter: a roll over any roll, without the groups of those who have left.

ghost use Rattle.std.specs.Prelude.{◌≡◌, suc, MatchResult};
ghost use Rattle.figures.specs.Kinds.{stands_for_zero};
ghost use Rattle.rolls.specs.Filters.{number};
ghost use Rattle.rolls.specs.Groups.{IsGroupSize, MadeOver, filtered, past};
ghost use Rattle.rolls.specs.declared.leavers.FilterRefusal.TheVariants.{GroupSize};

use crate::roll::{Ending, Roll};
use figures::kind::{Figures, zero};

// Any roll, parted into groups of a first figure and so many behind it; of the present group `left` are still to be
// handed over.
#[derive(Drop)]
pub struct LeaverFilter<R> {
    roll: R,
    behind: usize,
    left: usize,
}

// Why no filter is made; the roll that was handed in comes back.
#[derive(Drop)]
pub enum FilterRefusal<R> {
    // 48: the group size is not 1 to 64
    GroupSize(R),
}

impl<R> FilterRefusal<R> {
    // The number under which users know it.
    pub fn number(&self) -> u8
        ensures { result ≡ number self.now }
    {
        match self {
            FilterRefusal::GroupSize(_) => 48,
        }
    }
}

impl<R: Roll> LeaverFilter<R> {
    // The filter over a roll, with this group size.
    pub fn new(roll: R, group: usize) -> Result<LeaverFilter<R>, FilterRefusal<R>>
        ensures { MatchResult result (λ f. MadeOver (stands_for_zero R.Figure.Figures.kind R.Figure.Figures.means) group (R.holds roll) (⟦<LeaverFilter<R> as Roll>⟧.holds f)) (λ e. (IsGroupSize group → ⊥) × (e ≡ GroupSize roll)) }
    {
        if group < 1 || group > 64 {
            return Err(FilterRefusal::GroupSize(roll));
        }
        Ok(LeaverFilter {
            roll,
            behind: group - 1,
            left: 0,
        })
    }
}

// Passes over so many figures of a roll.
fn skip<R: Roll>(roll: &mut R, count: usize)
    ensures { R.holds roll.new ≡ past count (R.holds roll.old) }
{
    for _ in 0..count {
        let _ = roll.take();
    }
}

impl<R: Roll> Roll for LeaverFilter<R> {
    type Figure = R::Figure;

    ghost holds = { λ f. filtered (stands_for_zero R.Figure.Figures.kind R.Figure.Figures.means) (suc f.behind) f.left (R.Roll.holds f.roll) };

    fn take(&mut self) -> Result<R::Figure, Ending> {
        if self.left > 0 {
            self.left -= 1;
            return self.roll.take();
        }
        let nought = zero::<R::Figure>();
        loop {
            let first = self.roll.take()?;
            if !first.same(nought) {
                self.left = self.behind;
                return Ok(first);
            }
            skip(&mut self.roll, self.behind);
        }
    }
}
