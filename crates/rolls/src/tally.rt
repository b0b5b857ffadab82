// The count and the total of a roll.

ghost use Rattle.std.specs.Prelude.{◌≡◌, ◌-◌, ◌^◌, min, [], map, length};
ghost use Rattle.figures.specs.Faults.{outcome};
ghost use Rattle.rolls.specs.Contents.{at_ending, emptied};
ghost use Rattle.rolls.specs.Endings.{stopped};
ghost use Rattle.rolls.specs.Tallies.{plus, total};

use crate::roll::{Ending, Roll};
use figures::fault::Fault;
use figures::kind::{Figures, zero};

// What a roll came to: how many figures, their sum or why there is none, and how the roll ended.
#[derive(Clone, Copy)]
pub struct Tally<F> {
    pub count: u64,
    pub sum: Result<F, Fault>,
    pub ending: Ending,
}

// One figure more; a sum that was refused stays so.
fn add_to<F: Figures>(sum: Result<F, Fault>, figure: F) -> Result<F, Fault>
    ensures { outcome F.means result ≡ plus F.kind (outcome F.means sum) (F.means figure) }
{
    sum.and_then(|so_far| so_far.add(figure))
}

// Takes a roll to its end; the count stops at 2^64 - 1.
pub fn add_up<R: Roll>(roll: &mut R) -> Tally<R::Figure>
    ensures count { result.count ≡ min (length (R.holds roll.old).figures) (2 ^ 64 - 1) }
    ensures sum { outcome R.Figure.Figures.means result.sum ≡ total R.Figure.Figures.kind (map R.Figure.Figures.means (R.holds roll.old).figures) }
    ensures ending { stopped {F = R.Figure} result.ending ≡ at_ending (R.holds roll.old).ending }
    ensures after { R.holds roll.new ≡ emptied (R.holds roll.old) }
{
    let mut count: u64 = 0;
    let mut sum = Ok(zero::<R::Figure>());
    loop {
        match roll.take() {
            Ok(figure) => {
                count = count.saturating_add(1);
                sum = add_to(sum, figure);
            }
            Err(ending) => return Tally { count, sum, ending },
        }
    }
}
