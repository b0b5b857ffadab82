// The answer for a tree: the rule of the least number that is broken, told at its earliest offence.

ghost use Rattle.std.specs.Prelude.{◌≡◌, None};
ghost use Rattle.analysis.specs.Verdicts.{told_or_next, Decides};

use crate::offence::{Broken, Offences};
use symbols::refusal::NameRefusal;

// The rule that is broken, if there is an offence against it.
fn broken(rule: NameRefusal, offence: Option<usize>) -> Option<Broken>
    ensures { result ≡ told_or_next rule offence None }
{
    offence.map(|place| Broken { rule, place })
}

// The rule that is told, if any is broken.
pub fn first_broken(o: Offences) -> Option<Broken>
    ensures { Decides o result }
{
    broken(NameRefusal::SecondDefinition, o.second_definition)
        .or(broken(NameRefusal::MisusedName, o.misused_name))
        .or(broken(NameRefusal::WrongType, o.wrong_type))
        .or(broken(NameRefusal::JumpIntoFor, o.jump_into_for))
        .or(broken(NameRefusal::WrongBounds, o.wrong_bounds))
        .or(broken(NameRefusal::TooManyCells, o.too_many_cells))
}
