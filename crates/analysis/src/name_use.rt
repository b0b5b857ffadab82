// What a use of a name wants it to be.

ghost use Rattle.std.specs.Prelude.{◌≡◌};
ghost use Rattle.analysis.specs.Uses.{kind_suits};

use crate::symbol::NameKind;

// How a name is used: as a label, as a switch, as a simple variable, as an array.
#[derive(Clone, Copy, PartialEq, Eq, Debug)]
pub enum NameUse {
    AsTarget,
    AsSelector,
    AsVariable,
    AsElement,
}

// Does what a name is suit its use?
pub fn does_suit(kind: NameKind, usage: NameUse) -> bool
    ensures { result ≡ kind_suits kind usage }
{
    matches!(
        (kind, usage),
        (NameKind::Label, NameUse::AsTarget)
            | (NameKind::Switch(_), NameUse::AsSelector)
            | (NameKind::Variable, NameUse::AsVariable)
            | (NameKind::Array(_, _), NameUse::AsElement)
    )
}
