// Why a text that is a sentence is refused all the same: its names or types break a rule.

ghost use Rattle.std.specs.Prelude.{◌≡◌};
ghost use Rattle.symbols.specs.Refusal.{number};

#[derive(Clone, Copy, PartialEq, Eq, Debug)]
pub enum NameRefusal {
    // A name is defined or typed a second time, or a type's list has a label or a switch.
    SecondDefinition,
    // A name is used against its definition.
    MisusedName,
    // A part is not of the type that is wanted there.
    WrongType,
    // A go to leads into a for's body from outside.
    JumpIntoFor,
    // An array's bounds are reversed, or one lies beyond 9,999 either way.
    WrongBounds,
    // The text needs more than 2,048 cells.
    TooManyCells,
}

impl NameRefusal {
    // The number that users see.
    pub fn number(self) -> u8
        ensures { result ≡ number self }
    {
        match self {
            NameRefusal::SecondDefinition => 7,
            NameRefusal::MisusedName => 8,
            NameRefusal::WrongType => 9,
            NameRefusal::JumpIntoFor => 10,
            NameRefusal::WrongBounds => 11,
            NameRefusal::TooManyCells => 12,
        }
    }
}
