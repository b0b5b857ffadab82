// A roll: a finite list of figures that is handed over one by one, and how it ends.

ghost use Rattle.std.specs.Prelude.{◌≡◌};
ghost use Rattle.rolls.specs.Endings.{number, taken};
ghost use Rattle.rolls.specs.Contents.{Contents, first, rest};

use figures::kind::Figures;

// Why a roll hands over no figure.
#[derive(Clone, Copy, PartialEq, Eq, Debug)]
pub enum Ending {
    // 33: the roll has ended
    End,
    // 34: the roll is damaged at this place
    Damaged(usize),
}

impl Ending {
    // The number under which users know it.
    pub fn number(self) -> u8
        ensures { result ≡ number self }
    {
        match self {
            Ending::End => 33,
            Ending::Damaged(_) => 34,
        }
    }
}

pub trait Roll {
    type Figure: Figures;

    // the figures still to come, and the ending
    ghost holds: { Self → Contents Self.Figure };

    // Hands over the first figure and leaves the rest; where none is left, tells the ending and stays so.
    fn take(&mut self) -> Result<Self::Figure, Ending>
        ensures answer { taken result ≡ first (holds self.old) }
        ensures left { holds self.new ≡ rest (holds self.old) };
}
