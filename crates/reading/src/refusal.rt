// Why a text is refused, and where.

ghost use Rattle.std.specs.Prelude.{◌≡◌};
ghost use Rattle.reading.specs.Refusal.{number, place};
ghost use Rattle.reading.specs.declared.refusal.TextRefusal.TheVariants.{Sentence, Names};

use analysis::offence::Broken;
use parser::refusal::ParseRefusal;

// By its words or its sentence, or by the rules on names.
#[derive(Clone, Copy, PartialEq, Eq, Debug)]
pub enum TextRefusal {
    Sentence(ParseRefusal),
    Names(Broken),
}

impl TextRefusal {
    // The number that users see.
    pub fn number(self) -> u8
        ensures { result ≡ number self }
    {
        match self {
            TextRefusal::Sentence(refusal) => refusal.number(),
            TextRefusal::Names(broken) => broken.rule.number(),
        }
    }

    // The byte it is told at.
    pub fn place(self) -> usize
        ensures { result ≡ place self }
    {
        match self {
            TextRefusal::Sentence(refusal) => refusal.place(),
            TextRefusal::Names(broken) => broken.place,
        }
    }
}

// What refuses the sentence refuses the text.
impl From<ParseRefusal> for TextRefusal {
    ghost from_gives = { λ refused r. r ≡ Sentence refused };

    fn from(refused: ParseRefusal) -> TextRefusal {
        TextRefusal::Sentence(refused)
    }
}

// So does a rule that is broken.
impl From<Broken> for TextRefusal {
    ghost from_gives = { λ told r. r ≡ Names told };

    fn from(told: Broken) -> TextRefusal {
        TextRefusal::Names(told)
    }
}
