// Why the words of a text are refused as a sentence.

ghost use Rattle.std.specs.Prelude.{◌≡◌};
ghost use Rattle.grammar.specs.Refusal.{number};

#[derive(Clone, Copy, PartialEq, Eq, Debug)]
pub enum SentenceRefusal {
    // A word that the grammar cannot have there, or an early end.
    Unexpected,
    // A word opens level 33.
    TooDeep,
    // A table lent for the reading is too short.
    TableTooShort,
}

impl SentenceRefusal {
    // The number that users see.
    pub fn number(self) -> u8
        ensures { result ≡ number self }
    {
        match self {
            SentenceRefusal::Unexpected => 5,
            SentenceRefusal::TooDeep => 6,
            SentenceRefusal::TableTooShort => 13,
        }
    }
}
