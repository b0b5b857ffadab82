// Why a text has no words.

ghost use Rattle.std.specs.Prelude.{◌≡◌};
ghost use Rattle.words.specs.Refusal.{number};

#[derive(Clone, Copy, PartialEq, Eq, Debug)]
pub enum WordRefusal {
    // The text is longer than 8,192 bytes.
    TextTooLong,
    // A byte begins no word.
    NoWord,
    // A name has more than 16 bytes, or a number more than 9 digits.
    WordTooLong,
    // The text has more than 500 words.
    TooManyWords,
}

impl WordRefusal {
    // The number that users see.
    pub fn number(self) -> u8
        ensures { result ≡ number self }
    {
        match self {
            WordRefusal::TextTooLong => 1,
            WordRefusal::NoWord => 2,
            WordRefusal::WordTooLong => 3,
            WordRefusal::TooManyWords => 4,
        }
    }
}

// A refusal, and the byte it is told at.
#[derive(Clone, Copy, PartialEq, Eq, Debug)]
pub struct Refusal {
    pub reason: WordRefusal,
    pub place: usize,
}
