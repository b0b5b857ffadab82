// A refusal of a text, and the byte it is told at.

ghost use Rattle.std.specs.Prelude.{◌≡◌};
ghost use Rattle.parser.specs.Refusal.{number, place};
ghost use Rattle.parser.specs.declared.refusal.ParseRefusal.TheVariants.{Word, Sentence};

use grammar::refusal::SentenceRefusal;

// The words of a text are refused as a sentence.
#[derive(Clone, Copy, PartialEq, Eq, Debug)]
pub struct Refusal {
    pub reason: SentenceRefusal,
    pub place: usize,
}

// A text is refused for a word, or as a sentence.
#[derive(Clone, Copy, PartialEq, Eq, Debug)]
pub enum ParseRefusal {
    Word(words::refusal::Refusal),
    Sentence(Refusal),
}

// What refuses the words refuses the text.
impl From<words::refusal::Refusal> for ParseRefusal {
    ghost from_gives = { λ e r. r ≡ Word e };

    fn from(word: words::refusal::Refusal) -> ParseRefusal {
        ParseRefusal::Word(word)
    }
}

// So does what refuses the sentence.
impl From<Refusal> for ParseRefusal {
    ghost from_gives = { λ e r. r ≡ Sentence e };

    fn from(sentence: Refusal) -> ParseRefusal {
        ParseRefusal::Sentence(sentence)
    }
}

impl ParseRefusal {
    // The number that users see.
    pub fn number(self) -> u8
        ensures { result ≡ number self }
    {
        match self {
            ParseRefusal::Word(refusal) => refusal.reason.number(),
            ParseRefusal::Sentence(refusal) => refusal.reason.number(),
        }
    }

    // The byte it is told at.
    pub fn place(self) -> usize
        ensures { result ≡ place self }
    {
        match self {
            ParseRefusal::Word(refusal) => refusal.place,
            ParseRefusal::Sentence(refusal) => refusal.place,
        }
    }
}
