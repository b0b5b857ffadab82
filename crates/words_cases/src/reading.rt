// A work table as a parser keeps it, and what the reader says of a text.

ghost use Rattle.words.specs.declared.word.Word.{Word as WordRecord};

use words::refusal::Refusal;
use words::table::{WordSlot, cut_words};
use words::token::{Mark, Token};
use words::word::Word;

// A record with room for more than its word.
#[derive(Clone, Copy)]
pub struct Record {
    pub word: Word,
    pub node: u16,
}

impl WordSlot for Record {
    ghost word = { λ r. r.word };

    fn of_word(w: Word) -> Record {
        Record { word: w, node: 0 }
    }
}

// A record as a table has them before it is filled.
pub const EMPTY: Record = Record {
    word: Word {
        token: Token::Mark(Mark::Comma),
        place: 0,
    },
    node: 7,
};

// How many words a text has, or why it is refused.
pub(crate) fn outcome_of(text: &[u8]) -> Result<usize, Refusal> {
    cut_words(text, &mut [EMPTY; 512])
}
