// The words of a whole text, in a table of records.

ghost use Rattle.std.specs.Prelude.{◌≡◌};
ghost use Rattle.words.specs.Table.{CutInto};
ghost use Rattle.words.specs.declared.word.Word.{Word as WordRecord};

use crate::reader::Words;
use crate::refusal::{Refusal, WordRefusal};
use crate::word::Word;

const LONGEST_TEXT: usize = 8192;

const MOST_WORDS: usize = 500;

// A record that a word can be put into: a bare word, or one with room for more beside it.
pub trait WordSlot: Copy {
    ghost word: { Self → WordRecord };

    fn of_word(w: Word) -> Self
        ensures { word result ≡ w };
}

impl WordSlot for Word {
    ghost word = { λ w. w };

    fn of_word(w: Word) -> Word {
        w
    }
}

// Cuts a text into its words, which stand first in the table, and says how many there are.
// A table of fewer than 500 records has room for no more words than that.
pub fn cut_words<S: WordSlot>(text: &[u8], table: &mut [S]) -> Result<usize, Refusal>
    ensures { CutInto S.WordSlot.word text.now table.old result table.new }
{
    if text.len() > LONGEST_TEXT {
        return Err(Refusal {
            reason: WordRefusal::TextTooLong,
            place: LONGEST_TEXT,
        });
    }
    let most = MOST_WORDS.min(table.len());
    // `count` is the answer too, and the table may be longer than the text's words
    let mut count = 0;
    for word in Words::of(text) {
        let word = word?;
        if count == most {
            return Err(Refusal {
                reason: WordRefusal::TooManyWords,
                place: word.place,
            });
        }
        table[count] = S::of_word(word);
        count += 1;
    }
    Ok(count)
}
