// The letters of names, which stay in the text.

ghost use Rattle.std.specs.Prelude.{◌≡◌};
ghost use Rattle.analysis.specs.Letters.{letters_in, word_letters};

use parser::table::Record;
use words::token::Token;
use words::word::Word;

// The letters of a word that is a name; of another word, none.
pub fn letters<'a>(text: &'a [u8], w: Word) -> &'a [u8]
    ensures { result.now ≡ letters_in text.now w }
{
    let start = w.place.min(text.len());
    let rest = text.len() - start;
    match w.token {
        Token::Name(n) => &text[start..start + n.min(rest)],
        _ => &text[start..start],
    }
}

// The letters of the word of this number. A word past the table has none, so that the call asks nothing of its caller.
pub fn letters_of<'a>(text: &'a [u8], records: &[Record], w: usize) -> &'a [u8]
    ensures { result.now ≡ word_letters text.now records.now w }
{
    match records.get(w) {
        Some(record) => letters(text, record.word),
        None => &text[0..0],
    }
}
