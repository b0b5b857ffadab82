// Looking for a name among others: words by themselves here, and the lines of a table in line_search.rt, each with its
// own definition.

ghost use Rattle.std.specs.Prelude.{◌≡◌, map};
ghost use Rattle.analysis.specs.Letters.{letters_in};
ghost use Rattle.analysis.specs.Search.{index_from};
ghost use Rattle.std.specs.Str.{bytes_eq};

use crate::letters::letters;
use words::word::Word;

// Does the word have the letters sought?
fn has_letters(text: &[u8], w: Word, sought: &[u8]) -> bool
    ensures { result ≡ bytes_eq (letters_in text.now w) sought.now }
{
    letters(text, w) == sought
}

// The number of the first name with the letters sought.
pub fn find(text: &[u8], names: &[Word], sought: &[u8]) -> Option<usize>
    ensures { result ≡ index_from 0 sought.now (map (letters_in text.now) names.now) }
{
    names
        .iter()
        .position(|name| has_letters(text, *name, sought))
}
