// Looking for a name among the lines of the name table.

ghost use Rattle.std.specs.Prelude.{◌≡◌, map};
ghost use Rattle.analysis.specs.Letters.{word_letters};
ghost use Rattle.analysis.specs.LineSearch.{line_letters, line_from};
ghost use Rattle.std.specs.Str.{bytes_eq};

use crate::letters::letters_of;
use crate::symbol::NameRecord;
use parser::table::Record;

// Does the word have the letters sought?
fn line_has_letters(text: &[u8], records: &[Record], w: usize, sought: &[u8]) -> bool
    ensures { result ≡ bytes_eq sought.now (word_letters text.now records.now w) }
{
    sought == letters_of(text, records, w)
}

// The number of the first line whose name has the letters sought.
pub fn find_line(
    text: &[u8],
    records: &[Record],
    names: &[NameRecord],
    sought: &[u8],
) -> Option<usize>
    ensures { result ≡ line_from 0 sought.now (map (line_letters text.now records.now) names.now) }
{
    names
        .iter()
        .position(|line| line_has_letters(text, records, line.word, sought))
}
