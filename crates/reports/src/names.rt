// The letters of names, which are lent by the text alone.

ghost use Rattle.std.specs.Prelude.{◌≡◌};
ghost use Rattle.reports.specs.Names.{name_letters};

use analysis::letters::letters_of as letters_of_word;
use parser::table::Record;

// The letters of the name that word w of the text is. They stay in the text, so that the work table is free again at once;
// `Source::name` keeps both lent.
pub fn letters_of<'a>(text: &'a [u8], records: &[Record], w: usize) -> &'a [u8]
    ensures { result.now ≡ name_letters text.now records.now w }
{
    letters_of_word(text, records, w)
}
