// What a word of the work table leads to: the line of its name, and its place. A word past the table has 0, so that the
// calls ask nothing of their caller.

ghost use Rattle.std.specs.Prelude.{◌≡◌, slice_index};
ghost use Rattle.analysis.specs.SymbolTable.{line_numbers};
ghost use Rattle.analysis.specs.NameLines.{word_places};

use parser::table::Record;

// The number of the line of the word's name.
pub fn number_of(records: &[Record], w: usize) -> usize
    ensures { result ≡ slice_index (line_numbers records.now) w }
{
    records.get(w).map_or(0, |record| record.symbol)
}

// The place of the word.
pub fn place_of(records: &[Record], w: usize) -> usize
    ensures { result ≡ slice_index (word_places records.now) w }
{
    records.get(w).map_or(0, |record| record.word.place)
}
