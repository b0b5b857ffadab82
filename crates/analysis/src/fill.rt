// The name table of a text, filled from the records of its words and its tree.

ghost use Rattle.analysis.specs.Filling.{Fills};

use crate::cells::place_cells;
use crate::declare::declare_all;
use crate::earliest::earlier;
use crate::fors::count_fors;
use crate::name_table::{MOST_LINES, NameTable};
use crate::numbering::number_names;
use crate::pass::{Declare, Mark};
use crate::symbol::NameRecord;
use parser::table::Record;

// Fills the name table for the first words of the work table and the tree at node root; each word that is a name gets
// the number of its line.
pub fn fill_names(
    text: &[u8],
    records: &mut [Record],
    count: usize,
    root: usize,
    names: &mut [NameRecord],
) -> NameTable
    ensures { Fills text.now count root records.old records.new names.old names.new result }
{
    let lines = number_names(text, records, count, names);
    // The first pass tells nothing.
    let _marked = declare_all::<Mark>(records, names, root);
    let second = declare_all::<Declare>(records, names, root);
    let used = lines.min(MOST_LINES);
    let named = place_cells(records, &mut names[0..used]);
    let all = count_fors(records, root, named.cells);
    NameTable {
        lines,
        second,
        named_cells: named.cells,
        cells: all.cells,
        too_many: earlier(named.offence, all.offence),
    }
}
