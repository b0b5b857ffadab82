// The hidden cells: one for each for, behind those of the names.

ghost use Rattle.analysis.specs.Counting.{CountsItems};

use crate::cell_count::CellCount;
use crate::cells::{MOST_CELLS, passing};
use crate::earliest::earlier;
use crate::ordered::ordered_node;
use parser::node::Node;
use parser::table::Record;

// Counts the fors of the items at node i behind the first c cells. The count stops at 2,049, which is one too many.
pub(crate) fn count_fors(records: &[Record], i: usize, c: usize) -> CellCount
    ensures { CountsItems records.now i c result }
{
    match ordered_node(records, i) {
        Node::More(before, last) => {
            let a = count_fors(records, before, c);
            let b = count_fors(records, last, a.cells);
            CellCount {
                cells: b.cells,
                offence: earlier(a.offence, b.offence),
            }
        }
        Node::Labelled(_, body) => count_fors(records, body, c),
        Node::Conditional(_, _, body) => count_fors(records, body, c),
        Node::Repeated(place, _, _, body) => {
            let b = count_fors(records, body, c.min(MOST_CELLS) + 1);
            CellCount {
                cells: b.cells,
                offence: earlier(passing(c, 1, place), b.offence),
            }
        }
        _ => CellCount {
            cells: c.min(MOST_CELLS + 1),
            offence: None,
        },
    }
}
