// The cells of names: each line's lie behind those of the lines before it.

ghost use Rattle.std.specs.Prelude.{◌≡◌, ◌+◌, ◌≤◌, ◌&&◌, length, nat_le, nat_lt};
ghost use Rattle.parser.specs.Records.{bound_in};
ghost use Rattle.symbols.specs.Symbols.{bound_value, extent as extent_of};
ghost use Rattle.symbols.specs.Types.{told as told_at};
ghost use Rattle.analysis.specs.Earliest.{earliest_of};
ghost use Rattle.analysis.specs.Counting.{cells_of, PlacesCells};

use crate::bounds::value;
use crate::cell_count::CellCount;
use crate::earliest::{earlier, told};
use crate::lines::place_of;
use crate::symbol::{NameKind, NameRecord};
use parser::node::Bound;
use parser::table::Record;

// A text has no more cells.
pub(crate) const MOST_CELLS: usize = 2_048;

// How many subscripts lie between two bounds.
pub fn extent(low: Bound, high: Bound) -> usize
    ensures count { result ≡ extent_of (bound_value (bound_in low)) (bound_value (bound_in high)) }
    ensures small { result ≤ 8589934592 }
{
    let n = value(high) - value(low) + 1;
    usize::try_from(n).unwrap_or(0)
}

// How many cells a name of this kind has.
fn cells(kind: NameKind) -> usize
    ensures count { result ≡ cells_of kind }
    ensures small { result ≤ 8589934592 }
{
    match kind {
        NameKind::Array(low, high) => extent(low, high),
        NameKind::Variable => 1,
        _ => 0,
    }
}

// The place, if n cells behind the first c take the number past 2,048.
pub(crate) fn passing(c: usize, n: usize, place: usize) -> Option<usize>
    ensures { result ≡ earliest_of (told_at (nat_le c 2048 && nat_lt 2048 (c + n)) place) }
{
    told(c <= MOST_CELLS && n > MOST_CELLS - c, place)
}

// Gives each line its first cell, and counts the cells of all.
pub(crate) fn place_cells(records: &[Record], names: &mut [NameRecord]) -> CellCount
    requires { length names.old ≤ 256 }
    ensures { PlacesCells records.now names.old names.new result }
{
    let mut c = 0;
    let mut offence = None;
    for line in names.iter_mut() {
        let n = cells(line.kind);
        line.first = c;
        offence = earlier(offence, passing(c, n, place_of(records, line.word)));
        c += n;
    }
    CellCount { cells: c, offence }
}
