// What is known of a text when its name table is filled.

// A sentence of at most 500 words has fewer names.
pub const MOST_LINES: usize = 256;

// How many lines the table has, which is the caller's and longer, since the library has no heap; the earliest
// declaration that is one too many; the cells of the names, and with the hidden ones all cells, counted up to 2,049; and
// the earliest place that takes their number past 2,048.
#[derive(Clone, Copy, PartialEq, Eq, Debug)]
pub struct NameTable {
    pub lines: usize,
    pub second: Option<usize>,
    pub named_cells: usize,
    pub cells: usize,
    pub too_many: Option<usize>,
}
