// How many cells there are, and where there are too many.

// The cells so far, and the earliest place that takes their number past 2,048.
#[derive(Clone, Copy, PartialEq, Eq, Debug)]
pub struct CellCount {
    pub cells: usize,
    pub offence: Option<usize>,
}
