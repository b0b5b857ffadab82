// What a run works on within a step.

use rolls::roll::Roll;

// The place of the operation that comes next, and the cells, the book with so many figures posted and the roll, which
// the caller lends. No struct that holds an array stands in it: what the arrays then hold at the end would not be known.
// After a fault it no longer stands where the check counted, so that `Stands` is no ghost field.
#[derive(Drop)]
pub struct State<'c, 'b, 'r, R: Roll> {
    pub(crate) place: usize,
    pub(crate) cells: &'c mut [R::Figure],
    pub(crate) book: &'b mut [R::Figure],
    pub(crate) posted: usize,
    pub(crate) roll: &'r mut R,
}
