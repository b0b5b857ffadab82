// What a run under way tells of itself.

use crate::fault::RunFault;

#[derive(Clone, Copy, PartialEq, Eq, Debug)]
pub enum Standing {
    // the next advance makes steps
    Going,
    // the run is at its end
    End,
    // a fault ended the run in the step of the statement at this text place
    Fault(RunFault, u64),
}

#[derive(Clone, Copy, PartialEq, Eq, Debug)]
pub struct Status {
    // steps made
    pub count: u64,
    // figures that stand first in the book
    pub posted: usize,
    pub standing: Standing,
}
