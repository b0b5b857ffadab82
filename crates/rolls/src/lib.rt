#![tactic(auto)]

// Rolls: where a run takes its figures from. The trait, a roll over a table, a roll over the lines of a file of
// whole figures or of amounts, the leaver filter over any roll, and the count and total of a roll.

pub mod amounts;
pub mod cases;
pub mod file;
pub mod leavers;
pub mod roll;
pub mod table;
pub mod tally;
pub mod text;
