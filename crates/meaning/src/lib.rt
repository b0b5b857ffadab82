#![tactic(auto)]

// What an accepted text means: the statement machine, its laws and worked cases.

pub mod cases;
pub mod theorems;
