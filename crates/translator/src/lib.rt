#![tactic(auto)]

// From the tree of an accepted text to stack code, and what is proved of that code.

pub mod theorems;
