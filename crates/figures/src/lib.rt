#![tactic(auto)]

// Kinds of figures: what a fund's rule calculates with. The trait and its laws, and two kinds, whole and hundredths.

pub mod cases;
pub mod fault;
pub mod hundredths;
pub mod kind;
mod range;
pub mod whole;
pub mod word;
