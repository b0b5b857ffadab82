#![tactic(auto)]

// Library calls behind C functions, so that a harness in another language can time them.

pub mod code_check;
pub mod roll_count;
