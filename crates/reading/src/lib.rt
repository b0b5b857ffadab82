#![tactic(auto)]

// The reading of a text: from its bytes to a syntax tree and a symbol table, or to the refusal.

pub mod accepted;
pub mod read;
pub mod refusal;
