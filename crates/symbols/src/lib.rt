#![tactic(auto)]

// The names of a text: what each one is, its type and its cells, and the rules that names and types obey.

pub mod examples;
pub mod laws;
pub mod refusal;
pub mod value_type;
