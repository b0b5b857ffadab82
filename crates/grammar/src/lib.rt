#![tactic(auto)]

// The grammar of the language: its syntax trees, its sentences and their defined reading.

pub mod operator;
pub mod rank;
pub mod refusal;
pub mod theorems;
