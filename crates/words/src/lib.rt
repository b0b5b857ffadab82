#![tactic(auto)]

// The words of a text: a pure reader from bytes to tokens that knows nothing of the grammar.

mod bytes;
mod fixed;
pub mod law;
pub mod reader;
pub mod refusal;
pub mod table;
pub mod token;
pub mod word;
