#![tactic(auto)]

// The parser: from the bytes of a text to its syntax tree, in the records of a lent table.

mod class;
mod compound;
mod declaration;
mod element;
mod expect;
mod expression;
mod item;
pub mod node;
pub mod parse;
pub mod refusal;
mod row;
mod statement;
pub mod table;
mod take;
