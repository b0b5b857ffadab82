#![tactic(auto)]

// What people read and write of a text: its tree in words, its symbol table, its named cells, the reason and the place of
// a refusal, and the cells that a setting names.

pub mod caption;
pub mod cells;
mod each;
pub mod excerpt;
pub mod names;
mod part;
pub mod reason;
pub mod settings;
pub mod source;
pub mod symbol_table;
pub mod tree;
pub mod worded;
