#![tactic(auto)]

// The rules on names, types, jumps, bounds and cells, tested over the records of a syntax tree.

pub mod bounds;
mod cell_count;
pub mod cells;
mod declaration;
mod declare;
mod earliest;
pub mod fill;
mod fors;
mod heed;
pub mod jumps;
mod labels;
pub mod laws;
pub mod letters;
mod line_search;
pub mod lines;
pub mod name_table;
mod name_use;
mod numbering;
pub mod offence;
mod ordered;
mod part_type;
mod pass;
pub mod search;
pub mod symbol;
pub mod tables;
pub mod tree;
pub mod types;
pub mod usage;
pub mod verdict;
