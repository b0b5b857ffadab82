#![tactic(auto)]

// The stack machine: runs of checked code over any kind of figures and any roll, a given number of steps at a call.
pub mod advance;
mod branch;
mod calculate;
pub mod fault;
mod instruction;
mod operands;
pub mod prepare;
pub mod ready;
pub mod refusal;
pub mod running;
mod state;
pub mod status;
mod step;
mod transfer;
