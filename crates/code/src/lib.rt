#![tactic(auto)]

// Stack code: its operations, its check, and its stored form.
pub mod check;
pub mod checked;
pub mod descriptor;
pub mod laws;
pub mod operations;
pub mod refusals;
pub mod sizes;
pub mod stored;
