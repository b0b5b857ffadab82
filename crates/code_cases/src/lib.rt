#![tactic(auto)]

// Cases of the check and of stored files, each rule at its boundaries, and of what people read of code.
#[cfg(test)]
mod codes;
#[cfg(test)]
mod files;
#[cfg(test)]
mod lines;
