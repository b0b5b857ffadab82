#![tactic(auto)]

// Tables of what reports say of a text, and of settings with the cells that they name.

#[cfg(test)]
mod refusals;
#[cfg(test)]
mod settings;
#[cfg(test)]
mod table;
#[cfg(test)]
mod text;
