#![tactic(auto)]

// Tables of texts and what the reader says of them: both sides of each limit, and comments in odd places.

#[cfg(test)]
mod limits;
#[cfg(test)]
mod reading;
#[cfg(test)]
mod tokens;
