// A word of a text.

use crate::token::Token;

// A token, and the place of its first byte.
#[derive(Clone, Copy, PartialEq, Eq, Debug)]
pub struct Word {
    pub token: Token,
    pub place: usize,
}
