// The symbol table: a record for each name of a text, in the order of first appearance.

use parser::node::Bound;
use symbols::value_type::ValueType;

// What a name is.
#[derive(Clone, Copy, PartialEq, Eq, Debug)]
pub enum NameKind {
    Label,
    // The node of its row of labels.
    Switch(usize),
    // Its bounds: two side by side and no pair of them, as the definition of the tree has them.
    Array(Bound, Bound),
    Variable,
}

// A line of the symbol table: the word where the name first appears, what it is, its type, its first cell, the place
// in the code of a label or of a switch's table, and whether it is defined as a label or a switch anywhere in the text.
#[derive(Clone, Copy, PartialEq, Eq, Debug)]
pub struct NameRecord {
    pub word: usize,
    pub kind: NameKind,
    pub value_type: ValueType,
    pub first: usize,
    pub place: usize,
    pub target: bool,
}
