// The nodes of a syntax tree. A node has its parts by their numbers in the table, names by the numbers of their words,
// and the places that messages tell; its parts stand before it. The nodes stand in the lent work table, and `Empty` where
// none was made, since the library has no heap: so they are numbers and no boxes.

use grammar::operator::{Operator, Prefix};
use words::token::{Relation, Sign};

// A bound of an array's subscripts.
#[derive(Clone, Copy, PartialEq, Eq, Debug)]
pub struct Bound {
    pub sign: Sign,
    pub size: u32,
}

#[derive(Clone, Copy, PartialEq, Eq, Debug)]
pub enum Node {
    Empty,
    // A number: its value and its place.
    Literal(u32, usize),
    // A name: its word.
    Simple(usize),
    // An array's element: the name's word, the subscript.
    Subscripted(usize, usize),
    // An operator before its operand: its place, the operand.
    Prefixed(Prefix, usize, usize),
    Joined(Operator, usize, usize),
    // A bracket: the place of its `(`, the expression.
    Bracketed(usize, usize),
    // A comparison in brackets: the place of its `(`, both sides.
    Compared(Relation, usize, usize, usize),
    // From, step and limit of a for's element.
    Progression(usize, usize, usize),
    // A row of parts: those before the last, and the last.
    More(usize, usize),
    // The label's word, the statement.
    Labelled(usize, usize),
    // The place of `if`, the condition, the statement.
    Conditional(usize, usize, usize),
    // The place of `for`, the name's word, the elements, the statement.
    Repeated(usize, usize, usize, usize),
    // Where the figure goes, the figure.
    Assigned(usize, usize),
    // The place of `go`, the label's word.
    Go(usize, usize),
    // The place of `go`, the switch's word, the subscript.
    Switched(usize, usize, usize),
    // The place of `in`, where the figure goes.
    Input(usize, usize),
    // The place of `print`, the expressions.
    Printed(usize, usize),
    // The place of `stop`.
    Stop(usize),
    Comment,
    // The names of a declaration.
    Integer(usize),
    Boolean(usize),
    // The groups of an array declaration.
    Array(usize),
    // The names of a group, the place of its `[`, its bounds.
    Group(usize, usize, Bound, Bound),
    // The switch's word, its labels.
    Switch(usize, usize),
}
