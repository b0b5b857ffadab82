// The operators of expressions.

use words::token::{Scaling, Sign};

// An operator between two operands: `eqv`, `or`, `and`, a sign, `*` or `/`.
#[derive(Clone, Copy, PartialEq, Eq, Debug)]
pub enum Operator {
    Equivalence,
    Disjunction,
    Conjunction,
    Additive(Sign),
    Multiplicative(Scaling),
}

// An operator before its operand: `not`, or a sign.
#[derive(Clone, Copy, PartialEq, Eq, Debug)]
pub enum Prefix {
    Negation,
    Signed(Sign),
}
