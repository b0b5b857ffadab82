// How tightly operators bind.

ghost use Rattle.std.specs.Prelude.{◌≡◌};
ghost use Rattle.grammar.specs.Classes.{rank, prefix_rank, operand_rank};

use crate::operator::{Operator, Prefix};

impl Operator {
    // Those of a higher rank bind more tightly.
    pub fn rank(self) -> usize
        ensures { result ≡ rank self }
    {
        match self {
            Operator::Equivalence => 1,
            Operator::Disjunction => 2,
            Operator::Conjunction => 3,
            Operator::Additive(_) => 5,
            Operator::Multiplicative(_) => 6,
        }
    }
}

impl Prefix {
    pub fn rank(self) -> usize
        ensures { result ≡ prefix_rank self }
    {
        match self {
            Prefix::Negation => 4,
            Prefix::Signed(_) => 5,
        }
    }

    // The rank of the operand behind it: a table beside `rank`, which says how the operator itself binds; they differ at a sign,
    // whose operand is a term.
    pub fn operand_rank(self) -> usize
        ensures { result ≡ operand_rank self }
    {
        match self {
            Prefix::Negation => 4,
            Prefix::Signed(_) => 6,
        }
    }
}
