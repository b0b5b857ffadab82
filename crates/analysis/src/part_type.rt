// The two types of parts of expressions.

ghost use Rattle.std.specs.Prelude.{◌≡◌};
ghost use Rattle.symbols.specs.Types.{differs as types_differ, number_differs, part_type, operator_type, prefix_type};
ghost use Rattle.analysis.specs.PartTypes.{part_in};

use grammar::operator::{Operator, Prefix};
use symbols::value_type::ValueType;

#[derive(Clone, Copy, PartialEq, Eq, Debug)]
pub enum PartType {
    Arithmetic,
    TruthValue,
}

impl PartType {
    // Is a part of another type than this, which is wanted? `!=` by a name, whose clause is in the words of the rule.
    pub fn differs(self, t: PartType) -> bool
        ensures { result ≡ types_differ (part_in self) (part_in t) }
    {
        self != t
    }

    // Is a number not of this type, which is wanted?
    pub fn does_number_differ(self, n: u32) -> bool
        ensures { result ≡ number_differs (part_in self) n }
    {
        self == PartType::TruthValue && n > 1
    }
}

// The type of a variable that is declared so.
impl From<ValueType> for PartType {
    ghost from_gives = { λ t r. part_in r ≡ part_type t };

    fn from(t: ValueType) -> PartType {
        match t {
            ValueType::Untyped | ValueType::Integer => PartType::Arithmetic,
            ValueType::Boolean => PartType::TruthValue,
        }
    }
}

// The type of an operator's operands and result.
impl From<Operator> for PartType {
    ghost from_gives = { λ o r. part_in r ≡ operator_type o };

    fn from(o: Operator) -> PartType {
        match o {
            Operator::Equivalence => PartType::TruthValue,
            Operator::Disjunction => PartType::TruthValue,
            Operator::Conjunction => PartType::TruthValue,
            Operator::Additive(_) => PartType::Arithmetic,
            Operator::Multiplicative(_) => PartType::Arithmetic,
        }
    }
}

// The type of a prefix's operand and result.
impl From<Prefix> for PartType {
    ghost from_gives = { λ o r. part_in r ≡ prefix_type o };

    fn from(o: Prefix) -> PartType {
        match o {
            Prefix::Negation => PartType::TruthValue,
            Prefix::Signed(_) => PartType::Arithmetic,
        }
    }
}
