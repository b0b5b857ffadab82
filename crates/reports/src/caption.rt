// What a node is, in a few words.

ghost use Rattle.std.specs.Prelude.{◌≡◌, Some};
ghost use Rattle.words.specs.Reading.{Spells};
ghost use Rattle.words.specs.Token.{relation};
ghost use Rattle.grammar.specs.Classes.{operator_token};
ghost use Rattle.reports.specs.Captions.{sign_shown, operator_shown, relation_shown, prefix_shown, bound_shown};
ghost use Rattle.reports.specs.Sources.{node_shown_in};

use crate::source::Source;
use crate::worded::Worded;
use grammar::operator::{Operator, Prefix};
use parser::node::{Bound, Node};
use std::fmt;
use words::token::{Relation, Scaling, Sign};

impl Worded for Sign {
    ghost wording = { sign_shown };

    fn wording(self) -> &'static str {
        match self {
            Sign::Plus => "+",
            Sign::Minus => "-",
        }
    }
}

impl Worded for Operator {
    ghost wording = { operator_shown };

    #[tactic(auto, using(crate::proofs::Spelled::operator_spells))]
    fn wording(self) -> &'static str
        ensures words { result.now ≡ operator_shown self }
        ensures spelled { Spells result.now (operator_token self) }
    {
        match self {
            Operator::Equivalence => "eqv",
            Operator::Disjunction => "or",
            Operator::Conjunction => "and",
            Operator::Additive(s) => s.wording(),
            Operator::Multiplicative(Scaling::Times) => "*",
            Operator::Multiplicative(Scaling::Over) => "/",
        }
    }
}

impl Worded for Prefix {
    ghost wording = { prefix_shown };

    fn wording(self) -> &'static str {
        match self {
            Prefix::Negation => "not",
            Prefix::Signed(Sign::Plus) => "plus",
            Prefix::Signed(Sign::Minus) => "minus",
        }
    }
}

impl Worded for Relation {
    ghost wording = { relation_shown };

    #[tactic(auto, using(crate::proofs::Spelled::relation_spells))]
    fn wording(self) -> &'static str
        ensures words { result.now ≡ relation_shown self }
        ensures spelled { Spells result.now (relation self) }
    {
        match self {
            Relation::Less => "<",
            Relation::AtMost => "<=",
            Relation::Equal => "=",
            Relation::Unequal => "/=",
            Relation::AtLeast => ">=",
            Relation::More => ">",
        }
    }
}

// A bound with its sign.
#[derive(Clone, Copy)]
struct SignedBound(Bound);

impl fmt::Display for SignedBound {
    ghost output = { λ b. Some (bound_shown b.0) };

    fn fmt<W: fmt::Write>(&self, f: &mut fmt::Formatter<W>) -> fmt::Result {
        let bound = self.0;
        write!(f, "{}{}", bound.sign.wording(), bound.size)
    }
}

// A node of a source in a few words.
#[derive(Clone, Copy)]
pub struct Caption<'a> {
    pub source: Source<'a>,
    pub node: Node,
}

impl fmt::Display for Caption<'_> {
    ghost output = { λ c. Some (node_shown_in c.source c.node) };

    fn fmt<W: fmt::Write>(&self, f: &mut fmt::Formatter<W>) -> fmt::Result {
        let source = self.source;
        match self.node {
            Node::Literal(n, _) => write!(f, "number {n}"),
            Node::Simple(w) => write!(f, "name {}", source.name(w)),
            Node::Subscripted(w, _) => write!(f, "element of {}", source.name(w)),
            Node::Prefixed(prefix, _, _) => f.write_str(prefix.wording()),
            Node::Joined(operator, _, _) => f.write_str(operator.wording()),
            Node::Bracketed(_, _) => f.write_str("brackets"),
            Node::Compared(relation, _, _, _) => f.write_str(relation.wording()),
            Node::Progression(_, _, _) => f.write_str("progression"),
            Node::Labelled(w, _) => write!(f, "label {}", source.name(w)),
            Node::Conditional(_, _, _) => f.write_str("if"),
            Node::Repeated(_, w, _, _) => write!(f, "for {}", source.name(w)),
            Node::Assigned(_, _) => f.write_str(":="),
            Node::Go(_, w) => write!(f, "go to {}", source.name(w)),
            Node::Switched(_, w, _) => write!(f, "go to by switch {}", source.name(w)),
            Node::Input(_, _) => f.write_str("in"),
            Node::Printed(_, _) => f.write_str("print"),
            Node::Stop(_) => f.write_str("stop"),
            Node::Comment => f.write_str("comment"),
            Node::Integer(_) => f.write_str("integer"),
            Node::Boolean(_) => f.write_str("boolean"),
            Node::Array(_) => f.write_str("array"),
            Node::Group(_, _, low, high) => {
                write!(f, "bounds {} : {}", SignedBound(low), SignedBound(high))
            }
            Node::Switch(w, _) => write!(f, "switch {}", source.name(w)),
            Node::Empty | Node::More(_, _) => f.write_str("nothing"),
        }
    }
}
