// Rule 9: parts that are not of the wanted type.

ghost use Rattle.std.specs.Prelude.{◌≡◌, List};
ghost use Rattle.grammar.specs.Tree.{Exp, first_byte, Variable as VariableTree};
ghost use Rattle.parser.specs.Records.{View, nodes as nodes_of, Named, ExpAt, VariableAt, ElementAt, RowAt, ItemAt};
ghost use Rattle.symbols.specs.Occurrences.{each};
ghost use Rattle.symbols.specs.Symbols.{Symbol};
ghost use Rattle.symbols.specs.Types.{told as told_at, differs as types_differ, name_type, variable_type, exp_offences, element_offences, wrong_types};
ghost use Rattle.analysis.specs.Earliest.{earliest_of};
ghost use Rattle.analysis.specs.Tables.{Holds, OfName};
ghost use Rattle.analysis.specs.NameLines.{HoldsPlaces};
ghost use Rattle.analysis.specs.Offences.{EarliestIn};
ghost use Rattle.analysis.specs.PartTypes.{part_in};

use crate::earliest::{earlier, told};
use crate::lines::place_of;
use crate::ordered::ordered_node;
use crate::part_type::PartType;
use crate::tables::Tables;
use parser::node::Node;

impl Tables<'_> {
    // The type of the name that word w is.
    fn name_type(&self, w: usize) -> PartType
        ensures { OfName self.now w (λ v ss x. part_in result ≡ name_type ss x) }
    {
        PartType::from(self.type_of(w))
    }

    // The offence of the name that word w is.
    fn name_offence(&self, want: PartType, w: usize) -> Option<usize>
        ensures { EarliestIn (λ v x w. Named v w x) (λ ss x. told_at (types_differ (part_in want) (name_type ss x)) x.place) self.now w result }
    {
        told(want.differs(self.name_type(w)), place_of(self.records, w))
    }

    // The place of the first byte of the expression at node i.
    fn first_byte(&self, i: usize) -> usize
        ensures { (v : View) (e : Exp) → v.nodes ≡ nodes_of self.now.records.now → HoldsPlaces v self.now.records.now → ExpAt v e i → result ≡ first_byte e }
    {
        match ordered_node(self.records, i) {
            Node::Literal(_, p) => p,
            Node::Simple(w) => place_of(self.records, w),
            Node::Subscripted(w, _) => place_of(self.records, w),
            Node::Prefixed(_, p, _) => p,
            Node::Joined(_, a, _) => self.first_byte(a),
            Node::Bracketed(p, _) => p,
            Node::Compared(_, p, _, _) => p,
            _ => 0,
        }
    }

    // An offence that is told at the first byte of the expression at node i. Written out: with `then` and a closure the
    // equation is not proved.
    fn told_at_first_byte(&self, offends: bool, i: usize) -> Option<usize>
        ensures { (v : View) (e : Exp) → v.nodes ≡ nodes_of self.now.records.now → HoldsPlaces v self.now.records.now → ExpAt v e i → result ≡ earliest_of (told_at offends (first_byte e)) }
    {
        if offends {
            Some(self.first_byte(i))
        } else {
            None
        }
    }

    // The earliest offence of the expression at node i.
    fn exp_offence(&self, want: PartType, i: usize) -> Option<usize>
        ensures { EarliestIn ExpAt (λ ss. exp_offences ss (part_in want)) self.now i result }
    {
        match ordered_node(self.records, i) {
            Node::Literal(n, p) => told(want.does_number_differ(n), p),
            Node::Simple(w) => self.name_offence(want, w),
            Node::Subscripted(w, a) => {
                let array = self.name_offence(want, w);
                let subscript = self.exp_offence(PartType::Arithmetic, a);
                earlier(array, subscript)
            }
            Node::Prefixed(o, p, a) => {
                let t = PartType::from(o);
                let sign = told(want.differs(t), p);
                let operand = self.exp_offence(t, a);
                earlier(sign, operand)
            }
            Node::Joined(o, a, b) => {
                let u = PartType::from(o);
                let row = self.told_at_first_byte(want.differs(u), a);
                let left = self.exp_offence(u, a);
                let right = self.exp_offence(u, b);
                let operands = earlier(left, right);
                earlier(row, operands)
            }
            Node::Bracketed(_, a) => self.exp_offence(want, a),
            Node::Compared(_, p, a, b) => {
                let bracket = told(want.differs(PartType::TruthValue), p);
                let first = self.exp_offence(PartType::Arithmetic, a);
                let second = self.exp_offence(PartType::Arithmetic, b);
                let sides = earlier(first, second);
                earlier(bracket, sides)
            }
            _ => None,
        }
    }

    // The earliest offence of the elements at node i; a printed row of expressions is one of single elements.
    fn elements_offence(&self, i: usize) -> Option<usize>
        ensures { EarliestIn (RowAt ElementAt) (λ ss. each (element_offences ss)) self.now i result }
    {
        match ordered_node(self.records, i) {
            Node::More(a, b) => {
                let before = self.elements_offence(a);
                let last = self.elements_offence(b);
                earlier(before, last)
            }
            Node::Progression(a, b, c) => {
                let from = self.exp_offence(PartType::Arithmetic, a);
                let step = self.exp_offence(PartType::Arithmetic, b);
                let limit = self.exp_offence(PartType::Arithmetic, c);
                let rest = earlier(step, limit);
                earlier(from, rest)
            }
            _ => self.exp_offence(PartType::Arithmetic, i),
        }
    }

    // The type of the variable at node i.
    fn variable_type(&self, i: usize) -> PartType
        ensures { (v : View) (ss : List Symbol) (y : VariableTree) → Holds v self.now ss → VariableAt v y i → part_in result ≡ variable_type ss y }
    {
        match ordered_node(self.records, i) {
            Node::Simple(w) => self.name_type(w),
            Node::Subscripted(w, _) => self.name_type(w),
            _ => PartType::Arithmetic,
        }
    }

    // The earliest offence of the items at node i.
    pub fn type_offence(&self, i: usize) -> Option<usize>
        ensures { EarliestIn (RowAt ItemAt) wrong_types self.now i result }
    {
        match ordered_node(self.records, i) {
            Node::More(a, b) => {
                let before = self.type_offence(a);
                let last = self.type_offence(b);
                earlier(before, last)
            }
            Node::Labelled(_, s) => self.type_offence(s),
            Node::Conditional(_, a, s) => {
                let test = self.exp_offence(PartType::TruthValue, a);
                let governed = self.type_offence(s);
                earlier(test, governed)
            }
            Node::Repeated(_, w, es, s) => {
                let variable = self.name_offence(PartType::Arithmetic, w);
                let listed = self.elements_offence(es);
                let body = self.type_offence(s);
                let rest = earlier(listed, body);
                earlier(variable, rest)
            }
            Node::Assigned(a, b) => {
                let t = self.variable_type(a);
                let left = self.exp_offence(t, a);
                let right = self.exp_offence(t, b);
                earlier(left, right)
            }
            Node::Switched(_, _, a) => self.exp_offence(PartType::Arithmetic, a),
            Node::Input(_, a) => self.exp_offence(PartType::Arithmetic, a),
            Node::Printed(_, es) => self.elements_offence(es),
            _ => None,
        }
    }
}
