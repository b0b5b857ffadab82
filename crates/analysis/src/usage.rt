// Rule 8: names used against what they are.

ghost use Rattle.std.specs.Prelude.{not};
ghost use Rattle.parser.specs.Records.{Named, NameAt, ExpAt, ElementAt, RowAt, ItemAt};
ghost use Rattle.symbols.specs.Occurrences.{each, in_switch, all_at, in_exp, in_element, occurrences};
ghost use Rattle.symbols.specs.Symbols.{kind_in};
ghost use Rattle.symbols.specs.Types.{told as told_at};
ghost use Rattle.symbols.specs.Rules.{suits, misused_names};
ghost use Rattle.analysis.specs.Offences.{EarliestIn};
ghost use Rattle.analysis.specs.Uses.{role_in};

use crate::earliest::{earlier, told};
use crate::lines::place_of;
use crate::name_use::{NameUse, does_suit};
use crate::ordered::ordered_node;
use crate::tables::Tables;
use parser::node::Node;

impl Tables<'_> {
    // The offence of a use of the name that word w is.
    fn name_misuse(&self, usage: NameUse, w: usize) -> Option<usize>
        ensures { EarliestIn (λ v x w. Named v w x) (λ ss x. told_at (not (suits (kind_in ss x.letters) (role_in usage))) x.place) self.now w result }
    {
        let suited = does_suit(self.kind_of(w), usage);
        told(!suited, place_of(self.records, w))
    }

    // The earliest offence of the expression at node i.
    fn exp_misuse(&self, i: usize) -> Option<usize>
        ensures { EarliestIn ExpAt (λ ss e. misused_names ss (in_exp e)) self.now i result }
    {
        match ordered_node(self.records, i) {
            Node::Literal(_, _) => None,
            Node::Simple(w) => self.name_misuse(NameUse::AsVariable, w),
            Node::Subscripted(w, a) => {
                let array = self.name_misuse(NameUse::AsElement, w);
                let subscript = self.exp_misuse(a);
                earlier(array, subscript)
            }
            Node::Prefixed(_, _, a) => self.exp_misuse(a),
            Node::Joined(_, a, b) => {
                let left = self.exp_misuse(a);
                let right = self.exp_misuse(b);
                earlier(left, right)
            }
            Node::Bracketed(_, a) => self.exp_misuse(a),
            Node::Compared(_, _, a, b) => {
                let first = self.exp_misuse(a);
                let second = self.exp_misuse(b);
                earlier(first, second)
            }
            _ => None,
        }
    }

    // The earliest offence of the elements at node i; a printed row of expressions is one of single elements. The walk of
    // `elements_offence` over another rule: one walk for both needs a third definition of what elements tell.
    fn elements_misuse(&self, i: usize) -> Option<usize>
        ensures { EarliestIn (RowAt ElementAt) (λ ss es. misused_names ss (each in_element es)) self.now i result }
    {
        match ordered_node(self.records, i) {
            Node::More(a, b) => {
                let before = self.elements_misuse(a);
                let last = self.elements_misuse(b);
                earlier(before, last)
            }
            Node::Progression(a, b, c) => {
                let from = self.exp_misuse(a);
                let step = self.exp_misuse(b);
                let limit = self.exp_misuse(c);
                let rest = earlier(step, limit);
                earlier(from, rest)
            }
            _ => self.exp_misuse(i),
        }
    }

    // The earliest offence of a switch's list of labels, at node i.
    fn labels_misuse(&self, i: usize) -> Option<usize>
        ensures { EarliestIn (RowAt NameAt) (λ ss xs. misused_names ss (all_at in_switch xs)) self.now i result }
    {
        match ordered_node(self.records, i) {
            Node::More(a, b) => {
                let before = self.labels_misuse(a);
                let last = self.labels_misuse(b);
                earlier(before, last)
            }
            Node::Simple(w) => self.name_misuse(NameUse::AsTarget, w),
            _ => None,
        }
    }

    // The earliest offence of the items at node i.
    pub fn misuse_offence(&self, i: usize) -> Option<usize>
        ensures { EarliestIn (RowAt ItemAt) (λ ss t. misused_names ss (occurrences t)) self.now i result }
    {
        match ordered_node(self.records, i) {
            Node::More(a, b) => {
                let before = self.misuse_offence(a);
                let last = self.misuse_offence(b);
                earlier(before, last)
            }
            Node::Labelled(_, s) => self.misuse_offence(s),
            Node::Conditional(_, a, s) => {
                let test = self.exp_misuse(a);
                let governed = self.misuse_offence(s);
                earlier(test, governed)
            }
            Node::Repeated(_, w, es, s) => {
                let variable = self.name_misuse(NameUse::AsVariable, w);
                let listed = self.elements_misuse(es);
                let body = self.misuse_offence(s);
                let rest = earlier(listed, body);
                earlier(variable, rest)
            }
            Node::Assigned(a, b) => {
                let left = self.exp_misuse(a);
                let right = self.exp_misuse(b);
                earlier(left, right)
            }
            Node::Go(_, w) => self.name_misuse(NameUse::AsTarget, w),
            Node::Switched(_, w, a) => {
                let selector = self.name_misuse(NameUse::AsSelector, w);
                let subscript = self.exp_misuse(a);
                earlier(selector, subscript)
            }
            Node::Input(_, a) => self.exp_misuse(a),
            Node::Printed(_, es) => self.elements_misuse(es),
            Node::Switch(_, labels) => self.labels_misuse(labels),
            _ => None,
        }
    }
}
