// Rule 10: go tos into a for's body from outside.

ghost use Rattle.std.specs.Prelude.{◌≡◌, ℕ, List};
ghost use Rattle.grammar.specs.Tree.{Row, Name as NameTree, Item as ItemTree};
ghost use Rattle.parser.specs.Records.{View, Named, NameAt, RowAt, ItemAt};
ghost use Rattle.symbols.specs.Occurrences.{each};
ghost use Rattle.symbols.specs.Symbols.{Symbol, kind_in};
ghost use Rattle.symbols.specs.Jumps.{leads_inside, some_name, switch_leads, item_jumps, wrong_jumps};
ghost use Rattle.analysis.specs.Earliest.{earliest_of};
ghost use Rattle.analysis.specs.Tables.{Holds};
ghost use Rattle.analysis.specs.NameLines.{HoldsPlaces};
ghost use Rattle.analysis.specs.LabelSets.{SmallTable, Sees};

use crate::earliest::{earlier, told};
use crate::labels::Labels;
use crate::lines::{number_of, place_of};
use crate::name_use::{NameUse, does_suit};
use crate::ordered::ordered_node;
use crate::symbol::NameKind;
use crate::tables::Tables;
use parser::node::Node;

impl Tables<'_> {
    // Is word w a label that is not seen?
    fn does_lead_inside(&self, seen: &Labels, w: usize) -> bool
        ensures { (v : View) (ss : List Symbol) (labels : List (List ℕ)) (x : NameTree) → Holds v self.now ss → Sees ss seen.now.lines labels → Named v w x → result ≡ leads_inside ss labels x }
    {
        let label = does_suit(self.kind_of(w), NameUse::AsTarget);
        let visible = seen.contains(number_of(self.records, w));
        label && !visible
    }

    // Is any of the names at node i a label that is not seen?
    fn does_any_lead_inside(&self, seen: &Labels, i: usize) -> bool
        ensures { (v : View) (ss : List Symbol) (labels : List (List ℕ)) (xs : Row NameTree) → Holds v self.now ss → Sees ss seen.now.lines labels → RowAt NameAt v xs i → result ≡ some_name (leads_inside ss labels) xs }
    {
        match ordered_node(self.records, i) {
            Node::More(a, b) => {
                let before = self.does_any_lead_inside(seen, a);
                let last = self.does_any_lead_inside(seen, b);
                before || last
            }
            Node::Simple(w) => self.does_lead_inside(seen, w),
            _ => false,
        }
    }

    // Is word w a switch with a label that is not seen?
    fn does_switch_lead_inside(&self, seen: &Labels, w: usize) -> bool
        ensures { (v : View) (ss : List Symbol) (labels : List (List ℕ)) (x : NameTree) → Holds v self.now ss → Sees ss seen.now.lines labels → Named v w x → result ≡ switch_leads (leads_inside ss labels) (kind_in ss x.letters) }
    {
        match self.kind_of(w) {
            NameKind::Switch(i) => self.does_any_lead_inside(seen, i),
            _ => false,
        }
    }

    // The earliest offence of the items at node i, where the labels given are seen.
    fn jump_offence_seeing(&self, seen: &Labels, i: usize) -> Option<usize>
        ensures { (v : View) (ss : List Symbol) (labels : List (List ℕ)) (t : Row ItemTree) → Holds v self.now ss → HoldsPlaces v self.now.records.now → SmallTable ss → Sees ss seen.now.lines labels → RowAt ItemAt v t i → result ≡ earliest_of (each (item_jumps ss labels) t) }
    {
        match ordered_node(self.records, i) {
            Node::More(a, b) => {
                let before = self.jump_offence_seeing(seen, a);
                let last = self.jump_offence_seeing(seen, b);
                earlier(before, last)
            }
            Node::Labelled(_, s) => self.jump_offence_seeing(seen, s),
            Node::Conditional(_, _, s) => self.jump_offence_seeing(seen, s),
            Node::Repeated(_, _, _, s) => {
                let mut inner = *seen;
                inner.insert_open(self.records, s);
                self.jump_offence_seeing(&inner, s)
            }
            Node::Go(_, w) => {
                let leads = self.does_lead_inside(seen, w);
                told(leads, place_of(self.records, w))
            }
            Node::Switched(_, w, _) => {
                let leads = self.does_switch_lead_inside(seen, w);
                told(leads, place_of(self.records, w))
            }
            _ => None,
        }
    }

    // The earliest offence of the items at node i.
    pub fn jump_offence(&self, i: usize) -> Option<usize>
        ensures { (v : View) (ss : List Symbol) (t : Row ItemTree) → Holds v self.now ss → HoldsPlaces v self.now.records.now → SmallTable ss → RowAt ItemAt v t i → result ≡ earliest_of (wrong_jumps ss t) }
    {
        let mut outer = Labels::new();
        outer.insert_open(self.records, i);
        self.jump_offence_seeing(&outer, i)
    }
}
