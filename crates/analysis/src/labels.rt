// Labels as a set of lines of the symbol table.

ghost use Rattle.std.specs.Prelude.{◌≡◌, ℕ, ◌<◌, true, false, List, ◌++◌, ◌≢◌, slice_index_or};
ghost use Rattle.grammar.specs.Tree.{Row, Item as ItemTree};
ghost use Rattle.parser.specs.Records.{View, RowAt, ItemAt};
ghost use Rattle.symbols.specs.Occurrences.{each};
ghost use Rattle.symbols.specs.Symbols.{Symbol};
ghost use Rattle.symbols.specs.Jumps.{item_labels};
ghost use Rattle.analysis.specs.declared.symbol.NameRecord.{NameRecord};
ghost use Rattle.analysis.specs.SymbolTable.{HoldsSymbols};
ghost use Rattle.analysis.specs.LabelSets.{SmallTable, Sees};

use crate::lines::number_of;
use crate::name_table::MOST_LINES;
use crate::ordered::ordered_node;
use parser::node::Node;
use parser::table::Record;

// Which lines of the symbol table are in the set. A fixed array, since the library has no heap.
#[derive(Clone, Copy, PartialEq, Eq, Debug)]
pub struct Labels {
    pub lines: [bool; MOST_LINES],
}

impl Labels {
    // The empty set.
    pub fn new() -> Labels
        ensures { (k : ℕ) → slice_index_or result.lines k false ≡ false }
    {
        Labels {
            lines: [false; MOST_LINES],
        }
    }

    // Is line k in the set?
    pub fn contains(&self, k: usize) -> bool
        ensures { result ≡ slice_index_or self.now.lines k false }
    {
        self.lines.get(k).is_some_and(|seen| *seen)
    }

    // Puts line k into the set.
    fn insert(&mut self, k: usize)
        ensures added { k < 256 → slice_index_or self.new.lines k false ≡ true }
        ensures kept { (j : ℕ) → (j ≢ k) → slice_index_or self.new.lines j false ≡ slice_index_or self.old.lines j false }
    {
        // By index: nothing is known of the other lines after a write through `get_mut`.
        if k < MOST_LINES {
            self.lines[k] = true;
        }
    }

    // Puts the labels of the items at node i that stand in no for's body within them into the set.
    pub fn insert_open(&mut self, records: &[Record], i: usize)
        ensures { (v : View) (names : List NameRecord) (ss : List Symbol) (labels : List (List ℕ)) (t : Row ItemTree) → HoldsSymbols v records.now names ss → SmallTable ss → Sees ss self.old.lines labels → RowAt ItemAt v t i → Sees ss self.new.lines (each item_labels t ++ labels) }
    {
        match ordered_node(records, i) {
            Node::More(a, b) => {
                self.insert_open(records, b);
                self.insert_open(records, a);
            }
            Node::Labelled(w, s) => {
                self.insert_open(records, s);
                self.insert(number_of(records, w));
            }
            Node::Conditional(_, _, s) => self.insert_open(records, s),
            _ => {}
        }
    }
}
