// The work table and the parser over it.

ghost use Rattle.std.specs.Prelude.{◌≤◌, length};

use crate::node::Node;
use words::table::WordSlot;
use words::word::Word;

// A record of the work table: a word of the text, the line of the symbol table that the word's name has, where it is a
// name, and a node of the tree. Words and nodes share the lent records, since the library has no heap.
#[derive(Clone, Copy)]
pub struct Record {
    pub word: Word,
    pub symbol: usize,
    pub node: Node,
}

impl WordSlot for Record {
    ghost word = { λ r. r.word };

    fn of_word(w: Word) -> Record {
        Record {
            word: w,
            symbol: 0,
            node: Node::Empty,
        }
    }
}

// The text, the table with its words first, how many words there are, how many are taken, and how many nodes are made.
// The words stand in the table, no more are taken than there are, and no more nodes are made than words were taken.
#[derive(Drop)]
pub(crate) struct Parser<'a> {
    pub text: &'a [u8],
    pub table: &'a mut [Record],
    // The words take the first `count` records: the lent table is longer, and goes back whole to the caller.
    pub count: usize,
    pub at: usize,
    pub made: usize,
    pub ghost within: { at ≤ count },
    pub ghost room: { count ≤ length table.now },
    pub ghost thrift: { made ≤ at },
}
