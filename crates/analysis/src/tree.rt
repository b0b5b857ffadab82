// The nodes of a syntax tree, as a parser leaves them.

ghost use Rattle.std.specs.Prelude.{◌≡◌};
ghost use Rattle.analysis.specs.Views.{node_of};

use parser::node::Node;
use parser::table::Record;

// The node of this number. A number past the table has the empty node, as one that is not made has, so that a walk has
// one case less.
pub fn node_of(records: &[Record], i: usize) -> Node
    ensures { result ≡ node_of records.now i }
{
    records.get(i).map_or(Node::Empty, |record| record.node)
}
