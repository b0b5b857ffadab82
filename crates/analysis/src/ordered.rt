// Nodes whose parts stand before them, over which a walk ends. Each walk takes the step over a row, `Node::More`, by
// itself: a function for that step would be given the walk as a closure, and be no shorter.

ghost use Rattle.std.specs.Prelude.{◌≡◌};
ghost use Rattle.analysis.specs.Views.{node_of};
ghost use Rattle.analysis.specs.Ordered.{are_before, ordered, Before};

use crate::tree::node_of;
use parser::node::Node;
use parser::table::Record;

// Do the parts of the node stand before number i? An answer for each node, and no list of its parts, of which a walk asks
// no more.
fn are_parts_before(node: Node, i: usize) -> bool
    ensures { result ≡ are_before node i }
{
    match node {
        Node::Empty | Node::Literal(_, _) | Node::Simple(_) => true,
        Node::Go(_, _) | Node::Stop(_) | Node::Comment => true,
        Node::Subscripted(_, a) | Node::Prefixed(_, _, a) | Node::Bracketed(_, a) => a < i,
        Node::Labelled(_, a) | Node::Switched(_, _, a) | Node::Switch(_, a) => a < i,
        Node::Input(_, a) | Node::Printed(_, a) | Node::Group(a, _, _, _) => a < i,
        Node::Integer(a) | Node::Boolean(a) | Node::Array(a) => a < i,
        Node::Joined(_, a, b) | Node::Compared(_, _, a, b) => a < i && b < i,
        Node::More(a, b) | Node::Assigned(a, b) => a < i && b < i,
        Node::Conditional(_, a, b) | Node::Repeated(_, _, a, b) => a < i && b < i,
        Node::Progression(a, b, c) => a < i && b < i && c < i,
    }
}

// The node of this number, if its parts stand before it; otherwise none. Walks are lent the records alone where they look
// at nothing else.
pub fn ordered_node(records: &[Record], i: usize) -> Node
    ensures is { result ≡ ordered (node_of records.now i) i }
    ensures before { Before result i }
{
    let node = node_of(records, i);
    if are_parts_before(node, i) {
        node
    } else {
        Node::Empty
    }
}
