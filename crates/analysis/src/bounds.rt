// Rule 11: the bounds of arrays.

ghost use Rattle.std.specs.Prelude.{◌≡◌};
ghost use Rattle.grammar.specs.Tree.{Row, Group as GroupTree, Item as ItemTree};
ghost use Rattle.parser.specs.Records.{View, bound_in, GroupAt, RowAt, ItemAt};
ghost use Rattle.symbols.specs.Occurrences.{each};
ghost use Rattle.symbols.specs.Symbols.{bound_value};
ghost use Rattle.symbols.specs.Rules.{bounds_ok, group_bounds, item_bounds};
ghost use Rattle.analysis.specs.Earliest.{earliest_of};
ghost use Rattle.parser.specs.Records.{nodes as nodes_of};

use crate::earliest::{earlier, told};
use crate::ordered::ordered_node;
use crate::tree::node_of;
use parser::node::{Bound, Node};
use parser::table::Record;
use words::token::Sign;

// The number that a bound is. No conversion of the bound's own: the number is defined in the crate symbols, which the
// parser, whose type a bound is, does not use.
pub fn value(b: Bound) -> i64
    ensures { result ≡ bound_value (bound_in b) }
{
    match b.sign {
        Sign::Plus => i64::from(b.size),
        Sign::Minus => -i64::from(b.size),
    }
}

// No bound lies farther from 0.
const FARTHEST_BOUND: u32 = 9_999;

// Are the bounds in order, and within 9,999 either way?
fn are_bounds_ok(low: Bound, high: Bound) -> bool
    ensures { result ≡ bounds_ok (bound_in low) (bound_in high) }
{
    value(low) <= value(high) && low.size <= FARTHEST_BOUND && high.size <= FARTHEST_BOUND
}

// The offence of the group at node i.
fn group_offence(records: &[Record], i: usize) -> Option<usize>
    ensures { (v : View) (g : GroupTree) → v.nodes ≡ nodes_of records.now → GroupAt v g i → result ≡ earliest_of (group_bounds g) }
{
    match node_of(records, i) {
        Node::Group(_, bracket, low, high) => told(!are_bounds_ok(low, high), bracket),
        _ => None,
    }
}

// The earliest offence of the groups at node i.
fn groups_offence(records: &[Record], i: usize) -> Option<usize>
    ensures { (v : View) (gs : Row GroupTree) → v.nodes ≡ nodes_of records.now → RowAt GroupAt v gs i → result ≡ earliest_of (each group_bounds gs) }
{
    match ordered_node(records, i) {
        Node::More(before, last) => earlier(
            groups_offence(records, before),
            group_offence(records, last),
        ),
        _ => group_offence(records, i),
    }
}

// The earliest offence of the items at node i.
pub fn bounds_offence(records: &[Record], i: usize) -> Option<usize>
    ensures { (v : View) (t : Row ItemTree) → v.nodes ≡ nodes_of records.now → RowAt ItemAt v t i → result ≡ earliest_of (each item_bounds t) }
{
    match ordered_node(records, i) {
        Node::More(before, last) => earlier(
            bounds_offence(records, before),
            bounds_offence(records, last),
        ),
        Node::Array(groups) => groups_offence(records, groups),
        _ => None,
    }
}
