// The declarations of a text, heeded in their order: what each name is, and which declaration is one too many.

ghost use Rattle.analysis.specs.Heeding.{DeclaresName, DeclaresRow, DeclaresGroups, DeclaresItems};

use crate::declaration::Declaration;
use crate::earliest::{earlier, told};
use crate::lines::{number_of, place_of};
use crate::ordered::ordered_node;
use crate::pass::Pass;
use crate::symbol::{NameKind, NameRecord};
use parser::node::Node;
use parser::table::Record;
use symbols::value_type::ValueType;

// Heeds a declaration of the name that is word w. The two tables come apart and not as `Tables`: the lines are written here.
fn declare<P: Pass>(
    records: &[Record],
    names: &mut [NameRecord],
    w: usize,
    d: Declaration,
) -> Option<usize>
    ensures { DeclaresName P.kind records.now w d names.old names.new result }
{
    let k = number_of(records, w);
    // By index: nothing is known of the lines after a write through `get_mut`.
    if k < names.len() {
        told(P::heed(&mut names[k], d), place_of(records, w))
    } else {
        None
    }
}

// Heeds a declaration of the names at node i.
fn declare_row<P: Pass>(
    records: &[Record],
    names: &mut [NameRecord],
    i: usize,
    d: Declaration,
) -> Option<usize>
    ensures { DeclaresRow P.kind records.now i d names.old names.new result }
{
    match ordered_node(records, i) {
        Node::More(before, last) => {
            let a = declare_row::<P>(records, names, before, d);
            let b = declare_row::<P>(records, names, last, d);
            earlier(a, b)
        }
        Node::Simple(w) => declare::<P>(records, names, w, d),
        _ => None,
    }
}

// Heeds the array declarations of the groups at node i.
fn declare_groups<P: Pass>(records: &[Record], names: &mut [NameRecord], i: usize) -> Option<usize>
    ensures { DeclaresGroups P.kind records.now i names.old names.new result }
{
    match ordered_node(records, i) {
        Node::More(before, last) => {
            let a = declare_groups::<P>(records, names, before);
            let b = declare_groups::<P>(records, names, last);
            earlier(a, b)
        }
        Node::Group(row, _, low, high) => {
            let array = Declaration::Defined(NameKind::Array(low, high));
            declare_row::<P>(records, names, row, array)
        }
        _ => None,
    }
}

// Heeds the declarations of the items at node i, and tells the earliest that is one too many.
pub(crate) fn declare_all<P: Pass>(
    records: &[Record],
    names: &mut [NameRecord],
    i: usize,
) -> Option<usize>
    ensures { DeclaresItems P.kind records.now i names.old names.new result }
{
    match ordered_node(records, i) {
        Node::More(before, last) => {
            let a = declare_all::<P>(records, names, before);
            let b = declare_all::<P>(records, names, last);
            earlier(a, b)
        }
        Node::Labelled(w, body) => {
            let label = Declaration::Defined(NameKind::Label);
            let a = declare::<P>(records, names, w, label);
            let b = declare_all::<P>(records, names, body);
            earlier(a, b)
        }
        Node::Conditional(_, _, body) => declare_all::<P>(records, names, body),
        Node::Repeated(_, _, _, body) => declare_all::<P>(records, names, body),
        Node::Array(groups) => declare_groups::<P>(records, names, groups),
        Node::Switch(w, row) => {
            let switch = Declaration::Defined(NameKind::Switch(row));
            declare::<P>(records, names, w, switch)
        }
        Node::Integer(row) => {
            let integer = Declaration::Typed(ValueType::Integer);
            declare_row::<P>(records, names, row, integer)
        }
        Node::Boolean(row) => {
            let boolean = Declaration::Typed(ValueType::Boolean);
            declare_row::<P>(records, names, row, boolean)
        }
        _ => None,
    }
}
