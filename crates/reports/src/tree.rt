// The lines of a tree.

ghost use Rattle.std.specs.Prelude.{◌≡◌, ◌*◌, ◌++◌, length, replicate, IfOk, Some};
ghost use Rattle.std.specs.List.{filter_map};
ghost use Rattle.std.specs.String.{string_bytes};
ghost use Rattle.reports.specs.Outlines.{parts_of};
ghost use Rattle.reports.specs.Sources.{outline_in, OutlineLawIn};

use crate::caption::Caption;
use crate::source::Source;
use analysis::tree::node_of;
use parser::node::Node;
use std::alloc::AllocError;
use std::fmt;

// The parts of a node, in the order of the text.
// The crate analysis lists the same parts, of which it asks only whether they stand before their node.
fn parts(node: Node) -> [Option<usize>; 3]
    ensures places { length result ≡ 3 }
    ensures parts { filter_map (λ o. o) result ≡ parts_of node }
{
    match node {
        Node::Subscripted(_, a)
        | Node::Prefixed(_, _, a)
        | Node::Bracketed(_, a)
        | Node::Labelled(_, a)
        | Node::Switched(_, _, a)
        | Node::Input(_, a)
        | Node::Printed(_, a)
        | Node::Integer(a)
        | Node::Boolean(a)
        | Node::Array(a)
        | Node::Group(a, _, _, _)
        | Node::Switch(_, a) => [Some(a), None, None],
        Node::Joined(_, a, b)
        | Node::Compared(_, _, a, b)
        | Node::More(a, b)
        | Node::Conditional(_, a, b)
        | Node::Repeated(_, _, a, b)
        | Node::Assigned(a, b) => [Some(a), Some(b), None],
        Node::Progression(a, b, c) => [Some(a), Some(b), Some(c)],
        _ => [None, None, None],
    }
}

// Two blanks for each level.
#[derive(Clone, Copy)]
struct Indent(usize);

impl fmt::Display for Indent {
    ghost output = { λ d. Some (replicate (2 * d.0) 32) };

    fn fmt<W: fmt::Write>(&self, f: &mut fmt::Formatter<W>) -> fmt::Result {
        f.write_repeated("  ", self.0)
    }
}

// Adds the lines of the tree at node i, indented by depth. The parts of a row stand side by side. Nodes go by their
// numbers, since the tree lies in the work table, which is lent.
// It adds to a text and is no `Display`: it calls itself for each part, and all lines go to the one text.
#[tactic(auto, using(crate::proofs::OutlineSteps::outline_step))]
pub fn outline(
    out: &mut String,
    source: Source<'_>,
    i: usize,
    depth: usize,
) -> Result<(), AllocError>
    ensures law { OutlineLawIn source.entry }
    ensures lines { IfOk result (λ u. string_bytes out.new ≡ string_bytes out.old ++ outline_in source.entry depth i) }
{
    let node = node_of(source.records, i);
    let below = match node {
        Node::More(_, _) => depth,
        _ => {
            let indent = Indent(depth);
            let caption = Caption { source, node };
            writeln!(out, "{indent}{caption}")?;
            depth.saturating_add(1)
        }
    };
    // One test for each part: no lemma tells what `flatten` yields of an array of options.
    for part in parts(node) {
        if let Some(p) = part
            && p < i
        {
            outline(out, source, p, below)?;
        }
    }
    Ok(())
}
