// A text that is accepted: the node of its tree's root, how many words it has, how many lines its symbol table has, and
// how many cells, named and hidden.
#[derive(Clone, Copy, PartialEq, Eq, Debug)]
pub struct Accepted {
    pub root: usize,
    pub words: usize,
    pub lines: usize,
    pub named: usize,
    pub hidden: usize,
}
