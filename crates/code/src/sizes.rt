// The sizes that code states of itself.
ghost use Rattle.std.specs.Prelude.{Some};
ghost use Rattle.code.specs.Names.{sizes_text};

use std::fmt;

#[derive(Clone, Copy, PartialEq, Eq, Debug)]
pub struct Sizes {
    // n: operations, from 1 to 4,096
    pub operations: u32,
    // v: named cells, the first of all cells
    pub named: u32,
    // m: cells, at most 2,048
    pub cells: u32,
    // D: figures that may lie on the operand stack at once, at most 256
    pub depth: u32,
}

impl fmt::Display for Sizes {
    ghost output = { λ s. Some (sizes_text s) };

    fn fmt<W: fmt::Write>(&self, f: &mut fmt::Formatter<W>) -> fmt::Result {
        let (n, v, m, d) = (self.operations, self.named, self.cells, self.depth);
        write!(f, "n {n}, named cells {v}, cells {m}, depth {d}")
    }
}
