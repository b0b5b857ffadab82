// The cells of names.

ghost use Rattle.std.specs.Prelude.{◌≡◌, Some};
ghost use Rattle.reports.specs.Cells.{line_cells, figures_in, cell_shown};
ghost use Rattle.reports.specs.Sources.{name_shown_in};

use crate::part::part;
use crate::source::Source;
use analysis::bounds::value;
use analysis::cells::extent;
use analysis::symbol::{NameKind, NameRecord};
use std::fmt;

// The number of a name's first cell, how many cells it has, and the subscript of the first.
#[derive(Clone, Copy, PartialEq, Eq, Debug)]
pub struct Cells {
    pub first: usize,
    pub count: usize,
    pub low: i64,
}

// The cells of a line of the symbol table; a label or a switch has none.
pub fn cells_of(line: NameRecord) -> Option<Cells>
    ensures { result ≡ line_cells line }
{
    match line.kind {
        NameKind::Label | NameKind::Switch(_) => None,
        NameKind::Array(low, high) => Some(Cells {
            first: line.first,
            count: extent(low, high),
            low: value(low),
        }),
        NameKind::Variable => Some(Cells {
            first: line.first,
            count: 1,
            low: 0,
        }),
    }
}

// What a name's cells hold, the lowest subscript first, out of all cells.
pub fn figures_of<'a, F>(cells: Cells, all: &'a [F]) -> &'a [F]
    ensures { result.now ≡ figures_in cells all.now }
{
    part(all, cells.first, cells.count)
}

// How a report names a cell: `x`, or `a[-2]` with an array's subscript.
#[derive(Clone, Copy)]
pub struct CellLabel<'a> {
    pub source: Source<'a>,
    pub line: NameRecord,
    pub subscript: i64,
}

impl fmt::Display for CellLabel<'_> {
    ghost output = { λ c. Some (cell_shown (name_shown_in c.source c.line.word) c.line.kind c.subscript) };

    fn fmt<W: fmt::Write>(&self, f: &mut fmt::Formatter<W>) -> fmt::Result {
        let name = self.source.name(self.line.word);
        let subscript = self.subscript;
        match self.line.kind {
            NameKind::Array(_, _) => write!(f, "{name}[{subscript}]"),
            NameKind::Label | NameKind::Switch(_) | NameKind::Variable => write!(f, "{name}"),
        }
    }
}
