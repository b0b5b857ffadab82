// The symbol table of a text, a line for each name, in columns.

ghost use Rattle.std.specs.Prelude.{◌≡◌, IfOk, Some};
ghost use Rattle.std.specs.String.{string_bytes};
ghost use Rattle.reports.specs.SymbolLines.{kind_shown, type_shown, cells_shown};
ghost use Rattle.reports.specs.Sources.{symbol_shown_in, table_shown_in};

use crate::cells::{Cells, cells_of};
use crate::source::Source;
use crate::worded::Worded;
use analysis::symbol::{NameKind, NameRecord};
use std::alloc::{AllocError, Global};
use std::fmt;
use symbols::value_type::ValueType;

impl Worded for NameKind {
    ghost wording = { kind_shown };

    fn wording(self) -> &'static str {
        match self {
            NameKind::Label => "label",
            NameKind::Switch(_) => "switch",
            NameKind::Array(_, _) => "array",
            NameKind::Variable => "variable",
        }
    }
}

impl Worded for ValueType {
    ghost wording = { type_shown };

    fn wording(self) -> &'static str {
        match self {
            ValueType::Untyped => "none",
            ValueType::Integer => "integer",
            ValueType::Boolean => "boolean",
        }
    }
}

// First cell, count and low bound in columns; of a name without cells, dashes.
#[derive(Clone, Copy)]
struct CellColumns(Option<Cells>);

impl fmt::Display for CellColumns {
    ghost output = { λ c. Some (cells_shown c.0) };

    fn fmt<W: fmt::Write>(&self, f: &mut fmt::Formatter<W>) -> fmt::Result {
        match self.0 {
            Some(Cells { first, count, low }) => write!(f, "{first:>5}  {count:>5}  {low:>5}"),
            None => write!(f, "{:>5}  {:>5}  {:>5}", "-", 0, "-"),
        }
    }
}

// The lines of a source's names.
#[derive(Clone, Copy)]
pub struct SymbolTable<'a> {
    pub source: Source<'a>,
    pub lines: &'a [NameRecord],
}

impl SymbolTable<'_> {
    // The heads of the columns, and the lines. Made in memory, as each line is.
    pub fn columns(self, heap: Global) -> Result<String, AllocError>
        ensures { IfOk result (λ s. string_bytes s ≡ table_shown_in self.entry) }
    {
        let mut out = format!(in heap;
            "{:<16}  {:<8}  {:<7}  {:>5}  {:>5}  {:>5}\n",
            "name", "kind", "type", "first", "count", "low"
        )?;
        for line in self.lines {
            let words = symbol_line(heap, self.source, *line)?;
            out.push_str(words.as_str())?;
        }
        Ok(out)
    }
}

// A line of the table in words: name, kind, type, first cell, count of cells, low bound.
pub fn symbol_line(heap: Global, source: Source<'_>, line: NameRecord) -> Result<String, AllocError>
    ensures { IfOk result (λ s. string_bytes s ≡ symbol_shown_in source.entry line) }
{
    // A text: a value is filled up by `pad`, which takes a text, and a name's letters are bytes.
    let name = source.name_text(heap, line.word)?;
    let kind = line.kind.wording();
    let value_type = line.value_type.wording();
    let cells = CellColumns(cells_of(line));
    format!(in heap; "{name:<16}  {kind:<8}  {value_type:<7}  {cells}\n")
}
