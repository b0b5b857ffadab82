// The two tables of a text as one value, and what is known of the name that a word is.

ghost use Rattle.std.specs.Prelude.{◌≡◌};
ghost use Rattle.symbols.specs.Symbols.{kind_in, type_in};
ghost use Rattle.analysis.specs.SymbolTable.{KindAt};
ghost use Rattle.analysis.specs.NameLines.{LineFound};
ghost use Rattle.analysis.specs.Tables.{OfName};

use crate::lines::number_of;
use crate::symbol::{NameKind, NameRecord};
use parser::table::Record;
use symbols::value_type::ValueType;

// The work table of a text, and the lines of its name table.
#[derive(Clone, Copy)]
pub struct Tables<'a> {
    pub records: &'a [Record],
    pub names: &'a [NameRecord],
}

impl Tables<'_> {
    // The line of the word's name.
    fn line_of(&self, w: usize) -> Option<NameRecord>
        ensures { OfName self.now w (λ v ss x. LineFound v ss x.letters result) }
    {
        self.names.get(number_of(self.records, w)).copied()
    }

    // What the word's name is. With no line it is a variable, as a name is of which nothing is known.
    pub fn kind_of(&self, w: usize) -> NameKind
        ensures { OfName self.now w (λ v ss x. KindAt v result (kind_in ss x.letters)) }
    {
        self.line_of(w).map_or(NameKind::Variable, |line| line.kind)
    }

    // The type of the word's name. With no line it has none, which is a case of the type.
    pub fn type_of(&self, w: usize) -> ValueType
        ensures { OfName self.now w (λ v ss x. result ≡ type_in ss x.letters) }
    {
        self.line_of(w)
            .map_or(ValueType::Untyped, |line| line.value_type)
    }
}
