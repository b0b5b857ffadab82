// A text with a name of each kind, the records of its names, and its symbol table.

use analysis::symbol::{NameKind, NameRecord};
use parser::node::{Bound, Node};
use parser::table::Record;
use reports::source::Source;
use reports::symbol_table::SymbolTable;
use symbols::value_type::ValueType;
use words::token::{Sign, Token};
use words::word::Word;

const TEXT: &[u8] = b"array(rate[-2:1]); boolean(done); switch next := (more); more: x := rate[-1]";

fn name_record(place: usize, length: usize, symbol: usize) -> Record {
    Record {
        word: Word {
            token: Token::Name(length),
            place,
        },
        symbol,
        node: Node::Empty,
    }
}

// The words `rate`, `done`, `next`, `more` and `x`, where they first appear.
pub(crate) fn records() -> [Record; 5] {
    [
        name_record(6, 4, 0),
        name_record(27, 4, 1),
        name_record(41, 4, 2),
        name_record(50, 4, 3),
        name_record(63, 1, 4),
    ]
}

fn line(word: usize, kind: NameKind, value_type: ValueType, first: usize) -> NameRecord {
    NameRecord {
        word,
        kind,
        value_type,
        first,
        place: 0,
        target: matches!(kind, NameKind::Label | NameKind::Switch(_)),
    }
}

pub(crate) fn lines() -> [NameRecord; 5] {
    let low = Bound {
        sign: Sign::Minus,
        size: 2,
    };
    let high = Bound {
        sign: Sign::Plus,
        size: 1,
    };
    [
        line(0, NameKind::Array(low, high), ValueType::Untyped, 0),
        line(1, NameKind::Variable, ValueType::Boolean, 4),
        line(2, NameKind::Switch(0), ValueType::Untyped, 5),
        line(3, NameKind::Label, ValueType::Untyped, 5),
        line(4, NameKind::Variable, ValueType::Integer, 5),
    ]
}

// The symbol table over such records and lines.
pub(crate) fn table<'a>(records: &'a [Record], lines: &'a [NameRecord]) -> SymbolTable<'a> {
    let source = Source {
        text: TEXT,
        records,
    };
    SymbolTable { source, lines }
}
