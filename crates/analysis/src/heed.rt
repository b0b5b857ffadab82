// What a declaration makes of a line of the name table, and whether it is one too many.

ghost use Rattle.std.specs.Prelude.{◌≡◌};
ghost use Rattle.analysis.specs.Kinds.{is_defined_kind, is_target_kind, is_typed_as};
ghost use Rattle.analysis.specs.Heeding.{marked_line, declared_line, offends_line};

use crate::declaration::Declaration;
use crate::symbol::{NameKind, NameRecord};
use symbols::value_type::ValueType;

// Is it what a definition makes of a name?
pub fn is_defined_kind(kind: NameKind) -> bool
    ensures { result ≡ is_defined_kind kind }
{
    !matches!(kind, NameKind::Variable)
}

// Is it a label or a switch?
pub fn is_target_kind(kind: NameKind) -> bool
    ensures { result ≡ is_target_kind kind }
{
    matches!(kind, NameKind::Label | NameKind::Switch(_))
}

// Is this type given by a list?
pub fn is_typed_as(t: ValueType) -> bool
    ensures { result ≡ is_typed_as t }
{
    t != ValueType::Untyped
}

// The line where the declaration is marked.
pub fn marked_line(line: NameRecord, d: Declaration) -> NameRecord
    ensures { result ≡ marked_line d line }
{
    match d {
        Declaration::Defined(kind) => NameRecord {
            target: line.target || is_target_kind(kind),
            ..line
        },
        Declaration::Typed(_) => line,
    }
}

// The line where the declaration is heeded: the first definition and the first type count.
pub fn declared_line(line: NameRecord, d: Declaration) -> NameRecord
    ensures { result ≡ declared_line d line }
{
    match d {
        Declaration::Defined(kind) => {
            let first = if is_defined_kind(line.kind) {
                line.kind
            } else {
                kind
            };
            NameRecord {
                kind: first,
                ..line
            }
        }
        Declaration::Typed(t) => {
            let first = if is_typed_as(line.value_type) {
                line.value_type
            } else {
                t
            };
            NameRecord {
                value_type: first,
                ..line
            }
        }
    }
}

// Is the declaration one too many?
pub fn offends_line(line: NameRecord, d: Declaration) -> bool
    ensures { result ≡ offends_line d line }
{
    match d {
        Declaration::Defined(_) => is_defined_kind(line.kind),
        Declaration::Typed(_) => is_typed_as(line.value_type) || line.target,
    }
}
