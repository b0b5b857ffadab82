// What a text says of a name where it declares it.

use crate::symbol::NameKind;
use symbols::value_type::ValueType;

// A definition, or a place in a type's list.
#[derive(Clone, Copy, PartialEq, Eq, Debug)]
pub enum Declaration {
    Defined(NameKind),
    Typed(ValueType),
}
