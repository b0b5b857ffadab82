// The type that a name is declared to have. To have none is an answer with rules of its own, arithmetic but stored as it
// is, so it is a case here and no `Option`.

#[derive(Clone, Copy, PartialEq, Eq, Debug)]
pub enum ValueType {
    // In no type's list.
    Untyped,
    Integer,
    Boolean,
}
