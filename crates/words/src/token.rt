// The kinds of words, grouped as the grammar uses them.

// `+` and `-`, before a term or between two.
#[derive(Clone, Copy, PartialEq, Eq, Debug)]
pub enum Sign {
    Plus,
    Minus,
}

// `*` and `/`, between two factors.
#[derive(Clone, Copy, PartialEq, Eq, Debug)]
pub enum Scaling {
    Times,
    Over,
}

// `<`, `<=`, `=`, `/=`, `>=` and `>`.
#[derive(Clone, Copy, PartialEq, Eq, Debug)]
pub enum Relation {
    Less,
    AtMost,
    Equal,
    Unequal,
    AtLeast,
    More,
}

// The other marks: `;`, `:`, `:=`, `=:`, `,`, and the two kinds of brackets.
#[derive(Clone, Copy, PartialEq, Eq, Debug)]
pub enum Mark {
    Semicolon,
    Colon,
    Becomes,
    Into,
    Comma,
    OpenRound,
    CloseRound,
    OpenSquare,
    CloseSquare,
}

// The reserved words, each written as its name in small letters.
#[derive(Clone, Copy, PartialEq, Eq, Debug)]
pub enum Keyword {
    Begin,
    End,
    If,
    For,
    Go,
    To,
    Switch,
    Integer,
    Boolean,
    Array,
    Comment,
    In,
    Print,
    Stop,
    And,
    Or,
    Not,
    Eqv,
}

// What a word is. A name's bytes stay in the text: the record has how many there are.
#[derive(Clone, Copy, PartialEq, Eq, Debug)]
pub enum Token {
    Name(usize),
    Number(u32),
    Keyword(Keyword),
    Mark(Mark),
    Sign(Sign),
    Scaling(Scaling),
    Relation(Relation),
}
