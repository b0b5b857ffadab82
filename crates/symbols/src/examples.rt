// Worked texts, each group proved as the contract of a function that does nothing.

ghost use Rattle.symbols.specs.Examples.{Table, Definitions, Uses, Types, Jumps, Cells, EarlierTests};

// Names stand in the table where they first appear, and their cells follow one another.
pub fn cells_in_order()
    ensures { Table }
{}

// A name is defined and typed once.
pub fn definitions_once()
    ensures { Definitions }
{}

// A name is used as it is defined.
pub fn uses_agree()
    ensures { Uses }
{}

// A part has the type that is wanted.
pub fn types_agree()
    ensures { Types }
{}

// No go to leads into a for's body from outside.
pub fn jumps_stay_outside()
    ensures { Jumps }
{}

// Bounds are in order, and the cells suffice.
pub fn cells_suffice()
    ensures { Cells }
{}

// Words and sentences are tested before names.
pub fn words_and_sentences_first()
    ensures { EarlierTests }
{}
