// Laws of names, each proved as the contract of a function that does nothing.

ghost use Rattle.symbols.specs.Laws.{VerdictLaw, TableLaw, EnoughCells, BoundsLaw, NamesLaw};
ghost use Rattle.symbols.specs.ForsAround.{JumpsLaw};
ghost use Rattle.symbols.specs.TextLaw.{TextLaw};
ghost use Rattle.symbols.specs.TextOrder.{TextOrder};
ghost use Rattle.symbols.specs.Typing.{TypesLaw};

// A tree is accepted only if it keeps all rules, and refused for the least that it breaks, at its earliest place.
pub fn verdict_law_holds()
    ensures { VerdictLaw }
{}

// The occurrences of a sentence's tree are the names among its words, in their order.
pub fn occurrences_in_text_order()
    ensures { TextOrder }
{}

// Every name has one line of the table, and its cells are its own; together they are the numbers from 0 on.
pub fn table_law_holds()
    ensures { TableLaw }
{}

// An accepted tree has at most 2,048 cells, named and hidden.
pub fn cells_are_enough()
    ensures { EnoughCells }
{}

// In an accepted tree every name has one definition and one type at most, and all its uses agree with them.
pub fn names_law_holds()
    ensures { NamesLaw }
{}

// No part offends by its type just where the typing rules give every part the type that is wanted.
pub fn types_law_holds()
    ensures { TypesLaw }
{}

// In an accepted tree every for around a label is around each go to that can lead there.
pub fn jumps_law_holds()
    ensures { JumpsLaw }
{}

// In an accepted tree an array's bounds are in order and within 9,999 either way, and it has a cell for each subscript.
pub fn bounds_law_holds()
    ensures { BoundsLaw }
{}

// What is told of a text of bytes is true of it, by the rules of words, of sentences and of names.
pub fn text_law_holds()
    ensures { TextLaw }
{}
