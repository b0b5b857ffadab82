// Laws of the tables, each proved as the contract of a function that does nothing.

ghost use Rattle.analysis.specs.NameLines.{PlacesLaw};
ghost use Rattle.analysis.specs.LabelSets.{SmallLaw};

// A work table whose words were read from the text has the place of every name.
pub fn places_law_holds()
    ensures { PlacesLaw }
{}

// The symbol table of a sentence has at most 256 lines, of different letters.
pub fn small_law_holds()
    ensures { SmallLaw }
{}
