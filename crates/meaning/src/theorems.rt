// What is proved of the statement machine, for every kind of figures.

ghost use Rattle.meaning.specs.Accepted.{LandingLaw, StorageLaw};
ghost use Rattle.meaning.specs.Laws.{Laws};

use figures::kind::Figures;

// The laws of runs.
pub fn laws_hold<F: Figures>()
    ensures { Laws F.Figures.kind }
{}

// The go tos of an accepted text lead to the statements behind their labels.
pub fn go_tos_land<F: Figures>()
    ensures { LandingLaw F.Figures.kind }
{}

// Every cell that an accepted text names is among its named cells.
pub fn cells_are_there()
    ensures { StorageLaw }
{}
