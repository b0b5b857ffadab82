// The two passes over the declarations of a text.

ghost use Rattle.std.specs.Prelude.{◌≡◌};
ghost use Rattle.analysis.specs.Heeding.{Pass as PassKind, marking, declaring, heeded_in, offends_in};

use crate::declaration::Declaration;
use crate::heed::{declared_line, marked_line, offends_line};
use crate::symbol::NameRecord;

// The tree is gone through twice: first labels and switches are marked, wherever they stand, then each name is declared,
// in the order of the text. A pass says what a declaration does to the line of its name, and whether it is one too many.
pub trait Pass {
    ghost kind: { PassKind };

    fn heed(line: &mut NameRecord, d: Declaration) -> bool
        ensures line { line.new ≡ heeded_in kind d line.old }
        ensures told { result ≡ offends_in kind d line.old };
}

// Labels and switches are marked, and nothing is told.
pub struct Mark;

impl Pass for Mark {
    ghost kind = { marking };

    fn heed(line: &mut NameRecord, d: Declaration) -> bool {
        *line = marked_line(*line, d);
        false
    }
}

// Each name is declared.
pub struct Declare;

impl Pass for Declare {
    ghost kind = { declaring };

    fn heed(line: &mut NameRecord, d: Declaration) -> bool {
        let before = *line;
        *line = declared_line(before, d);
        offends_line(before, d)
    }
}
