// A text, with the records of its words.

ghost use Rattle.std.specs.Prelude.{◌≡◌, IfOk, Some};
ghost use Rattle.std.specs.Str.{IsAscii};
ghost use Rattle.std.specs.String.{string_bytes};
ghost use Rattle.reports.specs.Names.{letters_shown};
ghost use Rattle.reports.specs.Sources.{name_letters_in, name_shown_in};

use crate::each::write_each;
use analysis::letters::letters_of;
use parser::table::Record;
use std::alloc::{AllocError, Global};
use std::fmt;

// What a report speaks of: a text and its work table.
#[derive(Clone, Copy)]
pub struct Source<'a> {
    pub text: &'a [u8],
    pub records: &'a [Record],
}

impl<'a> Source<'a> {
    // The name that word w of the text is.
    pub fn name(self, w: usize) -> Name<'a>
        ensures { result.letters.now ≡ name_letters_in self.entry w }
    {
        Name {
            letters: letters_of(self.text, self.records, w),
        }
    }

    // The name as a text of its own, in memory.
    pub fn name_text(self, heap: Global, w: usize) -> Result<String, AllocError>
        ensures text { IfOk result (λ s. string_bytes s ≡ name_shown_in self.entry w) }
        ensures letters { IsAscii (name_letters_in self.entry w) → IfOk result (λ s. string_bytes s ≡ name_letters_in self.entry w) }
    {
        self.name(w).to_string(heap)
    }
}

// A name by its letters, which stay in the text.
#[derive(Clone, Copy)]
pub struct Name<'a> {
    pub letters: &'a [u8],
}

impl fmt::Display for Name<'_> {
    ghost output = { λ n. Some (letters_shown n.letters.now) };

    fn fmt<W: fmt::Write>(&self, f: &mut fmt::Formatter<W>) -> fmt::Result {
        write_each(f, self.letters, char::from)
    }
}
