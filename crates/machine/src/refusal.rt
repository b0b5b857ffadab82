// Why a call on a run is refused; a refused call changes nothing.

ghost use Rattle.std.specs.Prelude.{◌≡◌, Some};
ghost use Rattle.machine.specs.Reasons.{refusal_reason};
ghost use Rattle.machine.specs.Refusals.{number};

use std::error::Error;
use std::fmt;

#[derive(Clone, Copy, PartialEq, Eq, Debug)]
pub enum Refusal {
    // 41: there are not just as many cells as the code has
    CellCount,
    // 42: the stack is shorter than the code's depth
    ShortStack,
    // 43: not the number of a named cell
    NotNamed,
    // 44: the run has ended
    Ended,
    // 45: the steps would pass 4,000,000,000
    StepLimit,
    // 46: the book is shorter than the figures posted
    ShortBook,
}

impl Refusal {
    // The number under which users know it.
    pub fn number(self) -> u8
        ensures { result ≡ number self }
    {
        match self {
            Refusal::CellCount => 41,
            Refusal::ShortStack => 42,
            Refusal::NotNamed => 43,
            Refusal::Ended => 44,
            Refusal::StepLimit => 45,
            Refusal::ShortBook => 46,
        }
    }

    // A sentence for the reader of a report.
    pub fn reason(self) -> &'static str
        ensures { result.now ≡ refusal_reason self }
    {
        match self {
            Refusal::CellCount => "the cells are not as many as the code has",
            Refusal::ShortStack => "the stack is shorter than the code's depth",
            Refusal::NotNamed => "this is not the number of a named cell",
            Refusal::Ended => "the run has ended",
            Refusal::StepLimit => "the run would pass 4,000,000,000 steps",
            Refusal::ShortBook => "the book is shorter than the figures posted",
        }
    }
}

// Its sentence.
impl fmt::Display for Refusal {
    ghost output = { λ refusal. Some (refusal_reason refusal) };

    fn fmt<W: fmt::Write>(&self, f: &mut fmt::Formatter<W>) -> fmt::Result {
        f.write_str(self.reason())
    }
}

impl Error for Refusal {}
