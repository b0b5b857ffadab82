// Why a run ends before its end.

ghost use Rattle.std.specs.Prelude.{◌≡◌, Some};
ghost use Rattle.machine.specs.Faults.{number, roll_place};
ghost use Rattle.machine.specs.Reasons.{calculation_reason, ending_reason, fault_reason};
ghost use Rattle.machine.specs.declared.fault.RunFault.TheVariants.{Calculation, Roll};

use figures::fault::Fault;
use rolls::roll::Ending;
use std::error::Error;
use std::fmt;

#[derive(Clone, Copy, PartialEq, Eq, Debug)]
pub enum RunFault {
    // 31, 32: a calculation gives no figure
    Calculation(Fault),
    // 33, 34: the roll hands over no figure
    Roll(Ending),
    // 35: the book is full
    BookFull,
    // 36: a subscript lies outside its bounds
    Subscript,
}

impl RunFault {
    // The number under which users know it.
    pub fn number(self) -> u8
        ensures { result ≡ number self }
    {
        match self {
            RunFault::Calculation(fault) => fault.number(),
            RunFault::Roll(ending) => ending.number(),
            RunFault::BookFull => 35,
            RunFault::Subscript => 36,
        }
    }

    // The place in the roll, where the roll is damaged.
    pub fn roll_place(self) -> Option<usize>
        ensures { result ≡ roll_place self }
    {
        match self {
            RunFault::Roll(Ending::Damaged(place)) => Some(place),
            _ => None,
        }
    }

    // A sentence for the reader of a report.
    pub fn reason(self) -> &'static str
        ensures { result.now ≡ fault_reason self }
    {
        match self {
            RunFault::Calculation(fault) => calculation_reason(fault),
            RunFault::Roll(ending) => ending_reason(ending),
            RunFault::BookFull => "the book is full",
            RunFault::Subscript => "a subscript lies outside its bounds",
        }
    }
}

// A calculation that gives no figure ends the run.
impl From<Fault> for RunFault {
    ghost from_gives = { λ fault e. e ≡ Calculation fault };

    fn from(fault: Fault) -> RunFault {
        RunFault::Calculation(fault)
    }
}

// A roll that hands over no figure ends the run.
impl From<Ending> for RunFault {
    ghost from_gives = { λ ending e. e ≡ Roll ending };

    fn from(ending: Ending) -> RunFault {
        RunFault::Roll(ending)
    }
}

// Its sentence.
impl fmt::Display for RunFault {
    ghost output = { λ fault. Some (fault_reason fault) };

    fn fmt<W: fmt::Write>(&self, f: &mut fmt::Formatter<W>) -> fmt::Result {
        f.write_str(self.reason())
    }
}

impl Error for RunFault {}

// The sentences of the faults of the crates below, which know them by number alone.
fn calculation_reason(fault: Fault) -> &'static str
    ensures { result.now ≡ calculation_reason fault }
{
    match fault {
        Fault::OutOfRange => "a result lies over the range",
        Fault::DivisionByZero => "a division by zero",
    }
}

fn ending_reason(ending: Ending) -> &'static str
    ensures { result.now ≡ ending_reason ending }
{
    match ending {
        Ending::End => "the roll has ended",
        Ending::Damaged(_) => "the roll is damaged",
    }
}
