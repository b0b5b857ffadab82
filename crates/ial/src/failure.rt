// Why the program ends with status 1, in one line.

use figures::word::NoFigure;
use rolls::leavers::FilterRefusal;
use std::alloc::{AllocError, AllocFailed};
use std::num::ParseIntError;
use std::{fmt, io};

#[derive(Drop)]
pub enum Failure {
    // the arguments make no command
    Usage(&'static str),
    // a file cannot be read
    Unreadable(String),
    // a word that is no number where one is wanted
    NoNumber,
    // a group size that the leaver filter refuses
    GroupSize(FilterRefusal<()>),
    // code that the loader or the check refuses
    Code(code::refusals::Refusal),
    // a setting or an advance that the machine refuses
    Run(machine::refusal::Refusal),
    NoMemory,
    Output,
}

impl fmt::Display for Failure {
    fn fmt<W: fmt::Write>(&self, f: &mut fmt::Formatter<W>) -> fmt::Result {
        match self {
            Failure::Usage(what) => write!(f, "{what}; `ial help` explains the commands"),
            Failure::Unreadable(file) => write!(f, "{file}: the file cannot be read"),
            Failure::NoNumber => f.write_str("a number is wanted after this option"),
            Failure::GroupSize(refusal) => {
                write!(
                    f,
                    "refused {}: a group has 1 to 64 figures",
                    refusal.number()
                )
            }
            Failure::Code(refusal) => write!(f, "{refusal}"),
            Failure::Run(refusal) => write!(
                f,
                "refused {}: --set names a named cell by its number",
                refusal.number()
            ),
            Failure::NoMemory => f.write_str("there is not enough memory"),
            Failure::Output => f.write_str("reading or writing failed"),
        }
    }
}

impl<R: Drop> From<FilterRefusal<R>> for Failure {
    fn from(refusal: FilterRefusal<R>) -> Failure {
        match refusal {
            FilterRefusal::GroupSize(_) => Failure::GroupSize(FilterRefusal::GroupSize(())),
        }
    }
}

impl From<code::refusals::Refusal> for Failure {
    fn from(refusal: code::refusals::Refusal) -> Failure {
        Failure::Code(refusal)
    }
}

impl From<machine::refusal::Refusal> for Failure {
    fn from(refusal: machine::refusal::Refusal) -> Failure {
        Failure::Run(refusal)
    }
}

impl From<NoFigure> for Failure {
    fn from(_e: NoFigure) -> Failure {
        Failure::Usage("--set takes CELL=FIGURE")
    }
}

impl From<ParseIntError> for Failure {
    fn from(_e: ParseIntError) -> Failure {
        Failure::NoNumber
    }
}

impl From<AllocError> for Failure {
    fn from(_e: AllocError) -> Failure {
        Failure::NoMemory
    }
}

impl<T: Drop> From<AllocFailed<T>> for Failure {
    fn from(_e: AllocFailed<T>) -> Failure {
        Failure::NoMemory
    }
}

impl From<io::Error> for Failure {
    fn from(_e: io::Error) -> Failure {
        Failure::Output
    }
}
