// Why a call on code or on a stored file is refused.
ghost use Rattle.std.specs.Prelude.{◌≡◌, Some};
ghost use Rattle.code.specs.Answers.{number, told_at};
ghost use Rattle.code.specs.Names.{reason, refusal_text};

use std::error::Error;
use std::fmt;

#[derive(Clone, Copy, PartialEq, Eq, Debug)]
pub enum Refusal {
    // 21: sizes beyond their limits, or arrays with fewer than n entries
    BadSizes,
    // 22 to 26 tell the operation
    UnknownOperation(usize),
    BadOperand(usize),
    BadDepth(usize),
    BadTarget(usize),
    BadLast(usize),
    // 27: a file that is not 16 + 9n bytes
    BadLength,
    // 47: a buffer shorter than the file
    ShortBuffer,
}

impl Refusal {
    // The number under which users know it.
    pub fn number(self) -> u8
        ensures { result ≡ number self }
    {
        match self {
            Refusal::BadSizes => 21,
            Refusal::UnknownOperation(_) => 22,
            Refusal::BadOperand(_) => 23,
            Refusal::BadDepth(_) => 24,
            Refusal::BadTarget(_) => 25,
            Refusal::BadLast(_) => 26,
            Refusal::BadLength => 27,
            Refusal::ShortBuffer => 47,
        }
    }

    // The place of the operation that is refused.
    pub fn operation(self) -> Option<usize>
        ensures { result ≡ told_at self }
    {
        match self {
            Refusal::BadSizes | Refusal::BadLength | Refusal::ShortBuffer => None,
            Refusal::UnknownOperation(place)
            | Refusal::BadOperand(place)
            | Refusal::BadDepth(place)
            | Refusal::BadTarget(place)
            | Refusal::BadLast(place) => Some(place),
        }
    }

    // Why, for the reader of a report.
    pub fn reason(self) -> &'static str
        ensures { result.now ≡ reason self }
    {
        match self {
            Refusal::BadSizes => "sizes beyond their limits, or arrays shorter than n",
            Refusal::UnknownOperation(_) => "unknown operation",
            Refusal::BadOperand(_) => "operand against its rule",
            Refusal::BadDepth(_) => "depth under 0, over the limit, or not 0 where due",
            Refusal::BadTarget(_) => "jump, ROWS or place 0 against its rule",
            Refusal::BadLast(_) => "last operation is neither HALT nor JUMP",
            Refusal::BadLength => "file is not 16 + 9n bytes",
            Refusal::ShortBuffer => "buffer shorter than the file",
        }
    }
}

// One line: the number, the operation where there is one, and the reason.
impl fmt::Display for Refusal {
    ghost output = { λ e. Some (refusal_text e) };

    fn fmt<W: fmt::Write>(&self, f: &mut fmt::Formatter<W>) -> fmt::Result {
        let (number, reason) = (self.number(), self.reason());
        match self.operation() {
            Some(place) => write!(f, "refused {number} at operation {place}: {reason}"),
            None => write!(f, "refused {number}: {reason}"),
        }
    }
}

impl Error for Refusal {}
