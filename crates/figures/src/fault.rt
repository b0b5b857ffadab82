// Why a calculation gives no figure.

ghost use Rattle.std.specs.Prelude.{◌≡◌};
ghost use Rattle.figures.specs.Faults.{number};

#[derive(Clone, Copy, PartialEq, Eq, Debug)]
pub enum Fault {
    // 31: the result lies outside the kind's range
    OutOfRange,
    // 32: the divisor is zero
    DivisionByZero,
}

impl Fault {
    // The number under which users know it.
    pub fn number(self) -> u8
        ensures { result ≡ number self }
    {
        match self {
            Fault::OutOfRange => 31,
            Fault::DivisionByZero => 32,
        }
    }
}
