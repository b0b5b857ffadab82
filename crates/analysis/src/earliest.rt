// The earliest of some places.

ghost use Rattle.std.specs.Prelude.{◌≡◌};
ghost use Rattle.symbols.specs.Types.{told as told_at};
ghost use Rattle.analysis.specs.Earliest.{earliest_of, earlier_of};

// The earlier of two places, where each may be missing. Three cases: a missing place is later than any, where `min` of
// two options has it first.
pub fn earlier(a: Option<usize>, b: Option<usize>) -> Option<usize>
    ensures { result ≡ earlier_of a b }
{
    match (a, b) {
        (None, b) => b,
        (a, None) => a,
        (Some(p), Some(q)) => Some(p.min(q)),
    }
}

// A place where an offence is told, if there is one.
pub fn told(offends: bool, p: usize) -> Option<usize>
    ensures { result ≡ earliest_of (told_at offends p) }
{
    offends.then_some(p)
}
