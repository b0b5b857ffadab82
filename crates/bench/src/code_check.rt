// The check of stack code.

ghost use Rattle.std.specs.Prelude.{◌≡◌};
ghost use Rattle.bench.specs.Verdicts.{verdict_number};
ghost use Rattle.code.specs.Check.{check as verdict};
ghost use Rattle.code.specs.Codes.{code_of};

use code::check::check;
use code::checked::Checked;
use code::sizes::Sizes;

// 0 for code that passes, else the number of the refusal: C knows numbers, and no Result.
#[unsafe(no_mangle)]
pub extern "C" fn pavennuri_check<'a>(
    n: u32,
    v: u32,
    m: u32,
    depth: u32,
    operations: &'a [u8],
    operands: &'a [u64],
) -> u8
    ensures { result ≡ verdict_number (verdict (code_of (record { operations = n; named = v; cells = m; depth = depth }) operations.now operands.now)) }
{
    let sizes = Sizes {
        operations: n,
        named: v,
        cells: m,
        depth,
    };
    let mut place = Checked::lone_halt();
    match check(&mut place, sizes, operations, operands) {
        Ok(()) => 0,
        Err(refusal) => refusal.number(),
    }
}
