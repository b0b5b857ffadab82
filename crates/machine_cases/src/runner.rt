// Runs a code from nothing: check, prepare, start, and advance until it ends.

ghost use Rattle.std.specs.Prelude.{◌≡◌, length, IfOk};
ghost use Rattle.code.specs.Check.{check as check_of};
ghost use Rattle.code.specs.Codes.{code_of};
ghost use Rattle.machine.specs.Views.{memory};
ghost use Rattle.machine_cases.specs.declared.runner.CaseRefusal.TheVariants.{Check, Run};
ghost use Rattle.machine_cases.specs.Told.{CameTo, case_sizes, check_said};

use code::check::check;
use code::checked::Checked;
use code::refusals::Refusal as CodeRefusal;
use code::sizes::Sizes;
use machine::prepare::prepare;
use machine::ready::Ready;
use machine::refusal::Refusal as RunRefusal;
use machine::status::Status;
use rolls::roll::Roll;

// Why a case comes to no status.
#[derive(Clone, Copy, PartialEq, Eq, Debug)]
pub enum CaseRefusal {
    // the check refuses the code
    Check(CodeRefusal),
    // the machine refuses the cells
    Run(RunRefusal),
}

impl From<CodeRefusal> for CaseRefusal {
    ghost from_gives = { λ refusal e. e ≡ Check refusal };

    fn from(refusal: CodeRefusal) -> CaseRefusal {
        CaseRefusal::Check(refusal)
    }
}

impl From<RunRefusal> for CaseRefusal {
    ghost from_gives = { λ refusal e. e ≡ Run refusal };

    fn from(refusal: RunRefusal) -> CaseRefusal {
        CaseRefusal::Run(refusal)
    }
}

// The sizes of a code of so many operations: eight cells, all of them named, and depth four.
fn sizes_for(operations: usize) -> Sizes
    ensures { result ≡ case_sizes operations }
{
    Sizes {
        operations: if operations > 4_096 {
            0
        } else {
            operations as u32
        },
        named: 8,
        cells: 8,
        depth: 4,
    }
}

// Runs code of eight cells and depth four, so many steps at a call, and tells how the run then stands.
pub fn run<'a, R: Roll>(
    operations: &'a [u8],
    operands: &'a [u64],
    slice: u64,
    cells: &mut [R::Figure],
    stack: &mut [R::Figure],
    book: &mut [R::Figure],
    roll: &mut R,
) -> Result<Status, CaseRefusal>
    ensures check { check_said result ≡ check_of (code_of (case_sizes (length operations.now)) operations.now operands.now) }
    ensures status { IfOk result (λ s. CameTo R.Figure.Figures.kind (code_of (case_sizes (length operations.now)) operations.now operands.now) s (memory R.Figure.Figures.means s.posted cells.new book.new (R.holds roll.new))) }
{
    let mut code = Checked::lone_halt();
    check(&mut code, sizes_for(operations.len()), operations, operands)?;
    let mut ready = Ready::lone_halt();
    prepare(&mut ready, &code, cells)?;
    let mut run = ready.start();
    // a call that is refused, as one at the end, changes nothing, and the next would be refused too
    for _ in 0..200 {
        if run.advance(slice, cells, stack, book, roll).is_err() {
            return Ok(run.status());
        }
    }
    Ok(run.status())
}
