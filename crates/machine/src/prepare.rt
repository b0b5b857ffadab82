// Calls on a ready run: prepare, enter, ask, start.

ghost use Rattle.std.specs.Prelude.{◌≡◌, ◌<◌, [], ◌∷◌, map, length, None, ◌==◌, nat_lt, IfOk};
ghost use Rattle.code.specs.CheckedCode.{code_in};
ghost use Rattle.machine.specs.Refusals.{answer, refusal_of};
ghost use Rattle.machine.specs.RunViews.{progress_of, ready_code};
ghost use Rattle.machine.specs.Runs.{Asked, Entered, Prepared, filled, first_progress, named_refusal};

use crate::operands::load;
use crate::ready::Ready;
use crate::refusal::Refusal;
use crate::running::Running;
use code::checked::Checked;
use figures::kind::{Figures, zero};

// Whether there are just as many cells as the code has.
pub(crate) fn has_all_cells<F: Figures>(code: &Checked<'_>, cells: &[F]) -> bool
    ensures figures { result ≡ (length cells.now == (code_in code.now).sizes.cells) }
    ensures values { result ≡ (length (map F.means cells.now) == (code_in code.now).sizes.cells) }
{
    cells.len() == code.sizes().cells as usize
}

// Whether a number is that of a named cell.
fn is_named(code: &Checked<'_>, cell: usize) -> bool
    ensures { result ≡ nat_lt cell (code_in code.now).sizes.named }
{
    cell < code.sizes().named as usize
}

// Fills every cell with of(0) and puts a run of the code, ready to start, into `place`.
pub fn prepare<'a, F: Figures>(
    place: &mut Ready<'a>,
    code: &Checked<'a>,
    cells: &mut [F],
) -> Result<(), Refusal>
    ensures { Prepared F.kind (code_in code.now) (ready_code place.old) (map F.means cells.old) (answer (λ _. tt) result) (ready_code place.new) (map F.means cells.new) }
{
    if !has_all_cells(code, cells) {
        return Err(Refusal::CellCount);
    }
    fill_with_zero(cells);
    place.code = *code;
    Ok(())
}

// Sets every cell to of(0). A loop, since `fill` asks that the copy of a figure cannot fail, which the trait of kinds
// does not promise.
fn fill_with_zero<F: Figures>(cells: &mut [F])
    ensures { map F.means cells.new ≡ filled (length cells.old) (map F.means cells.old) (F.kind.of 0) }
{
    let nought = zero::<F>();
    for cell in cells.iter_mut() {
        *cell = nought;
    }
}

// Refuses cells that are not just as many as the code has, and a number that is not that of a named cell.
fn named_cell<F: Figures>(code: &Checked<'_>, cells: &[F], cell: usize) -> Result<(), Refusal>
    ensures figures { named_refusal (code_in code.now) cells.now cell ≡ refusal_of result }
    ensures values { named_refusal (code_in code.now) (map F.means cells.now) cell ≡ refusal_of result }
    ensures inside { IfOk result (λ _. cell < length cells.now) }
{
    if !has_all_cells(code, cells) {
        return Err(Refusal::CellCount);
    }
    if !is_named(code, cell) {
        return Err(Refusal::NotNamed);
    }
    Ok(())
}

// The figure of a named cell.
pub(crate) fn ask_cell<F: Figures>(
    code: &Checked<'_>,
    cells: &[F],
    cell: usize,
) -> Result<F, Refusal>
    ensures { Asked (code_in code.now) (map F.means cells.now) cell (answer F.means result) }
{
    named_cell(code, cells, cell)?;
    Ok(load(cells, cell))
}

impl<'a> Ready<'a> {
    // A place for `prepare`: a run of a lone HALT.
    pub fn lone_halt() -> Ready<'a>
        ensures { ready_code result ≡ record { sizes = record { operations = 1; named = 0; cells = 0; depth = 0 }; operations = 0 ∷ []; operands = 0 ∷ [] } }
    {
        Ready {
            code: Checked::lone_halt(),
        }
    }

    // Puts a figure into a named cell, as it is.
    pub fn enter<F: Figures>(&self, cells: &mut [F], cell: usize, figure: F) -> Result<(), Refusal>
        ensures { Entered (ready_code self.now) cells.old cell figure (answer (λ _. tt) result) cells.new }
    {
        named_cell(&self.code, cells, cell)?;
        cells[cell] = figure;
        Ok(())
    }

    // The figure of a named cell.
    pub fn ask<F: Figures>(&self, cells: &[F], cell: usize) -> Result<F, Refusal>
        ensures { Asked (ready_code self.now) (map F.means cells.now) cell (answer F.means result) }
    {
        ask_cell(&self.code, cells, cell)
    }

    // A run under way, at the first operation; cells are entered no more.
    pub fn start(self) -> Running<'a>
        ensures progress { progress_of result ≡ first_progress (ready_code self.entry) }
        ensures posted { result.posted ≡ 0 }
    {
        Running {
            code: self.code,
            place: 0,
            count: 0,
            posted: 0,
            fault: None,
        }
    }
}
