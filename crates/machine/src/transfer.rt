// Figures between the operand stack, the cells, the roll and the book.

ghost use Rattle.std.specs.Prelude.{◌≡◌, ◌+◌, ◌-◌, ◌<◌, ◌≤◌, cond, map, length, MatchResult, OnErr};
ghost use Rattle.code.specs.Descriptors.{unpacked};
ghost use Rattle.code.specs.WellFormed.{NamesCells};
ghost use Rattle.machine.specs.Fits.{transfer_leaves, TransferOperand, transfer_takes};
ghost use Rattle.machine.specs.Machine.{posted_in, taken_into, transferred};
ghost use Rattle.machine.specs.Views.{attempt, valued};

use crate::calculate::element;
use crate::fault::RunFault;
use crate::instruction::Transfer;
use crate::operands::{OperandStack, load, put};
use figures::kind::Figures;
use rolls::roll::Roll;

impl<F: Figures> OperandStack<'_, F> {
    ghost use Rattle.machine.specs.Views.{laid};

    // Work on the stack and the cells. Inlined as `calculate` is.
    #[inline(always)]
    pub(crate) fn transfer(
        &mut self,
        transfer: Transfer,
        operand: u64,
        cells: &mut [F],
    ) -> Result<(), RunFault>
        requires low { transfer_takes transfer ≤ self.old.depth }
        requires high { (self.old.depth - transfer_takes transfer) + transfer_leaves transfer ≤ length self.old.figures.now }
        requires operand { TransferOperand transfer operand (length cells.old) }
        ensures work { attempt result (λ _. (laid F.means self.new, map F.means cells.new)) ≡ transferred F.kind transfer operand (laid F.means self.old) (map F.means cells.old) }
        ensures depth { MatchResult result (λ _. self.new.depth ≡ (self.old.depth - transfer_takes transfer) + transfer_leaves transfer) (λ _. cells.new ≡ cells.old) }
        ensures size { length self.new.figures.now ≡ length self.old.figures.now }
    {
        match transfer {
            Transfer::Load => {
                self.push(load(cells, operand as usize));
                Ok(())
            }
            Transfer::Store => {
                put(cells, operand as usize, self.pop());
                Ok(())
            }
            Transfer::Get => {
                let cell = element(operand, self.pop())?;
                self.push(load(cells, cell));
                Ok(())
            }
            Transfer::Put => {
                let figure = self.pop();
                let cell = element(operand, self.pop())?;
                put(cells, cell, figure);
                Ok(())
            }
        }
    }
}

fn rounded_if<F: Figures>(is_rounded: bool, figure: F) -> F
    ensures { F.means result ≡ cond is_rounded (F.kind.round (F.means figure)) (F.means figure) }
{
    if is_rounded { figure.round() } else { figure }
}

// Takes a figure into the cell that the subscript names, rounded or as it is.
pub(crate) fn take_into<R: Roll>(
    operand: u64,
    is_rounded: bool,
    subscript: R::Figure,
    cells: &mut [R::Figure],
    roll: &mut R,
) -> Result<(), RunFault>
    requires { NamesCells (length cells.old) (unpacked operand) }
    ensures work { attempt result (λ _. (map R.Figure.Figures.means cells.new, valued R.Figure.Figures.means (R.holds roll.new))) ≡ taken_into R.Figure.Figures.kind is_rounded operand (R.Figure.Figures.means subscript) (map R.Figure.Figures.means cells.old) (valued R.Figure.Figures.means (R.holds roll.old)) }
    ensures kept { OnErr result ((cells.new ≡ cells.old) × (R.holds roll.new ≡ R.holds roll.old)) }
{
    let cell = element(operand, subscript)?;
    let figure = roll.take()?;
    put(cells, cell, rounded_if(is_rounded, figure));
    Ok(())
}

// Posts a figure in the book, behind the first `posted`.
pub(crate) fn post<F: Figures>(book: &mut [F], posted: usize, figure: F) -> Result<(), RunFault>
    ensures work { attempt result (λ _. map F.means book.new) ≡ posted_in (map F.means book.old) posted (F.means figure) }
    ensures kept { MatchResult result (λ _. posted < length book.old) (λ _. book.new ≡ book.old) }
{
    if posted >= book.len() {
        return Err(RunFault::BookFull);
    }
    put(book, posted, figure);
    Ok(())
}
