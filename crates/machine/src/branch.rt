// Where control goes.

ghost use Rattle.std.specs.Prelude.{◌≡◌, ◌+◌, ◌-◌, ◌<◌, ◌≤◌, length, slice_index};
ghost use Rattle.machine.specs.Fits.{RowsWithin, BranchOperand, branch_takes};
ghost use Rattle.machine.specs.Machine.{gives, gone, row as row_place, tabled};

use crate::calculate::is_zero;
use crate::instruction::Branch;
use crate::operands::OperandStack;
use figures::kind::Figures;

// The place of the JUMP that a table's row of this number is, or `on`.
fn row(numbers: &[u64], table: usize, number: i32, on: usize) -> usize
    requires { RowsWithin (length numbers.now) (slice_index numbers.now table) table }
    ensures { result ≡ row_place table (slice_index numbers.now table) on number }
{
    if number >= 1 && number as u64 <= numbers[table] {
        table + number as usize
    } else {
        on
    }
}

// The row that a figure names in the table at a place.
fn table_row<F: Figures>(numbers: &[u64], table: usize, figure: F, on: usize) -> usize
    requires { RowsWithin (length numbers.now) (slice_index numbers.now table) table }
    ensures { tabled numbers.now table on (F.kind.nearest (F.means figure)) ≡ gives result }
{
    row(numbers, table, figure.nearest(), on)
}

impl<F: Figures> OperandStack<'_, F> {
    ghost use Rattle.machine.specs.Views.{laid};

    // Where control goes from a jump at a place. Inlined as `calculate` is.
    #[inline(always)]
    pub(crate) fn go(
        &mut self,
        numbers: &[u64],
        branch: Branch,
        operand: u64,
        place: usize,
    ) -> usize
        requires low { branch_takes branch ≤ self.old.depth }
        requires place { place < 4096 }
        requires operand { BranchOperand branch (length numbers.now) (slice_index numbers.now operand) operand }
        ensures work { gone F.kind numbers.now branch operand place (laid F.means self.old) ≡ gives (result, laid F.means self.new) }
        ensures depth { self.new.depth ≡ self.old.depth - branch_takes branch }
        ensures size { length self.new.figures.now ≡ length self.old.figures.now }
    {
        match branch {
            Branch::Always => operand as usize,
            Branch::IfFalse => {
                if is_zero(self.pop()) {
                    operand as usize
                } else {
                    place + 1
                }
            }
            Branch::ByTable => table_row(numbers, operand as usize, self.pop(), place + 1),
        }
    }
}
