// Calculations on the operand stack.

ghost use Rattle.std.specs.Prelude.{◌≡◌, ◌+◌, ◌-◌, ◌<◌, ◌≤◌, cond, length, IfOk, OnOk};
ghost use Rattle.figures.specs.Faults.{outcome};
ghost use Rattle.figures.specs.Kinds.{is_zero as zero_value};
ghost use Rattle.code.specs.Descriptors.{unpacked};
ghost use Rattle.machine.specs.Fits.{CalculationOperand, calculation_takes};
ghost use Rattle.machine.specs.Machine.{calculated, element as element_of, is_true as true_value, of_one, of_two};
ghost use Rattle.machine.specs.Views.{attempt};

use crate::fault::RunFault;
use crate::instruction::{Binary, Calculation, Unary};
use crate::operands::OperandStack;
use code::descriptor::Descriptor;
use figures::fault::Fault;
use figures::kind::{Figures, zero};

pub(crate) fn is_zero<F: Figures>(figure: F) -> bool
    ensures { result ≡ zero_value F.kind (F.means figure) }
{
    figure.same(zero())
}

fn is_true<F: Figures>(figure: F) -> bool
    ensures { result ≡ true_value F.kind (F.means figure) }
{
    !is_zero(figure)
}

// of(1) or of(0).
fn truth<F: Figures>(is_so: bool) -> Result<F, Fault>
    ensures { outcome F.means result ≡ F.kind.of (cond is_so 1 0) }
{
    if is_so { F::of(1) } else { F::of(0) }
}

fn unary<F: Figures>(calculation: Unary, figure: F) -> Result<F, Fault>
    ensures { outcome F.means result ≡ of_one F.kind calculation (F.means figure) }
{
    match calculation {
        Unary::Round => Ok(figure.round()),
        Unary::Truth => truth(is_true(figure)),
        Unary::Negate => Ok(figure.negate()),
        Unary::Deny => truth(!is_true(figure)),
    }
}

fn binary<F: Figures>(calculation: Binary, left: F, right: F) -> Result<F, Fault>
    ensures { outcome F.means result ≡ of_two F.kind calculation (F.means left) (F.means right) }
{
    match calculation {
        Binary::Add => left.add(right),
        Binary::Subtract => left.subtract(right),
        Binary::Multiply => left.multiply(right),
        Binary::Divide => left.divide(right),
        Binary::Less => truth(left.less(right)),
        Binary::Same => truth(left.same(right)),
        Binary::More => truth(right.less(left)),
        Binary::And => truth(is_true(left) && is_true(right)),
        Binary::Or => truth(is_true(left) || is_true(right)),
        Binary::Alike => truth(is_true(left) == is_true(right)),
    }
}

// The cell of the array's element that a subscript names.
pub(crate) fn element<F: Figures>(operand: u64, subscript: F) -> Result<usize, RunFault>
    ensures cell { attempt result (λ e. e) ≡ element_of F.kind operand (F.means subscript) }
    ensures below { IfOk result (λ e. e < (unpacked operand).first + (unpacked operand).count) }
{
    let array = Descriptor::from(operand);
    let offset = i64::from(subscript.nearest()) + 10_000 - array.biased_low as i64;
    if offset < 0 || offset >= array.count as i64 {
        return Err(RunFault::Subscript);
    }
    Ok(array.first + offset as usize)
}

impl<F: Figures> OperandStack<'_, F> {
    ghost use Rattle.machine.specs.Views.{laid};

    // Work on the stack alone. Inlined, so that its caller keeps the depth in a register.
    #[inline(always)]
    pub(crate) fn calculate(
        &mut self,
        calculation: Calculation,
        operand: u64,
    ) -> Result<(), RunFault>
        requires low { calculation_takes calculation ≤ self.old.depth }
        requires high { (self.old.depth - calculation_takes calculation) + 1 ≤ length self.old.figures.now }
        requires operand { CalculationOperand calculation operand }
        ensures work { attempt result (λ _. laid F.means self.new) ≡ calculated F.kind calculation operand (laid F.means self.old) }
        ensures depth { OnOk result (self.new.depth ≡ (self.old.depth - calculation_takes calculation) + 1) }
        ensures size { length self.new.figures.now ≡ length self.old.figures.now }
    {
        match calculation {
            Calculation::Constant => {
                let figure = F::of(operand as u32)?;
                self.push(figure);
                Ok(())
            }
            Calculation::One(one) => {
                let figure = self.pop();
                self.push(unary(one, figure)?);
                Ok(())
            }
            Calculation::Two(two) => {
                let right = self.pop();
                let left = self.pop();
                self.push(binary(two, left, right)?);
                Ok(())
            }
            Calculation::Bounds => {
                element(operand, self.top())?;
                Ok(())
            }
        }
    }
}
