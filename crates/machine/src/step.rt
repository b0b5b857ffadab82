// A step of checked code: its operations, from a MARK to the next MARK or HALT.

ghost use Rattle.std.specs.Prelude.{◌≡◌, ℕ, ◌<◌, ◌≤◌, false, length, Some, OnOk, slice_index};
ghost use Rattle.code.specs.CheckedCode.{code_in};
ghost use Rattle.code.specs.Codes.{operation_at};
ghost use Rattle.code.specs.declared.operations.Operation.TheVariants.{Mark};
ghost use Rattle.machine.specs.Fits.{operations_left};
ghost use Rattle.machine.specs.Loans.{GoesOn, SameLoans, Stands, StandsAtEnd};
ghost use Rattle.machine.specs.Steps.{ends_step as step_ends, performed, run_to_end, step as step_of};
ghost use Rattle.machine.specs.Views.{result as answered, state};

use crate::fault::RunFault;
use crate::instruction::{Instruction, instruction_of};
use crate::operands::OperandStack;
use crate::state::State;
use crate::transfer::{post, take_into};
use code::checked::Checked;
use code::operations::Operation;
use rolls::roll::Roll;

pub(crate) fn operation_at(code: &Checked<'_>, place: usize) -> Operation
    requires { place < length (code_in code.now).operations }
    ensures { operation_at (code_in code.now).operations place ≡ Some result }
{
    Operation::try_from(code.operations()[place]).unwrap()
}

pub(crate) fn operand_at(code: &Checked<'_>, place: usize) -> u64
    requires { place < length (code_in code.now).operations }
    ensures { result ≡ slice_index (code_in code.now).operands place }
{
    code.operands()[place]
}

fn ends_step(operation: Operation) -> bool
    ensures { result ≡ step_ends operation }
{
    matches!(operation, Operation::Halt | Operation::Mark)
}

impl<R: Roll> State<'_, '_, '_, R> {
    // The operation at the state's place.
    fn perform(
        &mut self,
        code: &Checked<'_>,
        operation: Operation,
        stack: &mut OperandStack<'_, R::Figure>,
    ) -> Result<(), RunFault>
        requires fits { Stands (code_in code.now) stack.old self.old }
        requires at { operation_at (code_in code.now).operations self.old.place ≡ Some operation }
        requires goes { step_ends operation ≡ false }
        ensures done { performed R.Figure.Figures.kind (code_in code.now) (state R.Figure.Figures.means R.holds stack.old self.old) ≡ answered result (state R.Figure.Figures.means R.holds stack.new self.new) }
        ensures next { OnOk result (GoesOn (code_in code.now) self.old.place stack.new self.new) }
        ensures same { SameLoans self.old self.new }
    {
        let operand = operand_at(code, self.place);
        match instruction_of(operation) {
            Instruction::Halt => unreachable(),
            Instruction::Pass => {
                self.place += 1;
                Ok(())
            }
            Instruction::Calculate(calculation) => {
                stack.calculate(calculation, operand)?;
                self.place += 1;
                Ok(())
            }
            Instruction::Transfer(transfer) => {
                stack.transfer(transfer, operand, self.cells)?;
                self.place += 1;
                Ok(())
            }
            Instruction::Go(branch) => {
                self.place = stack.go(code.operands(), branch, operand, self.place);
                Ok(())
            }
            Instruction::Take(is_rounded) => {
                let subscript = stack.pop();
                take_into(operand, is_rounded, subscript, self.cells, self.roll)?;
                self.place += 1;
                Ok(())
            }
            Instruction::Post => {
                let figure = stack.pop();
                post(self.book, self.posted, figure)?;
                self.posted += 1;
                self.place += 1;
                Ok(())
            }
        }
    }

    // Operations until the step ends.
    fn run_to_end(
        &mut self,
        code: &Checked<'_>,
        stack: &mut OperandStack<'_, R::Figure>,
    ) -> Result<(), RunFault>
        requires { Stands (code_in code.now) stack.old self.old }
        ensures done { ((k : ℕ) → operations_left (code_in code.now) self.old.place ≤ k → run_to_end R.Figure.Figures.kind (code_in code.now) k (state R.Figure.Figures.means R.holds stack.old self.old) ≡ answered result (state R.Figure.Figures.means R.holds stack.new self.new)) }
        ensures next { OnOk result (StandsAtEnd (code_in code.now) stack.new self.new) }
        ensures same { SameLoans self.old self.new }
    {
        'operations: loop {
            let operation = operation_at(code, self.place);
            if ends_step(operation) {
                return Ok(());
            }
            self.perform(code, operation, stack)?;
        }
    }

    // The step from the MARK at the state's place.
    pub(crate) fn step(
        &mut self,
        code: &Checked<'_>,
        stack: &mut OperandStack<'_, R::Figure>,
    ) -> Result<(), RunFault>
        requires fits { Stands (code_in code.now) stack.old self.old }
        requires mark { operation_at (code_in code.now).operations self.old.place ≡ Some Mark }
        ensures done { step_of R.Figure.Figures.kind (code_in code.now) (state R.Figure.Figures.means R.holds stack.old self.old) ≡ answered result (state R.Figure.Figures.means R.holds stack.new self.new) }
        ensures next { OnOk result (StandsAtEnd (code_in code.now) stack.new self.new) }
        ensures same { SameLoans self.old self.new }
    {
        self.place += 1;
        self.run_to_end(code, stack)
    }
}
