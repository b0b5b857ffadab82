// Calls on a run under way: advance, ask, status.

ghost use Rattle.std.specs.Prelude.{◌≡◌, ◌+◌, ◌<◌, ◌≤◌, false, map, length};
ghost use Rattle.code.specs.CheckedCode.{code_in};
ghost use Rattle.machine.specs.Histories.{SoundHistories};
ghost use Rattle.machine.specs.Refusals.{answer};
ghost use Rattle.machine.specs.RunViews.{progress_of, report_of, run_of};
ghost use Rattle.machine.specs.Runs.{Advanced, Asked, at_halt, ended, report, stepped};

use crate::operands::OperandStack;
use crate::prepare::{ask_cell, has_all_cells};
use crate::refusal::Refusal;
use crate::running::Running;
use crate::state::State;
use crate::status::{Standing, Status};
use crate::step::{operand_at, operation_at};
use code::operations::Operation;
use figures::kind::Figures;
use rolls::roll::Roll;

const MOST_STEPS: u64 = 4_000_000_000;

impl Running<'_> {
    fn is_at_halt(&self) -> bool
        ensures { result ≡ at_halt (progress_of self.now) }
    {
        matches!(operation_at(&self.code, self.place), Operation::Halt)
    }

    fn has_ended(&self) -> bool
        ensures { result ≡ ended (progress_of self.now) }
    {
        self.fault.is_some() || self.is_at_halt()
    }

    // The next step of a run that has not ended. What the caller lends comes with each call.
    fn make_step<R: Roll>(
        &mut self,
        cells: &mut [R::Figure],
        stack: &mut [R::Figure],
        book: &mut [R::Figure],
        roll: &mut R,
    )
        requires wide { length cells.old ≡ self.old.code.sizes.cells }
        requires tall { self.old.code.sizes.depth ≤ length stack.old }
        requires few { self.old.count < 4000000000 }
        requires going { ended (progress_of self.old) ≡ false }
        ensures run { run_of R.Figure.Figures.means self.new cells.new book.new (R.holds roll.new) ≡ stepped R.Figure.Figures.kind (run_of R.Figure.Figures.means self.old cells.old book.old (R.holds roll.old)) }
        ensures code { self.new.code ≡ self.old.code }
        ensures count { (self.new.count ≤ self.old.count + 1) × (self.old.count ≤ self.new.count) }
    {
        let mut stack = OperandStack {
            figures: stack,
            depth: 0,
        };
        let mut state = State {
            place: self.place,
            cells,
            book,
            posted: self.posted,
            roll,
        };
        match state.step(&self.code, &mut stack) {
            Ok(()) => {
                self.place = state.place;
                self.posted = state.posted;
                self.count += 1;
            }
            Err(fault) => {
                self.posted = state.posted;
                self.fault = Some(fault);
            }
        }
    }

    // Makes so many steps, fewer where the run ends, and answers how many were made. The stack may hold anything then.
    // `sound` is the promise over every sequence of calls on this code since start.
    pub fn advance<R: Roll>(
        &mut self,
        steps: u64,
        cells: &mut [R::Figure],
        stack: &mut [R::Figure],
        book: &mut [R::Figure],
        roll: &mut R,
    ) -> Result<u64, Refusal>
        ensures advanced { Advanced R.Figure.Figures.kind steps (length stack.old) (run_of R.Figure.Figures.means self.old cells.old book.old (R.holds roll.old)) (answer (λ n. n) result) (run_of R.Figure.Figures.means self.new cells.new book.new (R.holds roll.new)) }
        ensures code { self.new.code ≡ self.old.code }
        ensures sound { SoundHistories R.Figure.Figures.kind (code_in self.old.code) }
    {
        if !has_all_cells(&self.code, cells) {
            return Err(Refusal::CellCount);
        }
        if stack.len() < self.code.sizes().depth as usize {
            return Err(Refusal::ShortStack);
        }
        if self.has_ended() {
            return Err(Refusal::Ended);
        }
        if steps > MOST_STEPS - self.count {
            return Err(Refusal::StepLimit);
        }
        if book.len() < self.posted {
            return Err(Refusal::ShortBook);
        }
        // the run's own count tells the steps made: one that faults is none
        let before = self.count;
        for made in 0..steps {
            if self.has_ended() {
                return Ok(self.count - before);
            }
            self.make_step(cells, stack, book, roll);
        }
        Ok(self.count - before)
    }

    // The figure of a named cell. As the ready run answers it.
    pub fn ask<F: Figures>(&self, cells: &[F], cell: usize) -> Result<F, Refusal>
        ensures { Asked (code_in self.now.code) (map F.means cells.now) cell (answer F.means result) }
    {
        ask_cell(&self.code, cells, cell)
    }

    // The steps made, the figures posted, and how the run stands.
    pub fn status(&self) -> Status
        ensures { report_of result ≡ report (progress_of self.now) self.now.posted }
    {
        let standing = match self.fault {
            Some(fault) => Standing::Fault(fault, operand_at(&self.code, self.place)),
            None if self.is_at_halt() => Standing::End,
            None => Standing::Going,
        };
        Status {
            count: self.count,
            posted: self.posted,
            standing,
        }
    }
}
