// A run of stored code over a roll file, in slices of steps, and its report.

use crate::failure::Failure;
use crate::loaded::Loaded;
use crate::outcome::{Outcome, Slice};
use crate::run_arguments::{KindName, RunOptions, Setting};
use crate::{files, outcome};
use code::checked::Checked;
use code::sizes::Sizes;
use figures::kind::{Figures, zero};
use figures::word::NoFigure;
use machine::prepare::prepare;
use machine::ready::Ready;
use machine::running::Running;
use machine::status::Standing;
use rolls::amounts::AmountRoll;
use rolls::leavers::LeaverFilter;
use rolls::roll::Roll;
use rolls::text::TextRoll;
use std::alloc::{AllocError, Global};
use std::fmt;
use std::str::FromStr;

pub(crate) fn report(
    rt: &HostRuntime,
    code: &str,
    roll: &str,
    options: &RunOptions,
) -> Result<(), Failure> {
    let loaded = Loaded::read(rt, code)?;
    let bytes = files::read(rt, roll)?;
    let checked = loaded.check()?;
    match options.kind {
        KindName::Whole => filtered(rt, options, &checked, TextRoll::new(bytes.as_slice())),
        KindName::Hundredths => filtered(rt, options, &checked, AmountRoll::new(bytes.as_slice())),
    }
}

// The run over a roll, through the leaver filter where a group size is given.
fn filtered<R: Roll + Drop>(
    rt: &HostRuntime,
    options: &RunOptions,
    code: &Checked<'_>,
    mut roll: R,
) -> Result<(), Failure>
where
    R::Figure: fmt::Display + FromStr<Err = NoFigure>,
{
    match options.group {
        None => run(rt, options, code, &mut roll),
        Some(size) => {
            let mut filter = LeaverFilter::new(roll, size)?;
            run(rt, options, code, &mut filter)
        }
    }
}

fn run<R: Roll>(
    rt: &HostRuntime,
    options: &RunOptions,
    code: &Checked<'_>,
    roll: &mut R,
) -> Result<(), Failure>
where
    R::Figure: fmt::Display + FromStr<Err = NoFigure>,
{
    let sizes = code.sizes();
    let mut memory = RunMemory::new(rt.alloc(), sizes, options.book)?;
    let mut ready = Ready::lone_halt();
    prepare(&mut ready, code, memory.cells.as_mut_slice())?;
    memory.enter(&ready, options.settings.as_slice())?;
    let mut running = ready.start();
    let slices = memory.advance_all(rt, options, &mut running, roll)?;
    let status = running.status();
    let outcome = Outcome {
        sizes,
        slices: slices.as_slice(),
        status,
        cells: front(memory.cells.as_slice(), sizes.named as usize),
        posted: front(memory.book.as_slice(), status.posted),
    };
    outcome.print(rt, options.json)?;
    Ok(())
}

// The first so many, or all where there are fewer.
fn front<T>(items: &[T], count: usize) -> &[T] {
    &items[..count.min(items.len())]
}

// What a run is lent: its cells, its stack and its book.
#[derive(Drop)]
struct RunMemory<F> {
    cells: Vec<F>,
    stack: Vec<F>,
    book: Vec<F>,
}

impl<F: Figures + FromStr<Err = NoFigure>> RunMemory<F> {
    fn new(heap: Global, sizes: Sizes, book: usize) -> Result<RunMemory<F>, AllocError> {
        let nought = zero::<F>();
        Ok(RunMemory {
            cells: vec![in heap; nought; sizes.cells as usize]?,
            stack: vec![in heap; nought; sizes.depth as usize]?,
            book: vec![in heap; nought; book]?,
        })
    }

    // Enters the figures that the command line gives for cells.
    fn enter(&mut self, ready: &Ready<'_>, settings: &[Setting]) -> Result<(), Failure> {
        for setting in settings {
            let figure: F = setting.figure.parse()?;
            ready.enter(self.cells.as_mut_slice(), setting.cell, figure)?;
        }
        Ok(())
    }

    // Advances slice by slice until the run ends or has made the steps of the limit.
    fn advance_all<R: Roll<Figure = F>>(
        &mut self,
        rt: &HostRuntime,
        options: &RunOptions,
        running: &mut Running<'_>,
        roll: &mut R,
    ) -> Result<Vec<Slice>, Failure> {
        let mut slices = Vec::new(rt.alloc());
        let mut left = options.limit;
        'slices: while left > 0 && running.status().standing == Standing::Going {
            let asked = options.steps.get().min(left);
            let made = running.advance(
                asked,
                self.cells.as_mut_slice(),
                self.stack.as_mut_slice(),
                self.book.as_mut_slice(),
                roll,
            )?;
            slices.push(Slice { asked, made })?;
            // a run that still goes on has made all that was asked
            left -= asked;
            outcome::progress(rt, running.status().count);
        }
        Ok(slices)
    }
}
