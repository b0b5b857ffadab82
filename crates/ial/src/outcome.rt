// What a run came to, for people or as one JSON object.

use crate::json::Json;
use code::sizes::Sizes;
use machine::status::{Standing, Status};
use std::io::IsTerminal;
use std::{fmt, io};

// One advance: the steps asked for and those made.
#[derive(Clone, Copy)]
pub struct Slice {
    pub asked: u64,
    pub made: u64,
}

// What a run came to: its advances and its status, the named cells, and the figures that it posted.
#[derive(Drop)]
pub(crate) struct Outcome<'a, F> {
    pub sizes: Sizes,
    pub slices: &'a [Slice],
    pub status: Status,
    pub cells: &'a [F],
    pub posted: &'a [F],
}

// The count of steps on standard error, where that is a terminal.
pub(crate) fn progress(rt: &HostRuntime, count: u64) {
    if rt.stderr().is_terminal() {
        let _ = eprint!(rt; "\r{count} steps");
    }
}

impl<F: fmt::Display> Outcome<'_, F> {
    pub(crate) fn print(&self, rt: &HostRuntime, json: bool) -> io::Result<()> {
        if rt.stderr().is_terminal() {
            let _ = rt.eprint("\r");
        }
        if json {
            println!(rt; "{}", Json(self))
        } else {
            print!(rt; "{self}")
        }
    }
}

// For people, in lines.
impl<F: fmt::Display> fmt::Display for Outcome<'_, F> {
    fn fmt<W: fmt::Write>(&self, f: &mut fmt::Formatter<W>) -> fmt::Result {
        writeln!(f, "posted: {}", self.status.posted)?;
        for figure in self.posted {
            writeln!(f, "  {figure}")?;
        }
        writeln!(f, "count: {}", self.status.count)?;
        writeln!(f, "status: {}", StandingInWords(self.status.standing))?;
        writeln!(f, "cells: {}", self.sizes.named)?;
        for (cell, figure) in self.cells.iter().enumerate() {
            writeln!(f, "  {cell}: {figure}")?;
        }
        Ok(())
    }
}

// How a run stands, in words.
#[derive(Clone, Copy)]
struct StandingInWords(Standing);

impl fmt::Display for StandingInWords {
    fn fmt<W: fmt::Write>(&self, f: &mut fmt::Formatter<W>) -> fmt::Result {
        match self.0 {
            Standing::Going => f.write_str("going"),
            Standing::End => f.write_str("end"),
            Standing::Fault(fault, place) => {
                write!(f, "fault {} at text byte {place}", fault.number())?;
                if let Some(at) = fault.roll_place() {
                    write!(f, ", roll byte {at}")?;
                }
                write!(f, ": {fault}")
            }
        }
    }
}
