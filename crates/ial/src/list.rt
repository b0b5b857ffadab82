// The listing of a stored code file, an operation a line.

use crate::failure::Failure;
use crate::loaded::Loaded;
use code::descriptor::Descriptor;
use code::operations::{Operand, Operation};
use std::fmt;

pub(crate) fn report(rt: &HostRuntime, file: &str) -> Result<(), Failure> {
    let loaded = Loaded::read(rt, file)?;
    let refused = loaded.check().err();
    println!(rt; "{}", loaded.sizes)?;
    let pairs = loaded.operations.iter().zip(loaded.operands.iter());
    for (place, (byte, operand)) in pairs.enumerate() {
        let line = Line {
            place,
            byte: *byte,
            operand: *operand,
        };
        println!(rt; "{line}")?;
        if let Some(refusal) = refused
            && refusal.operation() == Some(place)
        {
            println!(rt;
                "     ^  refused {}: {}",
                refusal.number(),
                refusal.reason()
            )?;
        }
    }
    Ok(())
}

// A line of the listing: an operation's place, its name, and its operand in words.
#[derive(Clone, Copy)]
struct Line {
    place: usize,
    byte: u8,
    operand: u64,
}

impl fmt::Display for Line {
    fn fmt<W: fmt::Write>(&self, f: &mut fmt::Formatter<W>) -> fmt::Result {
        let Line {
            place,
            byte,
            operand,
        } = *self;
        let Ok(operation) = Operation::try_from(byte) else {
            return write!(f, "{place:>6}  byte {byte}, operand {operand}");
        };
        match operation.operand() {
            Operand::Unused if operand == 0 => write!(f, "{place:>6}  {operation}"),
            kind => write!(
                f,
                "{place:>6}  {operation:<6} {}",
                OperandInWords(kind, operand)
            ),
        }
    }
}

// An operand in words.
#[derive(Clone, Copy)]
struct OperandInWords(Operand, u64);

impl fmt::Display for OperandInWords {
    fn fmt<W: fmt::Write>(&self, f: &mut fmt::Formatter<W>) -> fmt::Result {
        let OperandInWords(kind, x) = *self;
        match kind {
            Operand::Unused => write!(f, "operand {x}"),
            Operand::TextPlace => write!(f, "text {x}"),
            Operand::Constant | Operand::RowCount => write!(f, "{x}"),
            Operand::Cell => write!(f, "cell {x}"),
            Operand::CellRange => write!(f, "{}", Cells(Descriptor::from(x))),
            Operand::Target => write!(f, "to {x}"),
        }
    }
}

// An array's cells in words.
#[derive(Clone, Copy)]
struct Cells(Descriptor);

impl fmt::Display for Cells {
    fn fmt<W: fmt::Write>(&self, f: &mut fmt::Formatter<W>) -> fmt::Result {
        let (first, count) = (self.0.first, self.0.count);
        match self.0.low_bound() {
            Some(low) => write!(f, "cells {first}, count {count}, low bound {low}"),
            None => write!(f, "cells {first}, count {count}, no low bound"),
        }
    }
}
