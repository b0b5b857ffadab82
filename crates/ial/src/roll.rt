// The report of a roll file.

use crate::failure::Failure;
use crate::files;
use crate::visible::Visible;
use figures::whole::Whole;
use places::locate;
use rolls::leavers::LeaverFilter;
use rolls::roll::Ending;
use rolls::tally::{Tally, add_up};
use rolls::text::TextRoll;
use std::fmt;

pub(crate) fn report(rt: &HostRuntime, file: &str, group: Option<usize>) -> Result<(), Failure> {
    let bytes = files::read(rt, file)?;
    let report = RollReport {
        bytes: bytes.as_slice(),
        tally: tally(bytes.as_slice(), group)?,
    };
    println!(rt; "{report}")?;
    Ok(())
}

// The tally of a file's roll, through the leaver filter where a group size is given. A run makes the same choice for
// itself: a closure that both could hand to one function cannot be generic over the roll.
fn tally(bytes: &[u8], group: Option<usize>) -> Result<Tally<Whole>, Failure> {
    let mut roll = TextRoll::new(bytes);
    match group {
        None => Ok(add_up(&mut roll)),
        Some(size) => {
            let mut filter = LeaverFilter::new(roll, size)?;
            Ok(add_up(&mut filter))
        }
    }
}

// What a file's roll came to.
#[derive(Clone, Copy)]
struct RollReport<'a> {
    bytes: &'a [u8],
    tally: Tally<Whole>,
}

impl fmt::Display for RollReport<'_> {
    fn fmt<W: fmt::Write>(&self, f: &mut fmt::Formatter<W>) -> fmt::Result {
        writeln!(f, "figures: {}", self.tally.count)?;
        match self.tally.sum {
            Ok(total) => writeln!(f, "total: {total}")?,
            Err(fault) => writeln!(f, "total: refused {}", fault.number())?,
        }
        match self.tally.ending {
            Ending::End => f.write_str("ending: end"),
            // the place of the damage, and the line that begins there
            Ending::Damaged(place) => {
                let location = locate(self.bytes, place);
                let line = location.line;
                let bytes = self.bytes.get(location.start..location.end);
                let visible = Visible(bytes.unwrap_or(&[]));
                write!(
                    f,
                    "ending: damaged at byte {place} (line {line})\n  {visible}"
                )
            }
        }
    }
}
