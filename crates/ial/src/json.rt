// What a run came to, as one JSON object on a line.

use crate::outcome::{Outcome, Slice};
use code::sizes::Sizes;
use machine::status::Standing;
use std::fmt;

#[derive(Drop)]
pub(crate) struct Json<'a, 'b, F>(pub &'a Outcome<'b, F>);

impl<F: fmt::Display> fmt::Display for Json<'_, '_, F> {
    fn fmt<W: fmt::Write>(&self, f: &mut fmt::Formatter<W>) -> fmt::Result {
        let outcome = self.0;
        write!(f, "{{\"sizes\": {}", JsonSizes(outcome.sizes))?;
        write!(f, ", \"advances\": {}", JsonList::plain(outcome.slices))?;
        write!(f, ", \"count\": {}", outcome.status.count)?;
        write!(f, ", \"posted\": {}", JsonList::quoted(outcome.posted))?;
        write!(f, ", \"status\": {}", JsonStanding(outcome.status.standing))?;
        write!(f, ", \"cells\": {}}}", JsonList::quoted(outcome.cells))
    }
}

#[derive(Clone, Copy)]
struct JsonSizes(Sizes);

impl fmt::Display for JsonSizes {
    fn fmt<W: fmt::Write>(&self, f: &mut fmt::Formatter<W>) -> fmt::Result {
        let Sizes {
            operations,
            named,
            cells,
            depth,
        } = self.0;
        write!(
            f,
            "{{\"n\": {operations}, \"v\": {named}, \"m\": {cells}, \"depth\": {depth}}}"
        )
    }
}

impl fmt::Display for Slice {
    fn fmt<W: fmt::Write>(&self, f: &mut fmt::Formatter<W>) -> fmt::Result {
        write!(f, "[{}, {}]", self.asked, self.made)
    }
}

// A list of what its items print, each between two quotes or none.
#[derive(Drop)]
struct JsonList<'a, T> {
    items: &'a [T],
    quote: &'static str,
}

impl<'a, T> JsonList<'a, T> {
    fn plain(items: &'a [T]) -> JsonList<'a, T> {
        JsonList { items, quote: "" }
    }

    fn quoted(items: &'a [T]) -> JsonList<'a, T> {
        JsonList { items, quote: "\"" }
    }
}

impl<T: fmt::Display> fmt::Display for JsonList<'_, T> {
    fn fmt<W: fmt::Write>(&self, f: &mut fmt::Formatter<W>) -> fmt::Result {
        let quote = self.quote;
        f.write_str("[")?;
        for (i, item) in self.items.iter().enumerate() {
            let comma = if i == 0 { "" } else { ", " };
            write!(f, "{comma}{quote}{item}{quote}")?;
        }
        f.write_str("]")
    }
}

// How a run stands, and behind a fault what is known of it.
#[derive(Clone, Copy)]
struct JsonStanding(Standing);

impl fmt::Display for JsonStanding {
    fn fmt<W: fmt::Write>(&self, f: &mut fmt::Formatter<W>) -> fmt::Result {
        match self.0 {
            Standing::Going => f.write_str("\"going\""),
            Standing::End => f.write_str("\"end\""),
            Standing::Fault(fault, place) => {
                let number = fault.number();
                write!(
                    f,
                    "\"fault\", \"fault\": {{\"number\": {number}, \"place\": {place}, \"roll\": "
                )?;
                match fault.roll_place() {
                    Some(at) => write!(f, "{at}}}"),
                    None => f.write_str("null}"),
                }
            }
        }
    }
}
