#![tactic(auto)]

// Where a byte stands in a text: its line and column, and the ends of its line, for messages to people.

ghost use Rattle.std.specs.Prelude.{◌≡◌, ◌≤◌, length};
ghost use Rattle.places.specs.Location.{last_start, location, to_line_end};

// Line and column count from 1; the line's bytes are those from `start` up to `end`.
#[derive(Clone, Copy)]
pub struct Location {
    pub line: usize,
    pub column: usize,
    pub start: usize,
    pub end: usize,
}

// The location of a place; one past the text is read as the text's end.
pub fn locate(text: &[u8], place: usize) -> Location
    ensures { result ≡ location text.now place }
{
    let (before, after) = text.split_at(place.min(text.len()));
    let start = line_start(before);
    Location {
        line: 1 + before.iter().filter(|b| **b == b'\n').count(),
        column: before.len() - start + 1,
        start,
        end: before.len() + to_line_end(after),
    }
}

// The place after the last byte 10, where the last line begins.
fn line_start(bytes: &[u8]) -> usize
    ensures value { result ≡ last_start 0 0 bytes.now }
    ensures within { result ≤ length bytes.now }
{
    // a `match`: the check does not find what `map_or` makes of the place
    match bytes.iter().rposition(|b| *b == b'\n') {
        Some(end) => end + 1,
        None => 0,
    }
}

// How many bytes come before the first byte 10.
fn to_line_end(bytes: &[u8]) -> usize
    ensures value { result ≡ to_line_end bytes.now }
    ensures within { result ≤ length bytes.now }
{
    // a `match`: the check does not find what `unwrap_or` makes of the place
    match bytes.iter().position(|b| *b == b'\n') {
        Some(end) => end,
        None => bytes.len(),
    }
}
