// A place of a text for people: its line and column, the line of text, and a caret under the place.

ghost use Rattle.std.specs.Prelude.{◌≡◌, ◌≤◌, [], cond, IfOk, Some};
ghost use Rattle.std.specs.List.{flat_map};
ghost use Rattle.std.specs.String.{string_bytes};
ghost use Rattle.reading.specs.Refusal.{number, place as refusal_place};
ghost use Rattle.reports.specs.Excerpts.{blanks_for, CaretLawOf, excerpt_of, part_of, refusal_of, shown_byte, words_of_place};
ghost use Rattle.reports.specs.Reasons.{reason_of};
ghost use Rattle.reports.specs.Windows.{window_of, WindowLaw};

use crate::each::write_each;
use crate::part::part;
use crate::worded::Worded;
use places::locate;
use reading::refusal::TextRefusal;
use std::alloc::{AllocError, Global};
use std::fmt;

// The part of a line that is shown: the bytes from `from` up to `to`.
#[derive(Clone, Copy, PartialEq, Eq, Debug)]
pub struct Window {
    pub from: usize,
    pub to: usize,
}

// At most 72 bytes of a line, with the place in the middle where the line is longer.
fn window_at(start: usize, end: usize, place: usize) -> Window
    ensures is { result ≡ window_of start end place }
    ensures law { start ≤ place → place ≤ end → WindowLaw start end place result }
{
    let before = place.saturating_sub(start).saturating_sub(36);
    let over = end.saturating_sub(start).saturating_sub(72);
    let from = start + before.min(over);
    let to = if end.saturating_sub(from) < 72 {
        end
    } else {
        from + 72
    };
    Window { from, to }
}

// Printable ASCII as it stands, any other byte by its number.
#[derive(Clone, Copy)]
struct Shown(u8);

impl fmt::Display for Shown {
    ghost output = { λ b. Some (shown_byte b.0) };

    fn fmt<W: fmt::Write>(&self, f: &mut fmt::Formatter<W>) -> fmt::Result {
        match self.0 {
            byte @ b' '..=b'~' => f.write_char(char::from(byte)),
            byte => write!(f, "\\x{byte:02x}"),
        }
    }
}

// As many blanks as `Shown` writes characters.
#[derive(Clone, Copy)]
struct Blanks(u8);

impl fmt::Display for Blanks {
    ghost output = { λ b. Some (blanks_for b.0) };

    fn fmt<W: fmt::Write>(&self, f: &mut fmt::Formatter<W>) -> fmt::Result {
        f.write_str(match self.0 {
            b' '..=b'~' => " ",
            _ => "    ",
        })
    }
}

// Each byte as it is shown. This and the next are two types: the bytes that a `Display` states cannot be those of a
// closure that it holds.
#[derive(Clone, Copy)]
struct ShownBytes<'a>(&'a [u8]);

impl fmt::Display for ShownBytes<'_> {
    ghost output = { λ l. Some (flat_map shown_byte l.0.now) };

    fn fmt<W: fmt::Write>(&self, f: &mut fmt::Formatter<W>) -> fmt::Result {
        write_each(f, self.0, Shown)
    }
}

// Each byte's blanks.
#[derive(Clone, Copy)]
struct BlankBytes<'a>(&'a [u8]);

impl fmt::Display for BlankBytes<'_> {
    ghost output = { λ l. Some (flat_map blanks_for l.0.now) };

    fn fmt<W: fmt::Write>(&self, f: &mut fmt::Formatter<W>) -> fmt::Result {
        write_each(f, self.0, Blanks)
    }
}

// The words where they are to be shown, else none.
fn only_if(is_shown: bool, words: &str) -> &str
    ensures { result.now ≡ cond is_shown words.now [] }
{
    if is_shown { words } else { "" }
}

// The bytes of a text from one place up to another.
fn between(text: &[u8], from: usize, to: usize) -> &[u8]
    ensures { result.now ≡ part_of text.now from to }
{
    part(text, from, to.saturating_sub(from))
}

// A place of a text, told by its byte's number, its line and its column.
#[derive(Clone, Copy)]
pub struct Place<'a> {
    pub text: &'a [u8],
    pub byte: usize,
}

impl<'a> Place<'a> {
    // The line of text of the place and the caret's line.
    pub fn excerpt(self) -> Excerpt<'a>
        ensures text { result.place.text.now ≡ self.entry.text.now }
        ensures byte { result.place.byte ≡ self.entry.byte }
        ensures law { CaretLawOf result.place.text.now result.place.byte }
    {
        Excerpt { place: self }
    }
}

impl fmt::Display for Place<'_> {
    ghost output = { λ p. Some (words_of_place p.text.now p.byte) };

    fn fmt<W: fmt::Write>(&self, f: &mut fmt::Formatter<W>) -> fmt::Result {
        let byte = self.byte;
        let location = locate(self.text, byte);
        let line = location.line;
        let column = location.column;
        write!(f, "byte {byte} (line {line}, column {column})")
    }
}

// The line of a place, with `...` where it is cut off, and below it a caret under the place, both indented.
#[derive(Clone, Copy)]
pub struct Excerpt<'a> {
    pub place: Place<'a>,
}

impl fmt::Display for Excerpt<'_> {
    ghost output = { λ e. Some (excerpt_of e.place.text.now e.place.byte) };

    fn fmt<W: fmt::Write>(&self, f: &mut fmt::Formatter<W>) -> fmt::Result {
        let text = self.place.text;
        let place = self.place.byte.min(text.len());
        let line = locate(text, place);
        let shown = window_at(line.start, line.end, place);
        let is_cut = line.start < shown.from;
        let left = only_if(is_cut, "...");
        let words = ShownBytes(between(text, shown.from, shown.to));
        let right = only_if(shown.to < line.end, "...");
        writeln!(f, "  {left}{words}{right}")?;
        let left = only_if(is_cut, "   ");
        let blanks = BlankBytes(between(text, shown.from, place));
        writeln!(f, "  {left}{blanks}^")
    }
}

// A refusal by its number, its place and the words of its reason, and the line with its caret. The number and the words
// are the teller's, so that what is no refusal of a text, as a run's fault at its place, is told in the same form.
#[derive(Clone, Copy)]
pub struct Told<'a> {
    pub text: &'a [u8],
    pub number: u8,
    pub place: usize,
    pub reason: &'a str,
}

impl fmt::Display for Told<'_> {
    ghost output = { λ t. Some (refusal_of t.text.now t.number t.place t.reason.now) };

    fn fmt<W: fmt::Write>(&self, f: &mut fmt::Formatter<W>) -> fmt::Result {
        let place = Place {
            text: self.text,
            byte: self.place,
        };
        let number = self.number;
        let reason = self.reason;
        let excerpt = place.excerpt();
        write!(f, "refused {number} at {place}: {reason}\n{excerpt}")
    }
}

// The same as a text of its own, in memory.
pub fn refusal(
    heap: Global,
    text: &[u8],
    number: u8,
    place: usize,
    reason: &str,
) -> Result<String, AllocError>
    ensures { IfOk result (λ s. string_bytes s ≡ refusal_of text.now number place reason.now) }
{
    let told = Told {
        text,
        number,
        place,
        reason,
    };
    told.to_string(heap)
}

// A text's refusal, which knows its number, its place and its reason.
#[derive(Clone, Copy)]
pub struct Refused<'a> {
    pub text: &'a [u8],
    pub refusal: TextRefusal,
}

impl fmt::Display for Refused<'_> {
    ghost output = { λ r. Some (refusal_of r.text.now (number r.refusal) (refusal_place r.refusal) (reason_of (number r.refusal))) };

    fn fmt<W: fmt::Write>(&self, f: &mut fmt::Formatter<W>) -> fmt::Result {
        let told = Told {
            text: self.text,
            number: self.refusal.number(),
            place: self.refusal.place(),
            reason: self.refusal.wording(),
        };
        write!(f, "{told}")
    }
}
