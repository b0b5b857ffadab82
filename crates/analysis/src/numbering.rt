// Lines for the names of a text: each name has one, in the order of first appearance, and each of its words its number.

ghost use Rattle.std.specs.Prelude.{◌≡◌, ◌<◌, ◌≤◌, length};
ghost use Rattle.analysis.specs.Numbering.{new_line, found_line, number_or, lines_with, EntersWord, EntersWords};

use crate::letters::letters_of;
use crate::line_search::find_line;
use crate::symbol::{NameKind, NameRecord};
use parser::table::Record;
use symbols::value_type::ValueType;
use words::token::Token;

// The line of a name that first appears at word w, of which nothing is known yet.
fn new_line(w: usize) -> NameRecord
    ensures { result ≡ new_line w }
{
    NameRecord {
        word: w,
        kind: NameKind::Variable,
        value_type: ValueType::Untyped,
        first: 0,
        place: 0,
        target: false,
    }
}

// The line of word w's name among the first n, or line n, which it then gets. The first n lines are filled; the table is
// the caller's. Text and records are no one value: the two calls below write the records.
fn enter_name(
    text: &[u8],
    records: &[Record],
    w: usize,
    names: &mut [NameRecord],
    n: usize,
) -> usize
    requires { n ≤ length names.old }
    ensures number { result ≡ number_or n (found_line text.now records.now w names.old n) }
    ensures lines { names.new ≡ lines_with names.old w n (found_line text.now records.now w names.old n) }
{
    let sought = letters_of(text, records, w);
    match find_line(text, records, &names[0..n], sought) {
        Some(k) => k,
        None => {
            if n < names.len() {
                names[n] = new_line(w);
            }
            n
        }
    }
}

// Gives word w its line, if it is a name, and tells how many lines there are then.
fn number_word(
    text: &[u8],
    records: &mut [Record],
    w: usize,
    names: &mut [NameRecord],
    n: usize,
) -> usize
    requires { (w < length records.old) × (n ≤ length names.old) }
    ensures { EntersWord text.now records.old records.new w n result names.old names.new }
{
    match records[w].word.token {
        Token::Name(_) => {
            let k = enter_name(text, records, w, names, n);
            records[w].symbol = k;
            if k == n && n < names.len() { n + 1 } else { n }
        }
        _ => n,
    }
}

// Gives each name among the first words its line, and tells how many lines there are.
pub(crate) fn number_names(
    text: &[u8],
    records: &mut [Record],
    count: usize,
    names: &mut [NameRecord],
) -> usize
    ensures { EntersWords text.now count records.old records.new result names.old names.new }
{
    let mut n = 0;
    let end = count.min(records.len());
    // By number: each step writes one record and reads the letters of others.
    for w in 0..end {
        n = number_word(text, records, w, names, n);
    }
    n
}
