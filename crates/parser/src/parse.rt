// From the bytes of a text to its tree.

ghost use Rattle.std.specs.Prelude.{◌≤◌, length};
ghost use Rattle.parser.specs.Reading.{ParsesWords, Parsed};

use crate::refusal::{ParseRefusal, Refusal};
use crate::table::{Parser, Record};
use grammar::refusal::SentenceRefusal;
use words::table::cut_words;

const FEWEST_RECORDS: usize = 512;

const MOST_LEVELS: usize = 32;

// A text that was read: the node of its tree's root, and how many words it has.
#[derive(Clone, Copy)]
pub struct Sentence {
    pub root: usize,
    pub words: usize,
}

// The tree of the first `count` words of the table.
fn parse_words(text: &[u8], table: &mut [Record], count: usize) -> Result<usize, Refusal>
    requires { count ≤ length table.old }
    ensures { ParsesWords text.now table.old count result table.new }
{
    let mut parser = Parser {
        text,
        table,
        count,
        at: 0,
        made: 0,
    };
    parser.program(MOST_LEVELS)
}

// Reads a text: its words and its tree stand in the table, or it is refused.
pub fn parse(text: &[u8], table: &mut [Record]) -> Result<Sentence, ParseRefusal>
    ensures { Parsed text.now table.old result table.new }
{
    if table.len() < FEWEST_RECORDS {
        return Err(ParseRefusal::Sentence(Refusal {
            reason: SentenceRefusal::TableTooShort,
            place: 0,
        }));
    }
    let words = cut_words(text, table)?;
    let root = parse_words(text, table, words)?;
    Ok(Sentence { root, words })
}
