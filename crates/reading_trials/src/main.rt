#![tactic(auto)]

// Reads each text of the file `texts` and prints what the reading says of it, a line each. The file has the texts one after
// the other, each ended by a byte 0.

use parser::parse::parse;
use parser::table::Record;
use std::{fs, io};
use words::table::WordSlot;
use words::token::{Mark, Token};
use words::word::Word;

// The answer for one text.
fn answer(rt: &HostRuntime, text: &[u8], table: &mut [Record]) -> io::Result<()> {
    match parse(text, table) {
        Ok(sentence) => {
            let words = sentence.words;
            println!(rt; "accepted: {words} words")
        }
        Err(refusal) => {
            let number = refusal.number();
            let place = refusal.place();
            println!(rt; "refused {number} at byte {place}")
        }
    }
}

// The answers for all texts of the file.
fn answers(rt: &HostRuntime, bytes: &[u8]) -> io::Result<()> {
    let empty = Record::of_word(Word {
        token: Token::Mark(Mark::Comma),
        place: 0,
    });
    let mut table = [empty; 512];
    for piece in bytes.split_inclusive(|b| *b == 0) {
        if let Some((&0, text)) = piece.split_last() {
            answer(rt, text, &mut table)?;
        }
    }
    Ok(())
}

fn main(rt: HostRuntime) -> io::Result<()> {
    let bytes = fs::read(&rt, "texts")?;
    answers(&rt, bytes.as_slice())
}
