// The reader: from a text and a place to the next word.

ghost use Rattle.std.specs.Prelude.{◌≡◌, ℕ, ◌-◌, ◌<◌, ◌≤◌, true, List, length, take, drop, slice_index, IfSome};
ghost use Rattle.std.specs.Char.{is_ascii_alphabetic, is_ascii_digit};
ghost use Rattle.std.specs.Iterator.{at_most};
ghost use Rattle.words.specs.Spelling.{two_byte_marks};
ghost use Rattle.words.specs.Words.{Found, first_of, name_token, skipped, name_at, number_at, mark_at, longest_at, next_of};
ghost use Rattle.words.specs.Records.{token_in, next_in, Advances, Gives};
ghost use Rattle.words.specs.Inner.{mark_or, IsMark, IsTaken};

use crate::bytes::{run, value};
use crate::fixed::{keyword, one_byte_mark, two_byte_mark};
use crate::refusal::{Refusal, WordRefusal};
use crate::token::Token;
use crate::word::Word;

const LONGEST_NAME: usize = 16;

const LONGEST_NUMBER: usize = 9;

// The token of a name or a reserved word.
fn name_token(name: &[u8]) -> Token
    ensures { (bs : List ℕ) → take (length name.now) bs ≡ name.now → token_in bs result ≡ name_token name.now }
{
    match keyword(name) {
        Some(k) => Token::Keyword(k),
        None => Token::Name(name.len()),
    }
}

// How many of the bytes after it a name or reserved word skips.
fn skipped(name: &[u8], after: &[u8]) -> usize
    ensures is { result ≡ skipped name.now after.now }
    ensures within { result ≤ length after.now }
{
    match name {
        b"comment" => run(after, |b| *b != b';'),
        _ => 0,
    }
}

// The name or reserved word at the front, where a letter stands: its token, and how many bytes it takes with what it
// skips.
fn read_name(bytes: &[u8]) -> Result<(Token, usize), WordRefusal>
    requires { is_ascii_alphabetic (slice_index bytes.now 0) ≡ true }
    ensures { IsTaken (name_at bytes.now) bytes.now result }
{
    let length = run(bytes, |b| b.is_ascii_alphanumeric());
    if length > LONGEST_NAME {
        return Err(WordRefusal::WordTooLong);
    }
    let (name, after) = bytes.split_at(length);
    Ok((name_token(name), length + skipped(name, after)))
}

// The number at the front, where a digit stands.
fn read_number(bytes: &[u8]) -> Result<(Token, usize), WordRefusal>
    requires { is_ascii_digit (slice_index bytes.now 0) ≡ true }
    ensures { IsTaken (number_at bytes.now) bytes.now result }
{
    let length = run(bytes, |b| b.is_ascii_digit());
    if length > LONGEST_NUMBER {
        return Err(WordRefusal::WordTooLong);
    }
    Ok((Token::Number(value(&bytes[..length])), length))
}

// The mark of two bytes at the front.
fn longer_mark(bytes: &[u8]) -> Option<Token>
    ensures is { (o : Found) → mark_or result 2 o ≡ first_of two_byte_marks bytes.now o }
    ensures kind { IfSome result (λ m. IsMark m × (2 ≤ length bytes.now)) }
{
    match bytes {
        [first, second, ..] => two_byte_mark(*first, *second),
        _ => None,
    }
}

// The mark at the front, the longest that begins there.
fn read_mark(bytes: &[u8]) -> Result<(Token, usize), WordRefusal>
    requires { 0 < length bytes.now }
    ensures { IsTaken (mark_at bytes.now) bytes.now result }
{
    if let Some(token) = longer_mark(bytes) {
        return Ok((token, 2));
    }
    // a `match`: behind `ok_or` and `?` the check does not find which refusal comes
    match one_byte_mark(bytes[0]) {
        Some(token) => Ok((token, 1)),
        None => Err(WordRefusal::NoWord),
    }
}

// The longest word at the front.
fn read_word(bytes: &[u8]) -> Result<(Token, usize), WordRefusal>
    requires { 0 < length bytes.now }
    ensures { IsTaken (longest_at bytes.now) bytes.now result }
{
    match bytes[0] {
        b if b.is_ascii_alphabetic() => read_name(bytes),
        b if b.is_ascii_digit() => read_number(bytes),
        _ => read_mark(bytes),
    }
}

// The first word at or after the place `at`, and the place to go on from; nothing at the end of the text.
pub fn next_word(text: &[u8], at: usize) -> Result<Option<(Word, usize)>, Refusal>
    ensures is { next_in text.now result ≡ next_of at (drop at text.now) }
    ensures advances { Advances at (length text.now) result }
{
    if at >= text.len() {
        return Ok(None);
    }
    let place = at + run(&text[at..], |b| matches!(b, b' ' | b'\n'));
    let bytes = &text[place..];
    if bytes.is_empty() {
        return Ok(None);
    }
    // a `match`, as in `read_mark`
    match read_word(bytes) {
        Ok((token, taken)) => Ok(Some((Word { token, place }, place + taken))),
        Err(reason) => Err(Refusal { reason, place }),
    }
}

// The words of a text, one after another. The first refusal is the last item.
#[derive(Drop)]
pub struct Words<'a> {
    text: &'a [u8],
    at: usize,
}

impl<'a> Words<'a> {
    // Those of the whole text.
    pub fn of(text: &'a [u8]) -> Self
        ensures text { result.text.now ≡ text.now }
        ensures at { result.at ≡ 0 }
    {
        Words { text, at: 0 }
    }
}

impl<'a> Iterator for Words<'a> {
    type Item = Result<Word, Refusal>;

    ghost next_gives = { λ s r t. (t.text ≡ s.text) × Gives s.text.now s.at r t.at };

    ghost remaining = { λ s. at_most (length s.text.now - s.at) };

    fn next(&mut self) -> Option<Result<Word, Refusal>> {
        match next_word(self.text, self.at) {
            Ok(next) => {
                let (word, after) = next?;
                self.at = after;
                Some(Ok(word))
            }
            Err(refusal) => {
                self.at = self.text.len();
                Some(Err(refusal))
            }
        }
    }
}
