// The fixed words: reserved words and marks.

ghost use Rattle.std.specs.Prelude.{◌≡◌, ℕ, List, ◌∷◌, IfSome};
ghost use Rattle.words.specs.Token.{Token as Meaning};
ghost use Rattle.words.specs.Spelling.{reserved_words, two_byte_marks, one_byte_marks};
ghost use Rattle.words.specs.Words.{Found, exactly, first_of};
ghost use Rattle.words.specs.Inner.{keyword_or, mark_or, IsMark};

use crate::token::{Keyword, Mark, Relation, Scaling, Sign, Token};

// The reserved word that is written so.
pub fn keyword(name: &[u8]) -> Option<Keyword>
    ensures { (t : Meaning) → keyword_or result t ≡ exactly reserved_words name.now t }
{
    match name {
        b"begin" => Some(Keyword::Begin),
        b"end" => Some(Keyword::End),
        b"if" => Some(Keyword::If),
        b"for" => Some(Keyword::For),
        b"go" => Some(Keyword::Go),
        b"to" => Some(Keyword::To),
        b"in" => Some(Keyword::In),
        b"print" => Some(Keyword::Print),
        b"stop" => Some(Keyword::Stop),
        b"switch" => Some(Keyword::Switch),
        b"integer" => Some(Keyword::Integer),
        b"boolean" => Some(Keyword::Boolean),
        b"array" => Some(Keyword::Array),
        b"comment" => Some(Keyword::Comment),
        b"and" => Some(Keyword::And),
        b"or" => Some(Keyword::Or),
        b"not" => Some(Keyword::Not),
        b"eqv" => Some(Keyword::Eqv),
        _ => None,
    }
}

// The mark of these two bytes.
pub fn two_byte_mark(first: u8, second: u8) -> Option<Token>
    ensures is { (bs : List ℕ) (o : Found) → mark_or result 2 o ≡ first_of two_byte_marks (first ∷ (second ∷ bs)) o }
    ensures kind { IfSome result IsMark }
{
    match (first, second) {
        (b':', b'=') => Some(Token::Mark(Mark::Becomes)),
        (b'=', b':') => Some(Token::Mark(Mark::Into)),
        (b'/', b'=') => Some(Token::Relation(Relation::Unequal)),
        (b'<', b'=') => Some(Token::Relation(Relation::AtMost)),
        (b'>', b'=') => Some(Token::Relation(Relation::AtLeast)),
        _ => None,
    }
}

// The mark of this byte.
pub fn one_byte_mark(b: u8) -> Option<Token>
    ensures is { (bs : List ℕ) (o : Found) → mark_or result 1 o ≡ first_of one_byte_marks (b ∷ bs) o }
    ensures kind { IfSome result IsMark }
{
    match b {
        b';' => Some(Token::Mark(Mark::Semicolon)),
        b':' => Some(Token::Mark(Mark::Colon)),
        b',' => Some(Token::Mark(Mark::Comma)),
        b'(' => Some(Token::Mark(Mark::OpenRound)),
        b')' => Some(Token::Mark(Mark::CloseRound)),
        b'[' => Some(Token::Mark(Mark::OpenSquare)),
        b']' => Some(Token::Mark(Mark::CloseSquare)),
        b'+' => Some(Token::Sign(Sign::Plus)),
        b'-' => Some(Token::Sign(Sign::Minus)),
        b'*' => Some(Token::Scaling(Scaling::Times)),
        b'/' => Some(Token::Scaling(Scaling::Over)),
        b'=' => Some(Token::Relation(Relation::Equal)),
        b'<' => Some(Token::Relation(Relation::Less)),
        b'>' => Some(Token::Relation(Relation::More)),
        _ => None,
    }
}
