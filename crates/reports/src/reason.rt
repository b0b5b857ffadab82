// Why a text is refused, in a rule writer's words.

ghost use Rattle.std.specs.Prelude.{◌≡◌};
ghost use Rattle.words.specs.Refusal.{number as word_number};
ghost use Rattle.grammar.specs.Refusal.{number as sentence_number};
ghost use Rattle.parser.specs.Refusal.{number as parse_number};
ghost use Rattle.symbols.specs.Refusal.{number as name_number};
ghost use Rattle.reading.specs.Refusal.{number};
ghost use Rattle.reports.specs.Reasons.{reason_of};

use crate::worded::Worded;
use grammar::refusal::SentenceRefusal;
use parser::refusal::ParseRefusal;
use reading::refusal::TextRefusal;
use symbols::refusal::NameRefusal;
use words::refusal::WordRefusal;

impl Worded for WordRefusal {
    ghost wording = { λ r. reason_of (word_number r) };

    fn wording(self) -> &'static str {
        match self {
            WordRefusal::TextTooLong => "the text is longer than 8,192 bytes",
            WordRefusal::NoWord => "no word begins with this byte",
            WordRefusal::WordTooLong => {
                "a name has at most 16 letters and digits, a number at most 9 digits"
            }
            WordRefusal::TooManyWords => "the text has more than 500 words",
        }
    }
}

impl Worded for SentenceRefusal {
    ghost wording = { λ r. reason_of (sentence_number r) };

    fn wording(self) -> &'static str {
        match self {
            SentenceRefusal::Unexpected => "the text cannot go on with this, or ends too early",
            SentenceRefusal::TooDeep => {
                "more than 32 brackets, ifs, fors and begins stand within one another"
            }
            SentenceRefusal::TableTooShort => "the tables lent for reading the text are too short",
        }
    }
}

impl Worded for NameRefusal {
    ghost wording = { λ r. reason_of (name_number r) };

    fn wording(self) -> &'static str {
        match self {
            NameRefusal::SecondDefinition => {
                "a name is defined once and has at most one type; a label or a switch has none"
            }
            NameRefusal::MisusedName => "this name is used as something else than it is defined as",
            NameRefusal::WrongType => {
                "a number stands where a truth value is wanted, or a truth value where a number is"
            }
            NameRefusal::JumpIntoFor => "a go to may not lead into the body of a for from outside",
            NameRefusal::WrongBounds => {
                "the lower bound is above the upper, or a bound lies beyond 9,999 either way"
            }
            NameRefusal::TooManyCells => "the names and fors up to here need more than 2,048 cells",
        }
    }
}

impl Worded for ParseRefusal {
    ghost wording = { λ r. reason_of (parse_number r) };

    fn wording(self) -> &'static str {
        match self {
            ParseRefusal::Word(refusal) => refusal.reason.wording(),
            ParseRefusal::Sentence(refusal) => refusal.reason.wording(),
        }
    }
}

impl Worded for TextRefusal {
    ghost wording = { λ r. reason_of (number r) };

    fn wording(self) -> &'static str {
        match self {
            TextRefusal::Sentence(refusal) => refusal.wording(),
            TextRefusal::Names(broken) => broken.rule.wording(),
        }
    }
}

// The reason for a text's refusal by its number alone, as a file or another program may have kept it. A number that is no
// refusal's has words that say so.
pub fn reason(number: u8) -> &'static str
    ensures { result.now ≡ reason_of number }
{
    match number {
        1 => WordRefusal::TextTooLong.wording(),
        2 => WordRefusal::NoWord.wording(),
        3 => WordRefusal::WordTooLong.wording(),
        4 => WordRefusal::TooManyWords.wording(),
        5 => SentenceRefusal::Unexpected.wording(),
        6 => SentenceRefusal::TooDeep.wording(),
        7 => NameRefusal::SecondDefinition.wording(),
        8 => NameRefusal::MisusedName.wording(),
        9 => NameRefusal::WrongType.wording(),
        10 => NameRefusal::JumpIntoFor.wording(),
        11 => NameRefusal::WrongBounds.wording(),
        12 => NameRefusal::TooManyCells.wording(),
        13 => SentenceRefusal::TableTooShort.wording(),
        _ => "no reason is known by this number",
    }
}
