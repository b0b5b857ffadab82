// Refusals of texts, as people read them.

use analysis::offence::Broken;
use grammar::refusal::SentenceRefusal;
use parser::refusal::{ParseRefusal, Refusal as RefusedSentence};
use reading::refusal::TextRefusal;
use reports::excerpt::{Refused, refusal};
use reports::reason::reason;
use std::test::Fail;
use symbols::refusal::NameRefusal;
use words::refusal::{Refusal as RefusedWord, WordRefusal};

// A table that is a constant calls no `from`, so a case has the reason and the place apart.
#[derive(Clone, Copy)]
enum Reason {
    Word(WordRefusal),
    Sentence(SentenceRefusal),
    Name(NameRefusal),
}

struct Case {
    text: &'static [u8],
    reason: Reason,
    number: u8,
    place: usize,
    shown: &'static str,
}

const CASES: [Case; 7] = [
    Case {
        text: b"x := 1 # 2",
        reason: Reason::Word(WordRefusal::NoWord),
        number: 2,
        place: 7,
        shown: "refused 2 at byte 7 (line 1, column 8): no word begins with this byte
  x := 1 # 2
         ^
",
    },
    // An early end is told behind the last byte.
    Case {
        text: b"x := 1 +",
        reason: Reason::Sentence(SentenceRefusal::Unexpected),
        number: 5,
        place: 8,
        shown: "refused 5 at byte 8 (line 1, column 9): the text cannot go on with this, or ends too early
  x := 1 +
          ^
",
    },
    // The second of three lines.
    Case {
        text: b"x := 1;\na: a: stop;\ny := 2",
        reason: Reason::Name(NameRefusal::SecondDefinition),
        number: 7,
        place: 11,
        shown: "refused 7 at byte 11 (line 2, column 4): a name is defined once and has at most one type; a label or a switch has none
  a: a: stop;
     ^
",
    },
    // Bytes that are not printable take four columns.
    Case {
        text: b"x\t:= \xc3\xa9",
        reason: Reason::Word(WordRefusal::NoWord),
        number: 2,
        place: 5,
        shown: "refused 2 at byte 5 (line 1, column 6): no word begins with this byte
  x\\x09:= \\xc3\\xa9
          ^
",
    },
    // An empty line.
    Case {
        text: b"x := 1;\n\n",
        reason: Reason::Sentence(SentenceRefusal::Unexpected),
        number: 5,
        place: 8,
        shown: "refused 5 at byte 8 (line 2, column 1): the text cannot go on with this, or ends too early
  
  ^
",
    },
    // A long line is cut at both ends, or at one.
    Case {
        text: b"a1234567890123456789b1234567890123456789c1234567890123456789d1234567890123456789e1234567890123456789f1234567890123456789",
        reason: Reason::Word(WordRefusal::WordTooLong),
        number: 3,
        place: 60,
        shown: "refused 3 at byte 60 (line 1, column 61): a name has at most 16 letters and digits, a number at most 9 digits
  ...4567890123456789c1234567890123456789d1234567890123456789e123456789012345...
                                         ^
",
    },
    Case {
        text: b"a1234567890123456789b1234567890123456789c1234567890123456789d1234567890123456789",
        reason: Reason::Word(WordRefusal::WordTooLong),
        number: 3,
        place: 0,
        shown: "refused 3 at byte 0 (line 1, column 1): a name has at most 16 letters and digits, a number at most 9 digits
  a1234567890123456789b1234567890123456789c1234567890123456789d12345678901...
  ^
",
    },
];

// The refusal for a reason, told at this byte.
fn refusal_at(reason: Reason, place: usize) -> TextRefusal {
    match reason {
        Reason::Word(reason) => ParseRefusal::from(RefusedWord { reason, place }).into(),
        Reason::Sentence(reason) => ParseRefusal::from(RefusedSentence { reason, place }).into(),
        Reason::Name(rule) => Broken { rule, place }.into(),
    }
}

#[test]
fn refusals_shown(rt: HostRuntime) -> Result<(), Fail> {
    for case in CASES.iter() {
        let refusal = refusal_at(case.reason, case.place);
        assert_eq!(rt; refusal.number(), case.number);
        assert_eq!(rt; refusal.place(), case.place);
        let refused = Refused {
            text: case.text,
            refusal,
        };
        let shown = refused.to_string(rt.alloc())?;
        assert_eq!(rt; shown.as_str(), case.shown);
    }
    Ok(())
}

// A run's fault is told at its text place in the same form, by its own number and words; a number has its words, or those
// that say that it has none.
#[test]
fn told_by_number(rt: HostRuntime) -> Result<(), Fail> {
    let text = b"x := 1 / 0";
    let fault = refusal(rt.alloc(), text, 32, 7, "a division by zero")?;
    let shown =
        "refused 32 at byte 7 (line 1, column 8): a division by zero\n  x := 1 / 0\n         ^\n";
    assert_eq!(rt; fault.as_str(), shown);
    let words = refusal(rt.alloc(), text, 4, 0, reason(4))?;
    let shown =
        "refused 4 at byte 0 (line 1, column 1): the text has more than 500 words\n  x := 1 / 0\n  ^\n";
    assert_eq!(rt; words.as_str(), shown);
    assert_eq!(rt; reason(0), "no reason is known by this number");
    assert_eq!(rt; reason(255), "no reason is known by this number");
    Ok(())
}
