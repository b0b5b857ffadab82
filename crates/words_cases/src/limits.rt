use crate::reading::outcome_of;
use std::alloc::{AllocError, Global};
use std::test::Fail;
use words::refusal::{Refusal, WordRefusal};

struct Case {
    text: &'static [u8],
    outcome: Result<usize, Refusal>,
}

const CASES: [Case; 26] = [
    // Nothing, and gaps alone.
    Case {
        text: b"",
        outcome: Ok(0),
    },
    Case {
        text: b"  \n ",
        outcome: Ok(0),
    },
    // A byte that begins no word: a mark we do not have, a tab, a byte over 127, the first of two.
    Case {
        text: b"x := 1 # 2",
        outcome: Err(Refusal {
            reason: WordRefusal::NoWord,
            place: 7,
        }),
    },
    Case {
        text: b"a\tb",
        outcome: Err(Refusal {
            reason: WordRefusal::NoWord,
            place: 1,
        }),
    },
    Case {
        text: b"\xff",
        outcome: Err(Refusal {
            reason: WordRefusal::NoWord,
            place: 0,
        }),
    },
    Case {
        text: b"a . b # c",
        outcome: Err(Refusal {
            reason: WordRefusal::NoWord,
            place: 2,
        }),
    },
    // 9 and 10 digits; leading zeros count.
    Case {
        text: b"x := 123456789",
        outcome: Ok(3),
    },
    Case {
        text: b"x := 1234567890",
        outcome: Err(Refusal {
            reason: WordRefusal::WordTooLong,
            place: 5,
        }),
    },
    Case {
        text: b"000000001",
        outcome: Ok(1),
    },
    Case {
        text: b"0000000001",
        outcome: Err(Refusal {
            reason: WordRefusal::WordTooLong,
            place: 0,
        }),
    },
    // 16 and 17 bytes of a name.
    Case {
        text: b"abcdefghijklmnop",
        outcome: Ok(1),
    },
    Case {
        text: b"abcdefghijklmnopq",
        outcome: Err(Refusal {
            reason: WordRefusal::WordTooLong,
            place: 0,
        }),
    },
    Case {
        text: b"a23456789012345b7",
        outcome: Err(Refusal {
            reason: WordRefusal::WordTooLong,
            place: 0,
        }),
    },
    // The earliest place goes.
    Case {
        text: b"1234567890 #",
        outcome: Err(Refusal {
            reason: WordRefusal::WordTooLong,
            place: 0,
        }),
    },
    Case {
        text: b"# 1234567890",
        outcome: Err(Refusal {
            reason: WordRefusal::NoWord,
            place: 0,
        }),
    },
    // A number ends at its last digit.
    Case {
        text: b"12ab",
        outcome: Ok(2),
    },
    Case {
        text: b"123456789a",
        outcome: Ok(2),
    },
    // The longest mark.
    Case {
        text: b"a<=b",
        outcome: Ok(3),
    },
    Case {
        text: b"a< =b",
        outcome: Ok(4),
    },
    Case {
        text: b":==:/=<=>=",
        outcome: Ok(5),
    },
    Case {
        text: b"in=:(n);",
        outcome: Ok(6),
    },
    // Comments: whatever they skip, up to a semicolon or the end.
    Case {
        text: b"comment",
        outcome: Ok(1),
    },
    Case {
        text: b"comment#\xff 1234567890;x",
        outcome: Ok(3),
    },
    Case {
        text: b"x := comment 1; 2",
        outcome: Ok(5),
    },
    Case {
        text: b"comment comment; comment",
        outcome: Ok(3),
    },
    Case {
        text: b"comments;# Comment",
        outcome: Err(Refusal {
            reason: WordRefusal::NoWord,
            place: 9,
        }),
    },
];

#[test]
fn small_texts(rt: HostRuntime) {
    for case in CASES.iter() {
        assert_eq!(rt; outcome_of(case.text), case.outcome);
    }
}

// A piece written so many times, and then an end.
fn repeated(heap: Global, piece: &[u8], times: usize, end: &[u8]) -> Result<Vec<u8>, AllocError> {
    let mut text = Vec::new(heap);
    for _ in 0..times {
        text.extend_from_slice(piece)?;
    }
    text.extend_from_slice(end)?;
    Ok(text)
}

struct LargeCase {
    piece: &'static [u8],
    times: usize,
    end: &'static [u8],
    outcome: Result<usize, Refusal>,
}

const LARGE_CASES: [LargeCase; 12] = [
    // 500 and 501 words; at the 501st place a fault of its own goes first.
    LargeCase {
        piece: b"a ",
        times: 500,
        end: b"",
        outcome: Ok(500),
    },
    LargeCase {
        piece: b"a ",
        times: 501,
        end: b"",
        outcome: Err(Refusal {
            reason: WordRefusal::TooManyWords,
            place: 1000,
        }),
    },
    LargeCase {
        piece: b";",
        times: 500,
        end: b" \n",
        outcome: Ok(500),
    },
    LargeCase {
        piece: b";",
        times: 500,
        end: b"\n comment",
        outcome: Err(Refusal {
            reason: WordRefusal::TooManyWords,
            place: 502,
        }),
    },
    LargeCase {
        piece: b"a ",
        times: 500,
        end: b"#",
        outcome: Err(Refusal {
            reason: WordRefusal::NoWord,
            place: 1000,
        }),
    },
    LargeCase {
        piece: b"a ",
        times: 500,
        end: b"1234567890",
        outcome: Err(Refusal {
            reason: WordRefusal::WordTooLong,
            place: 1000,
        }),
    },
    LargeCase {
        piece: b"a ",
        times: 500,
        end: b"b #",
        outcome: Err(Refusal {
            reason: WordRefusal::TooManyWords,
            place: 1000,
        }),
    },
    // 8,192 and 8,193 bytes; the length goes before everything else.
    LargeCase {
        piece: b" ",
        times: 8191,
        end: b"a",
        outcome: Ok(1),
    },
    LargeCase {
        piece: b" ",
        times: 8192,
        end: b"a",
        outcome: Err(Refusal {
            reason: WordRefusal::TextTooLong,
            place: 8192,
        }),
    },
    LargeCase {
        piece: b"#",
        times: 8193,
        end: b"",
        outcome: Err(Refusal {
            reason: WordRefusal::TextTooLong,
            place: 8192,
        }),
    },
    // One long name, and a comment to the end.
    LargeCase {
        piece: b"a",
        times: 8192,
        end: b"",
        outcome: Err(Refusal {
            reason: WordRefusal::WordTooLong,
            place: 0,
        }),
    },
    LargeCase {
        piece: b"comment ",
        times: 1024,
        end: b"",
        outcome: Ok(1),
    },
];

#[test]
fn large_texts(rt: HostRuntime) -> Result<(), Fail> {
    for case in LARGE_CASES.iter() {
        let text = repeated(rt.alloc(), case.piece, case.times, case.end)?;
        assert_eq!(rt; outcome_of(text.as_slice()), case.outcome);
    }
    Ok(())
}

// The number that users see of each reason.
#[test]
fn numbers(rt: HostRuntime) {
    assert_eq!(rt; WordRefusal::TextTooLong.number(), 1);
    assert_eq!(rt; WordRefusal::NoWord.number(), 2);
    assert_eq!(rt; WordRefusal::WordTooLong.number(), 3);
    assert_eq!(rt; WordRefusal::TooManyWords.number(), 4);
}
