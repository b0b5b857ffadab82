// The kinds of the words of a text. A row has a letter for each word, so that it can be read beside its text.

use crate::reading::EMPTY;
use words::table::cut_words;
use words::token::Token;

fn letter(token: Token) -> u8 {
    match token {
        Token::Name(_) => b'n',
        Token::Number(_) => b'd',
        Token::Keyword(_) => b'k',
        Token::Mark(_) => b'm',
        Token::Sign(_) => b's',
        Token::Scaling(_) => b'c',
        Token::Relation(_) => b'r',
    }
}

struct Case {
    text: &'static [u8],
    kinds: &'static [u8],
}

const CASES: [Case; 5] = [
    Case {
        text: b"in=:(n); s:=0; for i:=1(1)n; begin in=:(x); s:=s+x end; print(s)",
        kinds: b"kmmnmmnmdmknmdmdmnmkkmmnmmnmnsnkmkmnm",
    },
    Case {
        text: b"begin end if for go to in print stop",
        kinds: b"kkkkkkkkk",
    },
    Case {
        text: b"switch integer boolean array and or not eqv comment",
        kinds: b"kkkkkkkkk",
    },
    Case {
        text: b"; : := =: , ( ) [ ] + - * / = /= < <= > >=",
        kinds: b"mmmmmmmmmssccrrrrrr",
    },
    Case {
        text: b"Begin ENDS x1y2 007 1e5",
        kinds: b"nnnddn",
    },
];

#[test]
fn kinds_of_words(rt: HostRuntime) {
    for case in CASES.iter() {
        let mut table = [EMPTY; 512];
        assert_eq!(rt; cut_words(case.text, &mut table), Ok(case.kinds.len()));
        for (record, kind) in table.iter().zip(case.kinds.iter()) {
            assert_eq!(rt; letter(record.word.token), *kind);
        }
    }
}

// What stands behind the words in the table stays.
#[test]
fn rest_of_the_table(rt: HostRuntime) {
    let mut table = [EMPTY; 4];
    assert_eq!(rt; cut_words(b"a b", &mut table), Ok(2));
    assert_eq!(rt; table[1].node, 0);
    assert_eq!(rt; table[2].node, 7);
    assert_eq!(rt; table[3].node, 7);
}
