// Settings, and the cells and figures that they name.

use crate::text::{lines, records, table};
use reports::settings::SettingError;

struct Case {
    word: &'static str,
    answer: Result<(usize, &'static str), SettingError>,
}

const CASES: [Case; 18] = [
    Case {
        word: "x=3",
        answer: Ok((5, "3")),
    },
    Case {
        word: "done=1",
        answer: Ok((4, "1")),
    },
    // The lowest subscript has the first cell.
    Case {
        word: "rate[-2]=3",
        answer: Ok((0, "3")),
    },
    Case {
        word: "rate[1]=3",
        answer: Ok((3, "3")),
    },
    Case {
        word: "rate[-3]=3",
        answer: Err(SettingError::Outside),
    },
    Case {
        word: "rate[2]=3",
        answer: Err(SettingError::Outside),
    },
    Case {
        word: "rate[99999999999]=3",
        answer: Err(SettingError::Outside),
    },
    Case {
        word: "rate=3",
        answer: Err(SettingError::NoSubscript),
    },
    Case {
        word: "x[0]=3",
        answer: Err(SettingError::NoArray),
    },
    Case {
        word: "next=3",
        answer: Err(SettingError::NoCells),
    },
    Case {
        word: "more=3",
        answer: Err(SettingError::NoCells),
    },
    Case {
        word: "rate[one]=3",
        answer: Err(SettingError::BadSubscript),
    },
    Case {
        word: "rate[1=3",
        answer: Err(SettingError::BadSubscript),
    },
    Case {
        word: "rate[]=3",
        answer: Err(SettingError::BadSubscript),
    },
    // Names are told by all their letters, and case counts.
    Case {
        word: "X=3",
        answer: Err(SettingError::NoSuchName),
    },
    Case {
        word: "rat[1]=3",
        answer: Err(SettingError::NoSuchName),
    },
    Case {
        word: "=3",
        answer: Err(SettingError::NoSuchName),
    },
    Case {
        word: "x",
        answer: Err(SettingError::NoFigure),
    },
];

#[test]
fn cells_of_settings(rt: HostRuntime) {
    let records = records();
    let lines = lines();
    let table = table(&records, &lines);
    for case in CASES.iter() {
        assert_eq!(rt; table.read_setting(case.word), case.answer, "{}", case.word);
    }
}
