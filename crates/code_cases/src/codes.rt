// The check over a table of codes, each rule at its boundaries.
use code::check::check as check_code;
use code::checked::Checked;
use code::refusals::Refusal;
use code::sizes::Sizes;

// Sizes n, v, m and D, operations, operands, and what the check answers. Entries from n on are no part of the code.
struct Case([u32; 4], [u8; 8], [u64; 8], Result<(), Refusal>);

static CASES: [Case; 82] = [
    // 21: the sizes, at their limits and past them
    Case(
        [1, 0, 0, 0],
        [0, 0, 0, 0, 0, 0, 0, 0],
        [0, 0, 0, 0, 0, 0, 0, 0],
        Ok(()),
    ),
    Case(
        [1, 2048, 2048, 256],
        [0, 0, 0, 0, 0, 0, 0, 0],
        [0, 0, 0, 0, 0, 0, 0, 0],
        Ok(()),
    ),
    Case(
        [1, 0, 0, 0],
        [0, 99, 0, 0, 0, 0, 0, 0],
        [0, 99, 0, 0, 0, 0, 0, 0],
        Ok(()),
    ),
    Case(
        [0, 0, 0, 0],
        [0, 0, 0, 0, 0, 0, 0, 0],
        [0, 0, 0, 0, 0, 0, 0, 0],
        Err(Refusal::BadSizes),
    ),
    Case(
        [4097, 0, 0, 0],
        [0, 0, 0, 0, 0, 0, 0, 0],
        [0, 0, 0, 0, 0, 0, 0, 0],
        Err(Refusal::BadSizes),
    ),
    Case(
        [u32::MAX, 0, 0, 0],
        [0, 0, 0, 0, 0, 0, 0, 0],
        [0, 0, 0, 0, 0, 0, 0, 0],
        Err(Refusal::BadSizes),
    ),
    Case(
        [1, 1, 0, 0],
        [0, 0, 0, 0, 0, 0, 0, 0],
        [0, 0, 0, 0, 0, 0, 0, 0],
        Err(Refusal::BadSizes),
    ),
    Case(
        [1, 0, 2049, 0],
        [0, 0, 0, 0, 0, 0, 0, 0],
        [0, 0, 0, 0, 0, 0, 0, 0],
        Err(Refusal::BadSizes),
    ),
    Case(
        [1, 0, 0, 257],
        [0, 0, 0, 0, 0, 0, 0, 0],
        [0, 0, 0, 0, 0, 0, 0, 0],
        Err(Refusal::BadSizes),
    ),
    Case(
        [9, 0, 0, 0],
        [0, 0, 0, 0, 0, 0, 0, 0],
        [0, 0, 0, 0, 0, 0, 0, 0],
        Err(Refusal::BadSizes),
    ),
    // 22 and 26: no such operation, an open end
    Case(
        [2, 0, 0, 0],
        [1, 30, 0, 0, 0, 0, 0, 0],
        [0, 0, 0, 0, 0, 0, 0, 0],
        Err(Refusal::UnknownOperation(1)),
    ),
    Case(
        [2, 0, 0, 0],
        [1, 255, 0, 0, 0, 0, 0, 0],
        [0, 9, 0, 0, 0, 0, 0, 0],
        Err(Refusal::UnknownOperation(1)),
    ),
    Case(
        [1, 0, 0, 0],
        [1, 0, 0, 0, 0, 0, 0, 0],
        [0, 0, 0, 0, 0, 0, 0, 0],
        Err(Refusal::BadLast(0)),
    ),
    Case(
        [2, 0, 0, 0],
        [1, 26, 0, 0, 0, 0, 0, 0],
        [0, 0, 0, 0, 0, 0, 0, 0],
        Err(Refusal::BadLast(1)),
    ),
    Case(
        [3, 0, 0, 1],
        [1, 2, 23, 0, 0, 0, 0, 0],
        [0, 1, 0, 0, 0, 0, 0, 0],
        Err(Refusal::BadLast(2)),
    ),
    Case(
        [2, 0, 0, 0],
        [1, 22, 0, 0, 0, 0, 0, 0],
        [0, 0, 0, 0, 0, 0, 0, 0],
        Ok(()),
    ),
    // the earliest operation decides, and there the least number
    Case(
        [3, 0, 0, 0],
        [1, 2, 30, 0, 0, 0, 0, 0],
        [0, 1, 0, 0, 0, 0, 0, 0],
        Err(Refusal::BadDepth(1)),
    ),
    Case(
        [2, 0, 0, 0],
        [1, 10, 0, 0, 0, 0, 0, 0],
        [0, 5, 0, 0, 0, 0, 0, 0],
        Err(Refusal::BadOperand(1)),
    ),
    Case(
        [2, 0, 0, 0],
        [1, 10, 0, 0, 0, 0, 0, 0],
        [0, 0, 0, 0, 0, 0, 0, 0],
        Err(Refusal::BadDepth(1)),
    ),
    Case(
        [1, 0, 0, 1],
        [2, 0, 0, 0, 0, 0, 0, 0],
        [1, 0, 0, 0, 0, 0, 0, 0],
        Err(Refusal::BadTarget(0)),
    ),
    Case(
        [2, 0, 0, 0],
        [25, 30, 0, 0, 0, 0, 0, 0],
        [1, 0, 0, 0, 0, 0, 0, 0],
        Err(Refusal::BadTarget(0)),
    ),
    // 23: operands at their bounds and beyond 32 bits
    Case(
        [1, 0, 0, 0],
        [0, 0, 0, 0, 0, 0, 0, 0],
        [1, 0, 0, 0, 0, 0, 0, 0],
        Err(Refusal::BadOperand(0)),
    ),
    Case(
        [1, 0, 0, 0],
        [0, 0, 0, 0, 0, 0, 0, 0],
        [1 << 32, 0, 0, 0, 0, 0, 0, 0],
        Err(Refusal::BadOperand(0)),
    ),
    Case(
        [2, 0, 0, 0],
        [1, 0, 0, 0, 0, 0, 0, 0],
        [8191, 0, 0, 0, 0, 0, 0, 0],
        Ok(()),
    ),
    Case(
        [2, 0, 0, 0],
        [1, 0, 0, 0, 0, 0, 0, 0],
        [8192, 0, 0, 0, 0, 0, 0, 0],
        Err(Refusal::BadOperand(0)),
    ),
    Case(
        [4, 0, 0, 1],
        [1, 2, 29, 0, 0, 0, 0, 0],
        [0, 999999999, 0, 0, 0, 0, 0, 0],
        Ok(()),
    ),
    Case(
        [4, 0, 0, 1],
        [1, 2, 29, 0, 0, 0, 0, 0],
        [0, 1000000000, 0, 0, 0, 0, 0, 0],
        Err(Refusal::BadOperand(1)),
    ),
    Case(
        [4, 0, 0, 1],
        [1, 2, 29, 0, 0, 0, 0, 0],
        [0, (1 << 32) + 1, 0, 0, 0, 0, 0, 0],
        Err(Refusal::BadOperand(1)),
    ),
    Case(
        [4, 2, 2, 1],
        [1, 3, 4, 0, 0, 0, 0, 0],
        [0, 0, 1, 0, 0, 0, 0, 0],
        Ok(()),
    ),
    Case(
        [4, 2, 2, 1],
        [1, 3, 4, 0, 0, 0, 0, 0],
        [0, 2, 1, 0, 0, 0, 0, 0],
        Err(Refusal::BadOperand(1)),
    ),
    Case(
        [4, 2, 2, 1],
        [1, 3, 4, 0, 0, 0, 0, 0],
        [0, 0, 1 << 32, 0, 0, 0, 0, 0],
        Err(Refusal::BadOperand(2)),
    ),
    Case(
        [2, 0, 0, 0],
        [1, 22, 0, 0, 0, 0, 0, 0],
        [0, 2, 0, 0, 0, 0, 0, 0],
        Err(Refusal::BadOperand(1)),
    ),
    Case(
        [2, 0, 0, 0],
        [1, 22, 0, 0, 0, 0, 0, 0],
        [0, 1 << 32, 0, 0, 0, 0, 0, 0],
        Err(Refusal::BadOperand(1)),
    ),
    Case(
        [3, 0, 0, 0],
        [0, 25, 22, 0, 0, 0, 0, 0],
        [0, 0, 0, 0, 0, 0, 0, 0],
        Err(Refusal::BadOperand(1)),
    ),
    // 23: descriptors over four cells: count, last cell, low bound
    Case(
        [5, 4, 4, 1],
        [1, 2, 5, 29, 0, 0, 0, 0],
        [0, 1, 4 * 4096 + 10_000 * 16_777_216, 0, 0, 0, 0, 0],
        Ok(()),
    ),
    Case(
        [5, 4, 4, 1],
        [1, 2, 5, 29, 0, 0, 0, 0],
        [0, 1, 3 + 4096 + 10_000 * 16_777_216, 0, 0, 0, 0, 0],
        Ok(()),
    ),
    Case(
        [5, 4, 4, 1],
        [1, 2, 5, 29, 0, 0, 0, 0],
        [0, 1, 5 * 4096 + 10_000 * 16_777_216, 0, 0, 0, 0, 0],
        Err(Refusal::BadOperand(2)),
    ),
    Case(
        [5, 4, 4, 1],
        [1, 2, 5, 29, 0, 0, 0, 0],
        [0, 1, 1 + 4 * 4096 + 10_000 * 16_777_216, 0, 0, 0, 0, 0],
        Err(Refusal::BadOperand(2)),
    ),
    Case(
        [5, 4, 4, 1],
        [1, 2, 5, 29, 0, 0, 0, 0],
        [
            0,
            1,
            4095 + 4095 * 4096 + 10_000 * 16_777_216,
            0,
            0,
            0,
            0,
            0,
        ],
        Err(Refusal::BadOperand(2)),
    ),
    Case(
        [5, 4, 4, 1],
        [1, 2, 5, 29, 0, 0, 0, 0],
        [0, 1, 10_000 * 16_777_216, 0, 0, 0, 0, 0],
        Err(Refusal::BadOperand(2)),
    ),
    Case(
        [5, 4, 4, 1],
        [1, 2, 5, 29, 0, 0, 0, 0],
        [0, 1, 4096 + 16_777_216, 0, 0, 0, 0, 0],
        Ok(()),
    ),
    Case(
        [5, 4, 4, 1],
        [1, 2, 5, 29, 0, 0, 0, 0],
        [0, 1, 4096, 0, 0, 0, 0, 0],
        Err(Refusal::BadOperand(2)),
    ),
    Case(
        [5, 4, 4, 1],
        [1, 2, 5, 29, 0, 0, 0, 0],
        [0, 1, 4096 + 19_999 * 16_777_216, 0, 0, 0, 0, 0],
        Ok(()),
    ),
    Case(
        [5, 4, 4, 1],
        [1, 2, 5, 29, 0, 0, 0, 0],
        [0, 1, 4096 + 20_000 * 16_777_216, 0, 0, 0, 0, 0],
        Err(Refusal::BadOperand(2)),
    ),
    Case(
        [5, 4, 4, 1],
        [1, 2, 5, 29, 0, 0, 0, 0],
        [0, 1, 4096 + 10_000 * 16_777_216 + (1 << 63), 0, 0, 0, 0, 0],
        Err(Refusal::BadOperand(2)),
    ),
    Case(
        [5, 4, 4, 1],
        [1, 2, 5, 29, 0, 0, 0, 0],
        [0, 1, u64::MAX, 0, 0, 0, 0, 0],
        Err(Refusal::BadOperand(2)),
    ),
    // 24: depth under 0 and over D
    Case(
        [2, 0, 0, 9],
        [1, 29, 0, 0, 0, 0, 0, 0],
        [0, 0, 0, 0, 0, 0, 0, 0],
        Err(Refusal::BadDepth(1)),
    ),
    Case(
        [4, 0, 0, 9],
        [1, 2, 10, 0, 0, 0, 0, 0],
        [0, 1, 0, 0, 0, 0, 0, 0],
        Err(Refusal::BadDepth(2)),
    ),
    Case(
        [4, 1, 1, 9],
        [1, 2, 6, 0, 0, 0, 0, 0],
        [0, 1, 4096 + 10_000 * 16_777_216, 0, 0, 0, 0, 0],
        Err(Refusal::BadDepth(2)),
    ),
    Case(
        [2, 1, 1, 9],
        [1, 7, 0, 0, 0, 0, 0, 0],
        [0, 4096 + 10_000 * 16_777_216, 0, 0, 0, 0, 0, 0],
        Err(Refusal::BadDepth(1)),
    ),
    Case(
        [6, 0, 0, 2],
        [1, 2, 2, 10, 29, 0, 0, 0],
        [0, 1, 1, 0, 0, 0, 0, 0],
        Ok(()),
    ),
    Case(
        [6, 0, 0, 1],
        [1, 2, 2, 10, 29, 0, 0, 0],
        [0, 1, 1, 0, 0, 0, 0, 0],
        Err(Refusal::BadDepth(2)),
    ),
    Case(
        [6, 0, 0, 0],
        [1, 2, 2, 10, 29, 0, 0, 0],
        [0, 1, 1, 0, 0, 0, 0, 0],
        Err(Refusal::BadDepth(1)),
    ),
    // 24: figures left where none may be
    Case(
        [3, 0, 0, 1],
        [1, 2, 0, 0, 0, 0, 0, 0],
        [0, 1, 0, 0, 0, 0, 0, 0],
        Err(Refusal::BadDepth(2)),
    ),
    Case(
        [3, 0, 0, 1],
        [1, 2, 1, 0, 0, 0, 0, 0],
        [0, 1, 0, 0, 0, 0, 0, 0],
        Err(Refusal::BadDepth(2)),
    ),
    Case(
        [3, 0, 0, 1],
        [1, 2, 26, 0, 0, 0, 0, 0],
        [0, 1, 0, 0, 0, 0, 0, 0],
        Err(Refusal::BadDepth(2)),
    ),
    Case(
        [4, 0, 0, 1],
        [1, 2, 25, 22, 0, 0, 0, 0],
        [0, 1, 1, 0, 0, 0, 0, 0],
        Err(Refusal::BadDepth(2)),
    ),
    Case(
        [3, 0, 0, 1],
        [1, 2, 22, 0, 0, 0, 0, 0],
        [0, 1, 0, 0, 0, 0, 0, 0],
        Err(Refusal::BadDepth(2)),
    ),
    Case(
        [5, 0, 0, 2],
        [1, 2, 2, 23, 0, 0, 0, 0],
        [0, 1, 1, 0, 0, 0, 0, 0],
        Err(Refusal::BadDepth(3)),
    ),
    Case(
        [7, 0, 0, 2],
        [1, 2, 2, 24, 0, 25, 22, 0],
        [0, 1, 1, 5, 0, 1, 0, 0],
        Err(Refusal::BadDepth(3)),
    ),
    Case(
        [4, 0, 0, 1],
        [1, 2, 23, 0, 0, 0, 0, 0],
        [0, 1, 0, 0, 0, 0, 0, 0],
        Ok(()),
    ),
    // 25: place 0 and jumps
    Case(
        [2, 0, 0, 0],
        [26, 0, 0, 0, 0, 0, 0, 0],
        [0, 0, 0, 0, 0, 0, 0, 0],
        Err(Refusal::BadTarget(0)),
    ),
    Case(
        [4, 0, 0, 0],
        [1, 22, 26, 0, 0, 0, 0, 0],
        [0, 2, 0, 0, 0, 0, 0, 0],
        Ok(()),
    ),
    Case(
        [3, 0, 0, 0],
        [1, 22, 0, 0, 0, 0, 0, 0],
        [0, 2, 0, 0, 0, 0, 0, 0],
        Ok(()),
    ),
    Case(
        [3, 0, 0, 0],
        [1, 26, 22, 0, 0, 0, 0, 0],
        [0, 0, 1, 0, 0, 0, 0, 0],
        Err(Refusal::BadTarget(2)),
    ),
    Case(
        [3, 0, 0, 0],
        [0, 1, 22, 0, 0, 0, 0, 0],
        [0, 0, 0, 0, 0, 0, 0, 0],
        Err(Refusal::BadTarget(2)),
    ),
    Case(
        [2, 0, 0, 0],
        [1, 22, 0, 0, 0, 0, 0, 0],
        [0, 1, 0, 0, 0, 0, 0, 0],
        Err(Refusal::BadTarget(1)),
    ),
    Case(
        [5, 0, 0, 1],
        [1, 22, 2, 29, 0, 0, 0, 0],
        [0, 2, 1, 0, 0, 0, 0, 0],
        Err(Refusal::BadTarget(1)),
    ),
    Case(
        [3, 0, 0, 0],
        [1, 22, 77, 0, 0, 0, 0, 0],
        [0, 2, 0, 0, 0, 0, 0, 0],
        Err(Refusal::BadTarget(1)),
    ),
    Case(
        [5, 0, 0, 1],
        [1, 26, 2, 23, 0, 0, 0, 0],
        [0, 0, 1, 1, 0, 0, 0, 0],
        Err(Refusal::BadTarget(3)),
    ),
    // 25: TABLE and ROWS
    Case(
        [7, 0, 0, 1],
        [1, 2, 24, 0, 25, 22, 22, 0],
        [0, 1, 4, 0, 2, 0, 0, 0],
        Ok(()),
    ),
    Case(
        [7, 0, 0, 1],
        [1, 2, 24, 0, 25, 22, 22, 0],
        [0, 1, 4, 0, 1, 0, 0, 0],
        Ok(()),
    ),
    Case(
        [7, 0, 0, 1],
        [1, 2, 24, 0, 25, 22, 22, 0],
        [0, 1, 0, 0, 2, 0, 0, 0],
        Err(Refusal::BadTarget(2)),
    ),
    Case(
        [7, 0, 0, 1],
        [1, 2, 24, 0, 25, 22, 22, 0],
        [0, 1, 3, 0, 2, 0, 0, 0],
        Err(Refusal::BadTarget(2)),
    ),
    Case(
        [7, 0, 0, 1],
        [1, 2, 24, 0, 25, 22, 22, 0],
        [0, 1, 5, 0, 2, 0, 0, 0],
        Err(Refusal::BadTarget(2)),
    ),
    Case(
        [7, 0, 0, 1],
        [1, 2, 24, 0, 25, 22, 22, 0],
        [0, 1, 4, 0, 3, 0, 0, 0],
        Err(Refusal::BadTarget(4)),
    ),
    Case(
        [7, 0, 0, 1],
        [1, 2, 24, 0, 25, 22, 22, 0],
        [0, 1, 4, 0, 1 << 32, 0, 0, 0],
        Err(Refusal::BadTarget(4)),
    ),
    Case(
        [7, 0, 0, 1],
        [1, 2, 24, 0, 25, 22, 22, 0],
        [0, 1, 4, 0, u64::MAX, 0, 0, 0],
        Err(Refusal::BadTarget(4)),
    ),
    Case(
        [3, 0, 0, 0],
        [25, 22, 22, 0, 0, 0, 0, 0],
        [2, 0, 0, 0, 0, 0, 0, 0],
        Err(Refusal::BadTarget(0)),
    ),
    Case(
        [3, 0, 0, 0],
        [1, 25, 22, 0, 0, 0, 0, 0],
        [0, 1, 0, 0, 0, 0, 0, 0],
        Err(Refusal::BadTarget(1)),
    ),
    Case(
        [6, 0, 0, 0],
        [1, 0, 25, 22, 25, 22, 0, 0],
        [0, 0, 1, 0, 1, 0, 0, 0],
        Ok(()),
    ),
    Case(
        [6, 0, 0, 1],
        [0, 25, 22, 1, 2, 24, 0, 0],
        [0, 1, 3, 0, 1, 1, 0, 0],
        Err(Refusal::BadTarget(5)),
    ),
];

fn answer(case: &Case) -> Result<(), Refusal> {
    let mut place = Checked::lone_halt();
    let [operations, named, cells, depth] = case.0;
    let sizes = Sizes {
        operations,
        named,
        cells,
        depth,
    };
    check_code(&mut place, sizes, &case.1, &case.2)
}

#[test]
fn codes(rt: HostRuntime) {
    for case in &CASES {
        assert_eq!(rt; answer(case), case.3);
    }
}
