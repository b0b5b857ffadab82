// 27 and 47: stored files.
use code::refusals::Refusal;
use code::sizes::Sizes;
use code::stored::{load, store};

// The sizes n, v, m and D.
fn sized(operations: u32, named: u32, cells: u32, depth: u32) -> Sizes {
    Sizes {
        operations,
        named,
        cells,
        depth,
    }
}

static FILE: [u8; 34] = [
    2, 0, 0, 0, 1, 0, 0, 0, 3, 1, 0, 0, 4, 0, 0, 0, 1, 22, 255, 31, 0, 0, 0, 0, 0, 0, 1, 2, 3, 4,
    5, 6, 7, 8,
];

#[test]
fn stores_byte_by_byte(rt: HostRuntime) {
    let mut buffer = [9; 36];
    let operands = [8191, 0x0807_0605_0403_0201];
    assert_eq!(rt;
        store(sized(2, 1, 259, 4), &[1, 22], &operands, &mut buffer),
        Ok(34)
    );
    assert_eq!(rt; &buffer[0..34] == &FILE[0..34], true);
    assert_eq!(rt; buffer[34], 9);
    assert_eq!(rt; buffer[35], 9);
    let mut short = [9; 33];
    assert_eq!(rt;
        store(sized(2, 1, 259, 4), &[1, 22], &operands, &mut short),
        Err(Refusal::ShortBuffer)
    );
    assert_eq!(rt; short[0], 9);
    assert_eq!(rt;
        store(sized(3, 1, 259, 4), &[1, 22], &operands, &mut short),
        Err(Refusal::BadSizes)
    );
}

#[test]
fn loads_what_was_stored(rt: HostRuntime) {
    let mut operations = [9; 3];
    let mut operands = [9; 3];
    assert_eq!(rt;
        load(&FILE, &mut operations, &mut operands),
        Ok(sized(2, 1, 259, 4))
    );
    assert_eq!(rt; operations[1], 22);
    assert_eq!(rt; operations[2], 9);
    assert_eq!(rt; operands[0], 8191);
    assert_eq!(rt; operands[1], 0x0807_0605_0403_0201);
    assert_eq!(rt; operands[2], 9);
}

#[test]
fn refuses_other_files(rt: HostRuntime) {
    let mut operations = [9; 1];
    let mut operands = [9; 1];
    assert_eq!(rt;
        load(&FILE, &mut operations, &mut operands),
        Err(Refusal::BadSizes)
    );
    assert_eq!(rt;
        load(&FILE[0..33], &mut operations, &mut operands),
        Err(Refusal::BadLength)
    );
    assert_eq!(rt;
        load(&FILE[0..15], &mut operations, &mut operands),
        Err(Refusal::BadLength)
    );
    assert_eq!(rt;
        load(&FILE[0..0], &mut operations, &mut operands),
        Err(Refusal::BadLength)
    );
    assert_eq!(rt;
        load(&[255; 16], &mut operations, &mut operands),
        Err(Refusal::BadLength)
    );
    assert_eq!(rt;
        load(&[0; 16], &mut operations, &mut operands),
        Err(Refusal::BadSizes)
    );
    assert_eq!(rt; operations[0], 9);
    assert_eq!(rt; operands[0], 9);
}
