// What people read of code: the numbers and lines of refusals, the sizes, and the operations.
use code::operations::{Operation, UnknownOperation};
use code::refusals::Refusal;
use code::sizes::Sizes;
use std::alloc::AllocError;

// A refusal, its number, and its line.
struct Line(Refusal, u8, &'static str);

static LINES: [Line; 8] = [
    Line(
        Refusal::BadSizes,
        21,
        "refused 21: sizes beyond their limits, or arrays shorter than n",
    ),
    Line(
        Refusal::UnknownOperation(1),
        22,
        "refused 22 at operation 1: unknown operation",
    ),
    Line(
        Refusal::BadOperand(20),
        23,
        "refused 23 at operation 20: operand against its rule",
    ),
    Line(
        Refusal::BadDepth(0),
        24,
        "refused 24 at operation 0: depth under 0, over the limit, or not 0 where due",
    ),
    Line(
        Refusal::BadTarget(300),
        25,
        "refused 25 at operation 300: jump, ROWS or place 0 against its rule",
    ),
    Line(
        Refusal::BadLast(4095),
        26,
        "refused 26 at operation 4095: last operation is neither HALT nor JUMP",
    ),
    Line(
        Refusal::BadLength,
        27,
        "refused 27: file is not 16 + 9n bytes",
    ),
    Line(
        Refusal::ShortBuffer,
        47,
        "refused 47: buffer shorter than the file",
    ),
];

#[test]
fn refusals(rt: HostRuntime) -> Result<(), AllocError> {
    for line in &LINES {
        assert_eq!(rt; line.0.number(), line.1);
        assert_eq!(rt; line.0.to_string(rt.alloc())?.as_str(), line.2);
    }
    Ok(())
}

#[test]
fn sizes(rt: HostRuntime) -> Result<(), AllocError> {
    let sizes = Sizes {
        operations: 4,
        named: 1,
        cells: 2,
        depth: 3,
    };
    let text = sizes.to_string(rt.alloc())?;
    assert_eq!(rt; text.as_str(), "n 4, named cells 1, cells 2, depth 3");
    Ok(())
}

#[test]
fn operations(rt: HostRuntime) -> Result<(), AllocError> {
    let operation = Operation::try_from(28).expect(&rt, "an operation");
    assert_eq!(rt; operation.number(), 28);
    let text = format!(in rt.alloc(); "{operation:<6}|")?;
    assert_eq!(rt; text.as_str(), "TAKEW |");
    let error = UnknownOperation(30);
    assert_eq!(rt; Operation::try_from(30).err(), Some(error));
    let text = error.to_string(rt.alloc())?;
    assert_eq!(rt; text.as_str(), "no operation has number 30");
    Ok(())
}
