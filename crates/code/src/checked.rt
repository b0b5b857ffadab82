// Code that passed the check.
ghost use Rattle.std.specs.Prelude.{◌≡◌, true, [], ◌∷◌};
ghost use Rattle.code.specs.Check.{check, passed};

use crate::sizes::Sizes;

// A value exists only for code that passed: an operation and an operand for each place.
#[derive(Clone, Copy)]
pub struct Checked<'a> {
    pub(crate) sizes: Sizes,
    pub(crate) operations: &'a [u8],
    pub(crate) operands: &'a [u64],
    ghost passes: { passed (check (record { sizes = sizes; operations = operations.now; operands = operands.now })) ≡ true },
}

static LONE_OPERATION: [u8; 1] = [0];

static LONE_OPERAND: [u64; 1] = [0];

impl<'a> Checked<'a> {
    // A lone HALT over no cells.
    pub fn lone_halt() -> Checked<'a>
        ensures { (result.sizes ≡ record { operations = 1; named = 0; cells = 0; depth = 0 }) × (result.operations.now ≡ 0 ∷ []) × (result.operands.now ≡ 0 ∷ []) }
    {
        Checked {
            sizes: Sizes {
                operations: 1,
                named: 0,
                cells: 0,
                depth: 0,
            },
            operations: &LONE_OPERATION,
            operands: &LONE_OPERAND,
        }
    }

    pub fn sizes(&self) -> Sizes
        ensures { result ≡ self.now.sizes }
    {
        self.sizes
    }

    // The bytes of the operations, one for each place.
    pub fn operations(&self) -> &'a [u8]
        ensures { result.now ≡ self.now.operations.now }
    {
        self.operations
    }

    // The operands, one for each place.
    pub fn operands(&self) -> &'a [u64]
        ensures { result.now ≡ self.now.operands.now }
    {
        self.operands
    }
}
