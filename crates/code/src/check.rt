// The check of code, rule by rule.
ghost use Rattle.std.specs.Prelude.{◌≡◌, ◌+◌, ◌<◌, ◌≤◌, length, Some, MatchResult, is_ok};
ghost use Rattle.code.specs.Answers.{ruling_of, told_at, verdict_of};
ghost use Rattle.code.specs.Operations.{operand, role};
ghost use Rattle.code.specs.Check.{check_from, closed, depth_ok, is_jump_table, leading_jumps, last_ok, lent_ok, may_land, opens, operand_ok, place_ok, ruling, target_ok};
ghost use Rattle.code.specs.CheckedCode.{Checks};
ghost use Rattle.code.specs.Codes.{Code, code_of, role_at};

use crate::checked::Checked;
use crate::descriptor::Descriptor;
use crate::operations::{Operand, Operation, Role};
use crate::refusals::Refusal;
use crate::sizes::Sizes;

// 21: the sizes, over arrays of these lengths.
pub(crate) fn are_lent_sizes_ok(sizes: Sizes, operations: usize, operands: usize) -> bool
    ensures { result ≡ lent_ok sizes operations operands }
{
    let count = sizes.operations as usize;
    sizes.operations >= 1
        && sizes.operations <= 4_096
        && sizes.named <= sizes.cells
        && sizes.cells <= 2_048
        && sizes.depth <= 256
        && count <= operations
        && count <= operands
}

// What the operation at a place does to the flow of control.
fn role_at(operations: &[u8], place: u64) -> Option<Role>
    ensures { result ≡ role_at operations.now place }
{
    let byte = operations.get(place as usize)?;
    let operation = Operation::try_from(*byte).ok()?;
    Some(operation.role())
}

// Whether a jump may go to such an operation, which may lie further on.
fn may_land(role: Option<Role>, further: bool) -> bool
    ensures { result ≡ may_land role further }
{
    // a `match`, since there are three answers
    match role {
        Some(Role::Step) => true,
        Some(Role::Label | Role::End) => further,
        _ => false,
    }
}

fn is_jump_table(role: Option<Role>) -> bool
    ensures { result ≡ is_jump_table role }
{
    matches!(role, Some(Role::JumpTable))
}

// Whether control never goes on from such an operation to the next.
fn is_closed(role: Option<Role>) -> bool
    ensures { result ≡ closed role }
{
    matches!(role, Some(Role::End | Role::Goto))
}

// How many JUMPs the bytes begin with.
fn leading_jumps(bytes: &[u8]) -> usize
    ensures { result ≡ leading_jumps bytes.now }
{
    bytes
        .iter()
        .take_while(|byte| **byte == Operation::Jump as u8)
        .count()
}

// An operation under check: the sizes and the operations of its code, its place there, and its operand.
#[derive(Clone, Copy)]
struct Site<'a> {
    sizes: Sizes,
    operations: &'a [u8],
    place: usize,
    operation: Operation,
    operand: u64,
    ghost inside: { place < length operations.now },
}

impl Site<'_> {
    // 23: the operand's rule.
    fn is_operand_ok(&self) -> bool
        ensures { result ≡ operand_ok self.now.sizes (operand self.now.operation) self.now.operand }
    {
        let x = self.operand;
        match self.operation.operand() {
            Operand::Unused => x == 0,
            Operand::TextPlace => x <= 8_191,
            Operand::Constant => x <= 999_999_999,
            Operand::Cell => x < u64::from(self.sizes.cells),
            Operand::CellRange => Descriptor::from(x).lies_below(self.sizes.cells),
            Operand::Target => x < u64::from(self.sizes.operations),
            Operand::RowCount => x >= 1,
        }
    }

    // 24: the depth that the operation finds and leaves.
    fn is_depth_ok(&self, depth: usize) -> bool
        requires { depth ≤ 256 }
        ensures { result ≡ depth_ok self.now.sizes self.now.operation depth }
    {
        if depth < self.operation.taken() {
            return false;
        }
        let after = depth - self.operation.taken() + self.operation.left();
        if after > self.sizes.depth as usize {
            return false;
        }
        match self.operation.role() {
            Role::End | Role::Step | Role::Label | Role::JumpTable => depth == 0,
            Role::Goto | Role::Branch | Role::Switch => after == 0,
            Role::Straight => true,
        }
    }

    // 25, where the operation leads.
    fn is_target_ok(&self) -> bool
        ensures { result ≡ target_ok self.now.operations.now self.now.place (role self.now.operation) self.now.operand }
    {
        let (operations, here, x) = (self.operations, self.place as u64, self.operand);
        match self.operation.role() {
            Role::Goto | Role::Branch => may_land(role_at(operations, x), here < x),
            Role::Switch => here < x && is_jump_table(role_at(operations, x)),
            Role::JumpTable => {
                is_closed(role_at(operations, here.saturating_sub(1)))
                    && x <= leading_jumps(&operations[self.place + 1..]) as u64
            }
            Role::End | Role::Step | Role::Label | Role::Straight => true,
        }
    }

    // 25, also at place 0.
    fn is_place_ok(&self) -> bool
        ensures { result ≡ place_ok self.now.operations.now self.now.place (role self.now.operation) self.now.operand }
    {
        let opens = matches!(self.operation.role(), Role::End | Role::Step);
        (opens || self.place > 0) && self.is_target_ok()
    }

    // 26: the last operation.
    fn is_last_ok(&self) -> bool
        ensures { result ≡ last_ok self.now.operations.now self.now.place (role self.now.operation) }
    {
        self.place + 1 < self.operations.len() || is_closed(Some(self.operation.role()))
    }

    // The figures on the stack after the operation, which finds `depth`, or the first rule that it breaks.
    fn judge(&self, depth: usize) -> Result<usize, Refusal>
        requires { depth ≤ 256 }
        ensures ruling { ruling_of result ≡ ruling self.now.sizes self.now.operations.now self.now.place self.now.operand depth (Some self.now.operation) }
        ensures at { MatchResult result (λ d. d ≤ self.now.sizes.depth) (λ e. told_at e ≡ Some self.now.place) }
    {
        if !self.is_operand_ok() {
            Err(Refusal::BadOperand(self.place))
        } else if !self.is_depth_ok(depth) {
            Err(Refusal::BadDepth(self.place))
        } else if !self.is_place_ok() {
            Err(Refusal::BadTarget(self.place))
        } else if !self.is_last_ok() {
            Err(Refusal::BadLast(self.place))
        } else {
            Ok(depth - self.operation.taken() + self.operation.left())
        }
    }
}

// Code in arrays that a caller lends: its sizes, and the first n entries of both arrays.
#[derive(Clone, Copy)]
pub(crate) struct Lent<'a> {
    sizes: Sizes,
    pub(crate) operations: &'a [u8],
    pub(crate) operands: &'a [u64],
    ghost within: { (length operations.now ≤ length operands.now) × (sizes.depth ≤ 256) },
}

impl<'a> Lent<'a> {
    // 21: the sizes, over the arrays.
    pub(crate) fn new(
        sizes: Sizes,
        operations: &'a [u8],
        operands: &'a [u64],
    ) -> Result<Lent<'a>, Refusal>
        ensures decided { lent_ok sizes (length operations.now) (length operands.now) ≡ is_ok result }
        ensures cut { MatchResult result (λ c. ◌≡◌ {A = Code} (record { sizes = c.sizes; operations = c.operations.now; operands = c.operands.now }) (code_of sizes operations.now operands.now)) (λ e. e ≡ Refusal.BadSizes) }
    {
        if !are_lent_sizes_ok(sizes, operations.len(), operands.len()) {
            return Err(Refusal::BadSizes);
        }
        let (operations, _) = operations.split_at(sizes.operations as usize);
        let (operands, _) = operands.split_at(sizes.operations as usize);
        Ok(Lent {
            sizes,
            operations,
            operands,
        })
    }

    // 22 to 26: the operations in their order, with the figures on the stack counted along. Operands by place: over an
    // `enumerate` of a `zip` the check does not find of which place a pair is.
    fn check(&self) -> Result<(), Refusal>
        ensures { verdict_of result ≡ check_from (record { sizes = self.now.sizes; operations = self.now.operations.now; operands = self.now.operands.now }) self.now.operations.now 0 0 }
    {
        let mut depth = 0;
        for (place, byte) in self.operations.iter().enumerate() {
            let Ok(operation) = Operation::try_from(*byte) else {
                return Err(Refusal::UnknownOperation(place));
            };
            let site = Site {
                sizes: self.sizes,
                operations: self.operations,
                place,
                operation,
                operand: self.operands[place],
            };
            depth = site.judge(depth)?;
        }
        Ok(())
    }
}

// Checks code: the first n entries of both arrays. Code that passes is put into `place`, which else stays as it was.
// The arrays and the place are the caller's: this crate keeps no memory of its own.
pub fn check<'a>(
    place: &mut Checked<'a>,
    sizes: Sizes,
    operations: &'a [u8],
    operands: &'a [u64],
) -> Result<(), Refusal>
    ensures { Checks (code_of sizes operations.now operands.now) place.old result place.new }
{
    let code = Lent::new(sizes, operations, operands)?;
    code.check()?;
    *place = Checked {
        sizes: code.sizes,
        operations: code.operations,
        operands: code.operands,
    };
    Ok(())
}
