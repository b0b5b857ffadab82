// What an operation does, in the form in which the machine carries it out.
// Enums and no closures: an operation is a byte of the caller's code, and the definition has the same cases.

ghost use Rattle.std.specs.Prelude.{◌≡◌};
ghost use Rattle.machine.specs.Instructions.{instruction};

use code::operations::Operation;

// A calculation with the figure on top of the stack.
#[derive(Clone, Copy)]
pub enum Unary {
    // to the nearest whole figure
    Round,
    // of(0) for a figure same as of(0), else of(1)
    Truth,
    Negate,
    Deny,
}

// A calculation with the two figures on top; the left operand lies lower.
#[derive(Clone, Copy)]
pub enum Binary {
    Add,
    Subtract,
    Multiply,
    Divide,
    Less,
    Same,
    More,
    And,
    Or,
    Alike,
}

// Work on the stack alone.
#[derive(Clone, Copy)]
pub enum Calculation {
    // pushes the figure of the operand
    Constant,
    One(Unary),
    Two(Binary),
    // tests the subscript on top
    Bounds,
}

// Work on the stack and the cells.
#[derive(Clone, Copy)]
pub enum Transfer {
    Load,
    Store,
    Get,
    Put,
}

// Where control goes.
#[derive(Clone, Copy)]
pub enum Branch {
    Always,
    IfFalse,
    ByTable,
}

#[derive(Clone, Copy)]
pub enum Instruction {
    // the run is at its end
    Halt,
    // nothing: the next operation follows
    Pass,
    Calculate(Calculation),
    Transfer(Transfer),
    Go(Branch),
    // takes a figure from the roll, rounded where so told; a flag, as the definition has it
    Take(bool),
    Post,
}

// What an operation does.
pub(crate) fn instruction_of(operation: Operation) -> Instruction
    ensures { result ≡ instruction operation }
{
    match operation {
        Operation::Halt => Instruction::Halt,
        Operation::Mark | Operation::Rows | Operation::Here => Instruction::Pass,
        Operation::Const => Instruction::Calculate(Calculation::Constant),
        Operation::Test => Instruction::Calculate(Calculation::Bounds),
        Operation::Round => Instruction::Calculate(Calculation::One(Unary::Round)),
        Operation::Truth => Instruction::Calculate(Calculation::One(Unary::Truth)),
        Operation::Neg => Instruction::Calculate(Calculation::One(Unary::Negate)),
        Operation::Not => Instruction::Calculate(Calculation::One(Unary::Deny)),
        Operation::Add => Instruction::Calculate(Calculation::Two(Binary::Add)),
        Operation::Sub => Instruction::Calculate(Calculation::Two(Binary::Subtract)),
        Operation::Mul => Instruction::Calculate(Calculation::Two(Binary::Multiply)),
        Operation::Div => Instruction::Calculate(Calculation::Two(Binary::Divide)),
        Operation::Less => Instruction::Calculate(Calculation::Two(Binary::Less)),
        Operation::Same => Instruction::Calculate(Calculation::Two(Binary::Same)),
        Operation::More => Instruction::Calculate(Calculation::Two(Binary::More)),
        Operation::And => Instruction::Calculate(Calculation::Two(Binary::And)),
        Operation::Or => Instruction::Calculate(Calculation::Two(Binary::Or)),
        Operation::Eqv => Instruction::Calculate(Calculation::Two(Binary::Alike)),
        Operation::Load => Instruction::Transfer(Transfer::Load),
        Operation::Store => Instruction::Transfer(Transfer::Store),
        Operation::Get => Instruction::Transfer(Transfer::Get),
        Operation::Put => Instruction::Transfer(Transfer::Put),
        Operation::Jump => Instruction::Go(Branch::Always),
        Operation::False => Instruction::Go(Branch::IfFalse),
        Operation::Table => Instruction::Go(Branch::ByTable),
        Operation::Take => Instruction::Take(false),
        Operation::TakeW => Instruction::Take(true),
        Operation::Post => Instruction::Post,
    }
}
