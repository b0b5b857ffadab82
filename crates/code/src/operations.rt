// The operations of the stack machine.
ghost use Rattle.std.specs.Prelude.{◌≡◌, Some};
ghost use Rattle.std.specs.Fmt.{padded};
ghost use Rattle.code.specs.Names.{name, unknown_operation};
ghost use Rattle.code.specs.Operations.{Decodes, operation, number, operand, role, taken, left};

use std::error::Error;
use std::fmt;

// An operation: its number, its operand, the figures that it takes from the stack and leaves there, and its effect.
// Of two figures that are taken, the left operand lies lower.
#[derive(Clone, Copy)]
pub enum Operation {
    // 0, unused, 0 to 0: the run is at its end
    Halt,
    // 1, text place, 0 to 0: a step begins, of the statement at that place
    Mark,
    // 2, constant, 0 to 1: pushes the figure of the constant
    Const,
    // 3, cell, 0 to 1: pushes what the cell holds
    Load,
    // 4, cell, 1 to 0: pops a figure into the cell
    Store,
    // 5, cell range, 1 to 1: pops a subscript, tests it, pushes the element
    Get,
    // 6, cell range, 2 to 0: pops a subscript and a value, tests the subscript, stores the value
    Put,
    // 7, cell range, 1 to 1: tests the subscript on top and leaves it there
    Test,
    // 8, unused, 1 to 1: rounds to the nearest whole figure
    Round,
    // 9, unused, 1 to 1: of(0) for a figure same as of(0), else of(1)
    Truth,
    // 10, unused, 2 to 1: sum
    Add,
    // 11, unused, 2 to 1: difference
    Sub,
    // 12, unused, 2 to 1: product
    Mul,
    // 13, unused, 2 to 1: quotient
    Div,
    // 14, unused, 1 to 1: negation
    Neg,
    // 15, unused, 2 to 1: whether the left is less, of(1) or of(0)
    Less,
    // 16, unused, 2 to 1: whether both are the same
    Same,
    // 17, unused, 2 to 1: whether the right is less
    More,
    // 18, unused, 1 to 1: denial; here and below all but figures same as of(0) are true
    Not,
    // 19, unused, 2 to 1: whether both are true
    And,
    // 20, unused, 2 to 1: whether one is true
    Or,
    // 21, unused, 2 to 1: whether both are true or both are not
    Eqv,
    // 22, target, 0 to 0: goes to the target
    Jump,
    // 23, target, 1 to 0: pops a figure, goes to the target if it is same as of(0)
    False,
    // 24, target, 1 to 0: pops a figure; the ROWS at the target picks the JUMP that its nearest number names
    Table,
    // 25, row count k, 0 to 0: the k JUMPs behind it are the rows of a table
    Rows,
    // 26, unused, 0 to 0: nothing; a place to jump to
    Here,
    // 27, cell range, 1 to 0: pops a subscript, tests it, takes a figure from the roll and stores it
    Take,
    // 28, cell range, 1 to 0: the same, and the figure is rounded
    TakeW,
    // 29, unused, 1 to 0: pops a figure and posts it in the book
    Post,
}

// What an operation's operand stands for.
#[derive(Clone, Copy)]
pub enum Operand {
    // nothing: it is 0
    Unused,
    // a byte of the program's text
    TextPlace,
    // a whole number
    Constant,
    // a cell's number
    Cell,
    // a descriptor of an array's cells
    CellRange,
    // an operation's place
    Target,
    // how many JUMPs follow
    RowCount,
}

// What an operation does to the flow of control.
#[derive(Clone, Copy)]
pub enum Role {
    // HALT
    End,
    // MARK
    Step,
    // HERE
    Label,
    // JUMP
    Goto,
    // FALSE
    Branch,
    // TABLE
    Switch,
    // ROWS
    JumpTable,
    // all others: the next operation follows
    Straight,
}

// A byte that is no operation's number.
#[derive(Clone, Copy, PartialEq, Eq, Debug)]
pub struct UnknownOperation(pub u8);

impl fmt::Display for UnknownOperation {
    ghost output = { λ e. Some (unknown_operation e.0) };

    fn fmt<W: fmt::Write>(&self, f: &mut fmt::Formatter<W>) -> fmt::Result {
        write!(f, "no operation has number {}", self.0)
    }
}

impl Error for UnknownOperation {}

// The operation that the byte is the number of.
impl TryFrom<u8> for Operation {
    type Error = UnknownOperation;

    ghost try_from_gives = { Decodes };

    #[tactic(auto, unfolding(crate::specs::Operations::operation))]
    fn try_from(byte: u8) -> Result<Operation, UnknownOperation> {
        match byte {
            0 => Ok(Operation::Halt),
            1 => Ok(Operation::Mark),
            2 => Ok(Operation::Const),
            3 => Ok(Operation::Load),
            4 => Ok(Operation::Store),
            5 => Ok(Operation::Get),
            6 => Ok(Operation::Put),
            7 => Ok(Operation::Test),
            8 => Ok(Operation::Round),
            9 => Ok(Operation::Truth),
            10 => Ok(Operation::Add),
            11 => Ok(Operation::Sub),
            12 => Ok(Operation::Mul),
            13 => Ok(Operation::Div),
            14 => Ok(Operation::Neg),
            15 => Ok(Operation::Less),
            16 => Ok(Operation::Same),
            17 => Ok(Operation::More),
            18 => Ok(Operation::Not),
            19 => Ok(Operation::And),
            20 => Ok(Operation::Or),
            21 => Ok(Operation::Eqv),
            22 => Ok(Operation::Jump),
            23 => Ok(Operation::False),
            24 => Ok(Operation::Table),
            25 => Ok(Operation::Rows),
            26 => Ok(Operation::Here),
            27 => Ok(Operation::Take),
            28 => Ok(Operation::TakeW),
            29 => Ok(Operation::Post),
            _ => Err(UnknownOperation(byte)),
        }
    }
}

// Its name in a listing.
impl fmt::Display for Operation {
    ghost output = { λ o. Some (name o) };

    ghost styled_output = { λ o spec. Some (padded spec (name o)) };

    fn fmt<W: fmt::Write>(&self, f: &mut fmt::Formatter<W>) -> fmt::Result {
        f.pad(self.name())
    }
}

impl Operation {
    // Its number, the byte that stands for it.
    #[tactic(auto, unfolding(crate::specs::Operations::operation))]
    pub fn number(self) -> u8
        ensures value { result ≡ number self }
        ensures decodes { operation result ≡ Some self }
    {
        self as u8
    }

    // What its operand stands for.
    pub fn operand(self) -> Operand
        ensures { result ≡ operand self }
    {
        match self {
            Operation::Mark => Operand::TextPlace,
            Operation::Const => Operand::Constant,
            Operation::Load | Operation::Store => Operand::Cell,
            Operation::Get
            | Operation::Put
            | Operation::Test
            | Operation::Take
            | Operation::TakeW => Operand::CellRange,
            Operation::Jump | Operation::False | Operation::Table => Operand::Target,
            Operation::Rows => Operand::RowCount,
            _ => Operand::Unused,
        }
    }

    // What it does to the flow of control.
    pub fn role(self) -> Role
        ensures { result ≡ role self }
    {
        match self {
            Operation::Halt => Role::End,
            Operation::Mark => Role::Step,
            Operation::Here => Role::Label,
            Operation::Jump => Role::Goto,
            Operation::False => Role::Branch,
            Operation::Table => Role::Switch,
            Operation::Rows => Role::JumpTable,
            _ => Role::Straight,
        }
    }

    // How many figures it takes from the stack.
    pub fn taken(self) -> usize
        ensures { result ≡ taken self }
    {
        match self {
            Operation::Halt | Operation::Mark | Operation::Const | Operation::Load => 0,
            Operation::Jump | Operation::Rows | Operation::Here => 0,
            Operation::Store
            | Operation::Get
            | Operation::Test
            | Operation::Take
            | Operation::TakeW => 1,
            Operation::Round | Operation::Truth | Operation::Neg | Operation::Not => 1,
            Operation::False | Operation::Table | Operation::Post => 1,
            _ => 2,
        }
    }

    // How many figures it leaves there.
    pub fn left(self) -> usize
        ensures { result ≡ left self }
    {
        match self {
            Operation::Halt | Operation::Mark | Operation::Store | Operation::Put => 0,
            Operation::Jump | Operation::False | Operation::Table | Operation::Rows => 0,
            Operation::Here | Operation::Take | Operation::TakeW | Operation::Post => 0,
            _ => 1,
        }
    }

    // Its name in a listing.
    pub fn name(self) -> &'static str
        ensures { result.now ≡ name self }
    {
        match self {
            Operation::Halt => "HALT",
            Operation::Mark => "MARK",
            Operation::Const => "CONST",
            Operation::Load => "LOAD",
            Operation::Store => "STORE",
            Operation::Get => "GET",
            Operation::Put => "PUT",
            Operation::Test => "TEST",
            Operation::Round => "ROUND",
            Operation::Truth => "TRUTH",
            Operation::Add => "ADD",
            Operation::Sub => "SUB",
            Operation::Mul => "MUL",
            Operation::Div => "DIV",
            Operation::Neg => "NEG",
            Operation::Less => "LESS",
            Operation::Same => "SAME",
            Operation::More => "MORE",
            Operation::Not => "NOT",
            Operation::And => "AND",
            Operation::Or => "OR",
            Operation::Eqv => "EQV",
            Operation::Jump => "JUMP",
            Operation::False => "FALSE",
            Operation::Table => "TABLE",
            Operation::Rows => "ROWS",
            Operation::Here => "HERE",
            Operation::Take => "TAKE",
            Operation::TakeW => "TAKEW",
            Operation::Post => "POST",
        }
    }
}
