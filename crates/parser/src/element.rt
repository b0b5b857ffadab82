// The elements of a for's list, and what rows of them and of expressions are made of.

ghost use Rattle.grammar.specs.Grammar.{exp, element};
ghost use Rattle.parser.specs.Promises.{Moves};
ghost use Rattle.parser.specs.Pieces.{ReadsPart};

use crate::node::Node;
use crate::refusal::Refusal;
use crate::row::RowPart;
use crate::table::Parser;
use words::token::Mark;

// An element in a for's list.
pub(crate) struct ElementPart;

impl RowPart for ElementPart {
    ghost part = { element };

    fn separator() -> Mark {
        Mark::Comma
    }

    fn read(parser: &mut Parser<'_>, levels: usize) -> Result<usize, Refusal> {
        parser.element(levels)
    }
}

// An expression in a row of expressions.
pub(crate) struct ExpressionPart;

impl RowPart for ExpressionPart {
    ghost part = { exp };

    fn separator() -> Mark {
        Mark::Comma
    }

    fn read(parser: &mut Parser<'_>, levels: usize) -> Result<usize, Refusal> {
        parser.expression(1, levels)
    }
}

impl Parser<'_> {
    // An expression, or a progression: from, step in brackets, limit.
    fn element(&mut self, levels: usize) -> Result<usize, Refusal>
        ensures moves { Moves self.old self.new }
        ensures reads { ReadsPart element levels self.old self.new result }
    {
        let from = self.expression(1, levels)?;
        if !self.next_is(Mark::OpenRound) {
            return Ok(from);
        }
        let inner = self.open(levels)?;
        let step = self.expression(1, inner)?;
        self.expect(Mark::CloseRound)?;
        let limit = self.expression(1, levels)?;
        Ok(self.make(Node::Progression(from, step, limit)))
    }
}
