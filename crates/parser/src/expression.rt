// Expressions: recursive descent with the levels left, by the ranks of operators.

ghost use Rattle.std.specs.Prelude.{◌≡◌, ◌<◌, Some};
ghost use Rattle.grammar.specs.Classes.{heads, the_mark};
ghost use Rattle.grammar.specs.Grammar.{ranked, factor, variable};
ghost use Rattle.grammar.specs.Parser.{goto, operators};
ghost use Rattle.grammar.specs.Tree.{Exp};
ghost use Rattle.parser.specs.Records.{ahead, view, ExpAt};
ghost use Rattle.parser.specs.Promises.{Moves, Reads, here};
ghost use Rattle.parser.specs.Pieces.{ReadsPart};

use crate::class::{Numbers, Operators, Prefixes, Relations};
use crate::node::Node;
use crate::refusal::Refusal;
use crate::table::Parser;
use words::token::Mark;

impl Parser<'_> {
    // An expression of rank `rank`.
    #[cycle(bracket_expression_factor_operated_variable)]
    pub(crate) fn expression(&mut self, rank: usize, levels: usize) -> Result<usize, Refusal>
        ensures moves { Moves self.old self.new }
        ensures reads { ReadsPart (ranked rank) levels self.old self.new result }
    {
        let place = self.place();
        if let Some(o) = self.take(Prefixes { rank }) {
            let operand = self.expression(o.operand_rank(), levels)?;
            let left = self.make(Node::Prefixed(o, place, operand));
            return self.operated(rank, o.rank(), left, levels);
        }
        let left = self.factor(levels)?;
        self.operated(rank, 7, left, levels)
    }

    // The operators of rank `rank` to `bound` behind the operand `first`, with their operands.
    #[cycle(bracket_expression_factor_operated_variable)]
    fn operated(
        &mut self,
        rank: usize,
        bound: usize,
        first: usize,
        levels: usize,
    ) -> Result<usize, Refusal>
        requires made { first < self.old.made }
        ensures moves { Moves self.old self.new }
        ensures reads { (x : Exp) → ExpAt (view self.old) x first → Reads ExpAt levels self.old self.new (here (goto (operators rank bound x))) result }
    {
        let mut left = first;
        let mut up_to = bound;
        while let Some(o) = self.take(Operators { rank, bound: up_to }) {
            let right = self.expression(o.rank() + 1, levels)?;
            left = self.make(Node::Joined(o, left, right));
            up_to = o.rank();
        }
        Ok(left)
    }

    // A number, a variable, or an expression or a comparison in brackets.
    #[cycle(bracket_expression_factor_operated_variable)]
    fn factor(&mut self, levels: usize) -> Result<usize, Refusal>
        ensures moves { Moves self.old self.new }
        ensures reads { ReadsPart factor levels self.old self.new result }
    {
        if self.next_is(Mark::OpenRound) {
            return self.bracket(levels);
        }
        let place = self.place();
        if let Some(n) = self.take(Numbers) {
            return Ok(self.make(Node::Literal(n, place)));
        }
        self.variable(levels)
    }

    #[cycle(bracket_expression_factor_operated_variable)]
    fn bracket(&mut self, levels: usize) -> Result<usize, Refusal>
        requires opens { heads (the_mark Mark.OpenRound) (ahead self.old) ≡ Some tt }
        ensures moves { Moves self.old self.new }
        ensures reads { ReadsPart factor levels self.old self.new result }
    {
        let place = self.place();
        let inner = self.open(levels)?;
        let left = self.expression(1, inner)?;
        if let Some(r) = self.take(Relations) {
            let right = self.expression(1, inner)?;
            self.expect(Mark::CloseRound)?;
            return Ok(self.make(Node::Compared(r, place, left, right)));
        }
        self.expect(Mark::CloseRound)?;
        Ok(self.make(Node::Bracketed(place, left)))
    }

    // A name, or an array's element.
    #[cycle(bracket_expression_factor_operated_variable)]
    pub(crate) fn variable(&mut self, levels: usize) -> Result<usize, Refusal>
        ensures moves { Moves self.old self.new }
        ensures reads { ReadsPart variable levels self.old self.new result }
    {
        let name = self.expect_name()?;
        if !self.next_is(Mark::OpenSquare) {
            return Ok(self.make(Node::Simple(name)));
        }
        // `subscript` has these three steps too: called from here it would be one more function of the cycle, which goes by
        // the levels that `open` leaves
        let inner = self.open(levels)?;
        let subscript = self.expression(1, inner)?;
        self.expect(Mark::CloseSquare)?;
        Ok(self.make(Node::Subscripted(name, subscript)))
    }
}
