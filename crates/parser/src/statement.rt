// Statements: those of one line.

ghost use Rattle.std.specs.Prelude.{◌≡◌, ℕ, false, Some};
ghost use Rattle.grammar.specs.Tree.{Exp};
ghost use Rattle.grammar.specs.Classes.{heads, the_keyword, a_name};
ghost use Rattle.grammar.specs.Grammar.{Phrase, a, statement};
ghost use Rattle.grammar.specs.Parser.{goto, begin, Script};
ghost use Rattle.parser.specs.Records.{ahead, ExpAt, VariableAt, StatementAt};
ghost use Rattle.parser.specs.Promises.{Moves, Read, Passes, here, instead};
ghost use Rattle.parser.specs.Pieces.{subscript_script, assigning, ReadsPart};
ghost use Rattle.parser.specs.Labels.{is_label};

use crate::element::ExpressionPart;
use crate::node::Node;
use crate::refusal::Refusal;
use crate::table::Parser;
use words::token::{Keyword, Mark};

impl Parser<'_> {
    // An expression in square brackets.
    fn subscript(&mut self, levels: usize) -> Result<usize, Refusal>
        ensures moves { Moves self.old self.new }
        ensures reads { (p : Phrase) (f : Exp → Script p) → Passes ExpAt levels self.old self.new (here (subscript_script f)) (λ i. here (f i)) result }
    {
        let inner = self.open_mark(Mark::OpenSquare, levels)?;
        let subscript = self.expression(1, inner)?;
        self.expect(Mark::CloseSquare)?;
        Ok(subscript)
    }

    // The variable that is assigned to, whose name is the next word.
    fn target(&mut self, name: usize, levels: usize) -> Result<usize, Refusal>
        requires named { Some name ≡ instead self.old.at (heads a_name (ahead self.old)) }
        requires plain { is_label (ahead self.old) ≡ false }
        ensures moves { Moves self.old self.new }
        ensures reads { Passes VariableAt levels self.old self.new (here (goto (begin (a statement)))) (λ v. here (assigning v)) result }
    {
        self.skip();
        if !self.next_is(Mark::OpenSquare) {
            return Ok(self.make(Node::Simple(name)));
        }
        let subscript = self.subscript(levels)?;
        Ok(self.make(Node::Subscripted(name, subscript)))
    }

    // A variable, `:=` and an expression.
    pub(crate) fn assignment(&mut self, name: usize, levels: usize) -> Result<usize, Refusal>
        requires named { Some name ≡ instead self.old.at (heads a_name (ahead self.old)) }
        requires plain { is_label (ahead self.old) ≡ false }
        ensures moves { Moves self.old self.new }
        ensures reads { ReadsPart statement levels self.old self.new result }
    {
        let target = self.target(name, levels)?;
        self.expect(Mark::Becomes)?;
        let value = self.expression(1, levels)?;
        Ok(self.make(Node::Assigned(target, value)))
    }

    // `go to` and a label, or a switch and its subscript.
    pub(crate) fn jump(&mut self, levels: usize) -> Result<usize, Refusal>
        requires begins { heads (the_keyword Keyword.Go) (ahead self.old) ≡ Some tt }
        ensures moves { Moves self.old self.new }
        ensures reads { ReadsPart statement levels self.old self.new result }
    {
        let place = self.place();
        self.skip();
        self.expect(Keyword::To)?;
        let name = self.expect_name()?;
        if !self.next_is(Mark::OpenSquare) {
            return Ok(self.make(Node::Go(place, name)));
        }
        let subscript = self.subscript(levels)?;
        Ok(self.make(Node::Switched(place, name, subscript)))
    }

    // `in =:` and a variable in brackets.
    pub(crate) fn input(&mut self, levels: usize) -> Result<usize, Refusal>
        requires begins { heads (the_keyword Keyword.In) (ahead self.old) ≡ Some tt }
        ensures moves { Moves self.old self.new }
        ensures reads { ReadsPart statement levels self.old self.new result }
    {
        let place = self.place();
        self.skip();
        self.expect(Mark::Into)?;
        let inner = self.open_mark(Mark::OpenRound, levels)?;
        let target = self.variable(inner)?;
        self.expect(Mark::CloseRound)?;
        Ok(self.make(Node::Input(place, target)))
    }

    // `print` and expressions in brackets.
    pub(crate) fn print(&mut self, levels: usize) -> Result<usize, Refusal>
        requires begins { heads (the_keyword Keyword.Print) (ahead self.old) ≡ Some tt }
        ensures moves { Moves self.old self.new }
        ensures reads { ReadsPart statement levels self.old self.new result }
    {
        let place = self.place();
        self.skip();
        let inner = self.open_mark(Mark::OpenRound, levels)?;
        let all = self.row::<ExpressionPart>(inner)?;
        self.expect(Mark::CloseRound)?;
        Ok(self.make(Node::Printed(place, all)))
    }

    // `stop`.
    pub(crate) fn stop(&mut self) -> usize
        requires begins { heads (the_keyword Keyword.Stop) (ahead self.old) ≡ Some tt }
        ensures moves { Moves self.old self.new }
        ensures reads { (levels : ℕ) → Read StatementAt levels self.old self.new (here (goto (begin (a statement)))) result }
    {
        let place = self.place();
        self.skip();
        self.make(Node::Stop(place))
    }
}
