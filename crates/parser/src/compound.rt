// Statements with labels, and those that hold other statements.

ghost use Rattle.std.specs.Prelude.{◌≡◌, ◌+◌, ◌*◌, ◌<◌, ◌≤◌, false, Some};
ghost use Rattle.grammar.specs.Classes.{heads, the_keyword};
ghost use Rattle.grammar.specs.Grammar.{row, statement};
ghost use Rattle.grammar.specs.Parser.{goto, begin};
ghost use Rattle.parser.specs.Records.{ahead, RowAt, StatementAt};
ghost use Rattle.parser.specs.Promises.{Moves, Reads, here};
ghost use Rattle.parser.specs.Pieces.{ReadsPart};
ghost use Rattle.parser.specs.Labels.{is_label, LabelsPassed, LabelsMade};

use crate::element::ElementPart;
use crate::node::Node;
use crate::refusal::Refusal;
use crate::table::Parser;
use grammar::refusal::SentenceRefusal;
use words::token::{Keyword, Mark};

impl Parser<'_> {
    // Passes over the labels that come next, and says how many there are. It counts by hand, since each step moves the
    // parser and there is no iterator to count.
    fn skip_labels(&mut self) -> usize
        ensures passed { LabelsPassed self.old self.new result }
        ensures plain { is_label (ahead self.new) ≡ false }
    {
        let mut labels = 0;
        while self.next_is_label() {
            self.skip();
            self.skip();
            labels += 1;
        }
        labels
    }

    // Puts the labels around a statement, `labels` of them from word `first` on, the last one innermost.
    fn label(&mut self, first: usize, labels: usize, statement: usize) -> usize
        requires behind { first + 2 * labels ≤ self.old.at }
        requires paid { self.old.made + labels ≤ self.old.at }
        requires made { statement < self.old.made }
        ensures { LabelsMade first labels statement self.old self.new result }
    {
        let mut all = statement;
        for label in (0..labels).rev() {
            all = self.make(Node::Labelled(first + 2 * label, all));
        }
        all
    }

    // A statement, with its labels.
    #[cycle(block_conditional_repetition_statement_statements_unlabelled)]
    pub(crate) fn statement(&mut self, levels: usize) -> Result<usize, Refusal>
        ensures moves { Moves self.old self.new }
        ensures reads { ReadsPart statement levels self.old self.new result }
    {
        let first = self.at;
        let labels = self.skip_labels();
        let inner = self.unlabelled(levels)?;
        Ok(self.label(first, labels, inner))
    }

    // A statement behind its labels, by its first word.
    #[cycle(block_conditional_repetition_statement_statements_unlabelled)]
    fn unlabelled(&mut self, levels: usize) -> Result<usize, Refusal>
        requires plain { is_label (ahead self.old) ≡ false }
        ensures moves { Moves self.old self.new }
        ensures reads { ReadsPart statement levels self.old self.new result }
    {
        match self.next_keyword() {
            Some(Keyword::If) => self.conditional(levels),
            Some(Keyword::For) => self.repetition(levels),
            Some(Keyword::Begin) => self.block(levels),
            Some(Keyword::Go) => self.jump(levels),
            Some(Keyword::In) => self.input(levels),
            Some(Keyword::Print) => self.print(levels),
            Some(Keyword::Stop) => Ok(self.stop()),
            // A `match`: with `ok_or_else` the check does not find what is read.
            _ => match self.next_name() {
                Some(name) => self.assignment(name, levels),
                None => Err(self.refuse(SentenceRefusal::Unexpected)),
            },
        }
    }

    // `if`, an expression, `;` and a statement.
    #[cycle(block_conditional_repetition_statement_statements_unlabelled)]
    fn conditional(&mut self, levels: usize) -> Result<usize, Refusal>
        requires begins { heads (the_keyword Keyword.If) (ahead self.old) ≡ Some tt }
        ensures moves { Moves self.old self.new }
        ensures reads { ReadsPart statement levels self.old self.new result }
    {
        let place = self.place();
        let inner = self.open(levels)?;
        let condition = self.expression(1, inner)?;
        self.expect(Mark::Semicolon)?;
        let body = self.statement(inner)?;
        Ok(self.make(Node::Conditional(place, condition, body)))
    }

    // `for`, a name, `:=`, elements, `;` and a statement.
    #[cycle(block_conditional_repetition_statement_statements_unlabelled)]
    fn repetition(&mut self, levels: usize) -> Result<usize, Refusal>
        requires begins { heads (the_keyword Keyword.For) (ahead self.old) ≡ Some tt }
        ensures moves { Moves self.old self.new }
        ensures reads { ReadsPart statement levels self.old self.new result }
    {
        let place = self.place();
        let inner = self.open(levels)?;
        let name = self.expect_name()?;
        self.expect(Mark::Becomes)?;
        let elements = self.row::<ElementPart>(inner)?;
        self.expect(Mark::Semicolon)?;
        let body = self.statement(inner)?;
        Ok(self.make(Node::Repeated(place, name, elements, body)))
    }

    // `begin`, statements and `end`.
    #[cycle(block_conditional_repetition_statement_statements_unlabelled)]
    fn block(&mut self, levels: usize) -> Result<usize, Refusal>
        requires begins { heads (the_keyword Keyword.Begin) (ahead self.old) ≡ Some tt }
        ensures moves { Moves self.old self.new }
        ensures reads { ReadsPart statement levels self.old self.new result }
    {
        let inner = self.open(levels)?;
        let all = self.statements(inner)?;
        self.expect(Keyword::End)?;
        Ok(all)
    }

    // Statements, parted by semicolons. Statements hold such rows, so this is in the cycle of calls by its own name: `row`
    // calls its part through a bound, and the measure of a cycle does not reach there.
    #[cycle(block_conditional_repetition_statement_statements_unlabelled)]
    fn statements(&mut self, levels: usize) -> Result<usize, Refusal>
        ensures moves { Moves self.old self.new }
        ensures reads { Reads (RowAt StatementAt) levels self.old self.new (here (goto (begin (row statement)))) result }
    {
        let mut all = self.statement(levels)?;
        while let Some(()) = self.take(Mark::Semicolon) {
            let next = self.statement(levels)?;
            all = self.make(Node::More(all, next));
        }
        Ok(all)
    }
}
