// Items, and the whole program.

ghost use Rattle.std.specs.Prelude.{◌≡◌, ℕ, Some};
ghost use Rattle.grammar.specs.Classes.{heads, the_keyword};
ghost use Rattle.grammar.specs.Grammar.{a, item};
ghost use Rattle.grammar.specs.Parser.{goto, begin};
ghost use Rattle.parser.specs.Records.{ahead, ItemAt};
ghost use Rattle.parser.specs.Promises.{Moves, Read, here};
ghost use Rattle.parser.specs.Pieces.{ReadsPart};
ghost use Rattle.parser.specs.Whole.{ReadsProgram};

use crate::declaration::GroupPart;
use crate::node::Node;
use crate::refusal::Refusal;
use crate::row::RowPart;
use crate::table::Parser;
use grammar::refusal::SentenceRefusal;
use words::token::{Keyword, Mark};

// An item in a program.
pub(crate) struct ItemPart;

impl RowPart for ItemPart {
    ghost part = { item };

    fn separator() -> Mark {
        Mark::Semicolon
    }

    fn read(parser: &mut Parser<'_>, levels: usize) -> Result<usize, Refusal> {
        parser.item(levels)
    }
}

impl Parser<'_> {
    // A comment, a declaration or a statement, by its first word.
    fn item(&mut self, levels: usize) -> Result<usize, Refusal>
        ensures moves { Moves self.old self.new }
        ensures reads { ReadsPart item levels self.old self.new result }
    {
        match self.next_keyword() {
            Some(Keyword::Comment) => Ok(self.comment()),
            Some(Keyword::Integer) => self.integers(levels),
            Some(Keyword::Boolean) => self.booleans(levels),
            Some(Keyword::Array) => self.arrays(levels),
            Some(Keyword::Switch) => self.switch(levels),
            _ => self.statement(levels),
        }
    }

    // `comment`, with what it skips.
    fn comment(&mut self) -> usize
        requires begins { heads (the_keyword Keyword.Comment) (ahead self.old) ≡ Some tt }
        ensures moves { Moves self.old self.new }
        ensures reads { (levels : ℕ) → Read ItemAt levels self.old self.new (here (goto (begin (a item)))) result }
    {
        self.skip();
        self.make(Node::Comment)
    }

    // `integer` and names in brackets.
    fn integers(&mut self, levels: usize) -> Result<usize, Refusal>
        requires begins { heads (the_keyword Keyword.Integer) (ahead self.old) ≡ Some tt }
        ensures moves { Moves self.old self.new }
        ensures reads { ReadsPart item levels self.old self.new result }
    {
        self.skip();
        let names = self.bracketed_names(levels)?;
        Ok(self.make(Node::Integer(names)))
    }

    // `boolean` and names in brackets. One function for this and `integers` would take a trait with a word, an item, a
    // node and a law, and be longer than the two.
    fn booleans(&mut self, levels: usize) -> Result<usize, Refusal>
        requires begins { heads (the_keyword Keyword.Boolean) (ahead self.old) ≡ Some tt }
        ensures moves { Moves self.old self.new }
        ensures reads { ReadsPart item levels self.old self.new result }
    {
        self.skip();
        let names = self.bracketed_names(levels)?;
        Ok(self.make(Node::Boolean(names)))
    }

    // `array` and groups in brackets.
    fn arrays(&mut self, levels: usize) -> Result<usize, Refusal>
        requires begins { heads (the_keyword Keyword.Array) (ahead self.old) ≡ Some tt }
        ensures moves { Moves self.old self.new }
        ensures reads { ReadsPart item levels self.old self.new result }
    {
        self.skip();
        let inner = self.open_mark(Mark::OpenRound, levels)?;
        let groups = self.row::<GroupPart>(inner)?;
        self.expect(Mark::CloseRound)?;
        Ok(self.make(Node::Array(groups)))
    }

    // `switch`, a name, `:=` and labels in brackets.
    fn switch(&mut self, levels: usize) -> Result<usize, Refusal>
        requires begins { heads (the_keyword Keyword.Switch) (ahead self.old) ≡ Some tt }
        ensures moves { Moves self.old self.new }
        ensures reads { ReadsPart item levels self.old self.new result }
    {
        self.skip();
        let name = self.expect_name()?;
        self.expect(Mark::Becomes)?;
        let labels = self.bracketed_names(levels)?;
        Ok(self.make(Node::Switch(name, labels)))
    }

    // A whole program: items, and then no word more.
    pub(crate) fn program(&mut self, levels: usize) -> Result<usize, Refusal>
        ensures moves { Moves self.old self.new }
        ensures reads { ReadsProgram levels self.old self.new result }
    {
        let root = self.row::<ItemPart>(levels)?;
        if self.at < self.count {
            return Err(self.refuse(SentenceRefusal::Unexpected));
        }
        Ok(root)
    }
}
