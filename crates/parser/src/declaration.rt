// Names, and the parts of declarations.

ghost use Rattle.std.specs.Prelude.{ℕ};
ghost use Rattle.grammar.specs.Tree.{Row, Name, Item};
ghost use Rattle.grammar.specs.Grammar.{identifier, group};
ghost use Rattle.grammar.specs.Parser.{done, names_script};
ghost use Rattle.parser.specs.Records.{NameAt, RowAt};
ghost use Rattle.parser.specs.Promises.{Moves, Passes, here};
ghost use Rattle.parser.specs.Pieces.{ReadsBound, ReadsPart};

use crate::class::{Numbers, Signs};
use crate::node::{Bound, Node};
use crate::refusal::Refusal;
use crate::row::RowPart;
use crate::table::Parser;
use words::token::{Mark, Sign};

// A name in a row of names.
pub(crate) struct NamePart;

impl RowPart for NamePart {
    ghost part = { identifier };

    fn separator() -> Mark {
        Mark::Comma
    }

    fn read(parser: &mut Parser<'_>, _levels: usize) -> Result<usize, Refusal> {
        parser.name()
    }
}

// A group in a row of groups.
pub(crate) struct GroupPart;

impl RowPart for GroupPart {
    ghost part = { group };

    fn separator() -> Mark {
        Mark::Comma
    }

    fn read(parser: &mut Parser<'_>, levels: usize) -> Result<usize, Refusal> {
        parser.group(levels)
    }
}

impl Parser<'_> {
    // A name.
    pub(crate) fn name(&mut self) -> Result<usize, Refusal>
        ensures moves { Moves self.old self.new }
        ensures reads { (levels : ℕ) → ReadsPart identifier levels self.old self.new result }
    {
        let word = self.expect_name()?;
        Ok(self.make(Node::Simple(word)))
    }

    // A number, or a sign and a number.
    fn bound(&mut self) -> Result<Bound, Refusal>
        ensures moves { Moves self.old self.new }
        ensures reads { (levels : ℕ) → ReadsBound levels self.old self.new result }
    {
        let sign = self.take(Signs).unwrap_or(Sign::Plus);
        let size = self.expect(Numbers)?;
        Ok(Bound { sign, size })
    }

    // Names of arrays, and their bounds in square brackets.
    fn group(&mut self, levels: usize) -> Result<usize, Refusal>
        ensures moves { Moves self.old self.new }
        ensures reads { ReadsPart group levels self.old self.new result }
    {
        let names = self.row::<NamePart>(levels)?;
        let bracket = self.place();
        self.open_mark(Mark::OpenSquare, levels)?;
        let low = self.bound()?;
        self.expect(Mark::Colon)?;
        let high = self.bound()?;
        self.expect(Mark::CloseSquare)?;
        Ok(self.make(Node::Group(names, bracket, low, high)))
    }

    // Names in brackets.
    pub(crate) fn bracketed_names(&mut self, levels: usize) -> Result<usize, Refusal>
        ensures moves { Moves self.old self.new }
        ensures reads { (f : Row Name → Item) → Passes (RowAt NameAt) levels self.old self.new (here (names_script f)) (λ xs. here (done (f xs))) result }
    {
        let inner = self.open_mark(Mark::OpenRound, levels)?;
        let names = self.row::<NamePart>(inner)?;
        self.expect(Mark::CloseRound)?;
        Ok(names)
    }
}
