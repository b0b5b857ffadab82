// Rows of parts, with a separator between any two.

ghost use Rattle.std.specs.Prelude.{◌≡◌};
ghost use Rattle.grammar.specs.Grammar.{Part, row, separator};
ghost use Rattle.grammar.specs.Parser.{goto, begin};
ghost use Rattle.parser.specs.Records.{RowAt, TreeAt};
ghost use Rattle.parser.specs.Promises.{Moves, Reads, here};
ghost use Rattle.parser.specs.Pieces.{ReadsPart};

use crate::node::Node;
use crate::refusal::Refusal;
use crate::table::Parser;
use words::token::Mark;

// A part that rows are made of.
pub(crate) trait RowPart {
    // Which part of the grammar it is.
    ghost part: { Part };

    // What stands between two of them.
    fn separator() -> Mark
        ensures { result ≡ separator part };

    // Reads one of them.
    fn read(parser: &mut Parser<'_>, levels: usize) -> Result<usize, Refusal>
        ensures moves { Moves parser.old parser.new }
        ensures reads { ReadsPart part levels parser.old parser.new result };
}

impl Parser<'_> {
    // Parts of one kind, with the separator between any two.
    pub(crate) fn row<P: RowPart>(&mut self, levels: usize) -> Result<usize, Refusal>
        ensures moves { Moves self.old self.new }
        ensures reads { Reads (RowAt (TreeAt P.part)) levels self.old self.new (here (goto (begin (row P.part)))) result }
    {
        let separator = P::separator();
        let mut all = P::read(self, levels)?;
        while let Some(()) = self.take(separator) {
            let next = P::read(self, levels)?;
            all = self.make(Node::More(all, next));
        }
        Ok(all)
    }
}
