// Words that have to come: taken, or refused.

ghost use Rattle.std.specs.Prelude.{◌<◌};
ghost use Rattle.parser.specs.Promises.{Moves};
ghost use Rattle.parser.specs.Expecting.{Expects, ExpectsName, Opens, OpensMark};

use crate::class::WordClass;
use crate::refusal::Refusal;
use crate::table::Parser;
use grammar::refusal::SentenceRefusal;
use words::token::Mark;

impl Parser<'_> {
    // Takes the next word, which has to be of the class, and says what it has of it. Two arms, as in
    // `expect_name`, so that taking and refusing stand side by side.
    pub(crate) fn expect<C: WordClass>(&mut self, class: C) -> Result<C::Found, Refusal>
        ensures moves { Moves self.old self.new }
        ensures took { Expects (C.class class) (C.content class) self.old self.new result }
    {
        match self.take(class) {
            Some(found) => Ok(found),
            None => Err(self.refuse(SentenceRefusal::Unexpected)),
        }
    }

    // Takes a name, which has to come, and says which word it is. Two arms, since the word is passed over in one.
    pub(crate) fn expect_name(&mut self) -> Result<usize, Refusal>
        ensures moves { Moves self.old self.new }
        ensures took { ExpectsName self.old self.new result }
    {
        match self.next_name() {
            Some(w) => {
                self.skip();
                Ok(w)
            }
            None => Err(self.refuse(SentenceRefusal::Unexpected)),
        }
    }

    // Takes the next word, which opens a level, and says how many levels are left behind it.
    // The levels left are an argument: as a field of the parser, each way out of a part would have to put them back.
    pub(crate) fn open(&mut self, levels: usize) -> Result<usize, Refusal>
        requires left { self.old.at < self.old.count }
        ensures moves { Moves self.old self.new }
        ensures opens { Opens levels self.old self.new result }
    {
        if levels == 0 {
            return Err(self.refuse(SentenceRefusal::TooDeep));
        }
        self.skip();
        Ok(levels - 1)
    }

    // Takes the bracket, which has to come, and says how many levels are left behind it.
    pub(crate) fn open_mark(&mut self, m: Mark, levels: usize) -> Result<usize, Refusal>
        ensures moves { Moves self.old self.new }
        ensures opens { OpensMark m levels self.old self.new result }
    {
        if !self.next_is(m) {
            return Err(self.refuse(SentenceRefusal::Unexpected));
        }
        self.open(levels)
    }
}
