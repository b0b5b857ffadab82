// The parser's single steps: looking at the next word, taking it, making a node.

ghost use Rattle.std.specs.Prelude.{◌≡◌, ◌+◌, ◌<◌, true, length, drop};
ghost use Rattle.words.specs.declared.token.Keyword.{Keyword};
ghost use Rattle.grammar.specs.Classes.{heads, the_mark, the_keyword, a_name, when};
ghost use Rattle.parser.specs.Records.{all, ahead};
ghost use Rattle.parser.specs.Labels.{is_label};
ghost use Rattle.parser.specs.Promises.{Took, Made, instead, next, in_text, place_of};
ghost use Rattle.parser.specs.Expecting.{is_that, Comes, Takes};

use crate::class::WordClass;
use crate::node::Node;
use crate::refusal::Refusal;
use crate::table::Parser;
use grammar::refusal::SentenceRefusal;
use words::token::{Keyword, Mark, Token};
use words::word::Word;

impl Parser<'_> {
    // Word `i`, where there is one.
    fn word_at(&self, i: usize) -> Option<Word>
        ensures { in_text self.now.text.now result ≡ next (drop i (all self.now)) }
    {
        self.table[..self.count].get(i).map(|record| record.word)
    }

    // The next word.
    fn peek(&self) -> Option<Word>
        ensures { in_text self.now.text.now result ≡ next (ahead self.now) }
    {
        self.word_at(self.at)
    }

    // The place of the next word, or the text's end.
    pub(crate) fn place(&self) -> usize
        ensures { result ≡ place_of (length self.now.text.now) (ahead self.now) }
    {
        self.peek().map_or(self.text.len(), |w| w.place)
    }

    // The refusal at the next word, or at the text's end.
    pub(crate) fn refuse(&self, reason: SentenceRefusal) -> Refusal
        ensures reason { result.reason ≡ reason }
        ensures place { result.place ≡ place_of (length self.now.text.now) (ahead self.now) }
    {
        Refusal {
            reason,
            place: self.place(),
        }
    }

    // What word `i` has of the class.
    fn word_of<C: WordClass>(&self, i: usize, class: C) -> Option<C::Found>
        ensures { Comes (C.class class) (C.content class) (drop i (all self.now)) result }
    {
        let w = self.word_at(i)?;
        class.find(w.token)
    }

    // What the next word has of the class.
    fn next<C: WordClass>(&self, class: C) -> Option<C::Found>
        ensures { Comes (C.class class) (C.content class) (ahead self.now) result }
    {
        self.word_of(self.at, class)
    }

    // Is the next word of the class?
    pub(crate) fn next_is<C: WordClass<Found = ()>>(&self, class: C) -> bool
        ensures { heads (C.class class) (ahead self.now) ≡ when result (C.content class tt) }
    {
        self.next(class).is_some()
    }

    // The number of the next word, if it is a name.
    pub(crate) fn next_name(&self) -> Option<usize>
        ensures { result ≡ instead self.now.at (heads a_name (ahead self.now)) }
    {
        match self.peek() {
            Some(
                Word {
                    token: Token::Name(_),
                    ..
                },
            ) => Some(self.at),
            _ => None,
        }
    }

    // The next word, if it is a reserved one.
    pub(crate) fn next_keyword(&self) -> Option<Keyword>
        ensures { (k : Keyword) → heads (the_keyword k) (ahead self.now) ≡ when (is_that k result) tt }
    {
        match self.peek() {
            Some(
                Word {
                    token: Token::Keyword(k),
                    ..
                },
            ) => Some(k),
            _ => None,
        }
    }

    // Is the word behind the next one the mark?
    fn second_is_mark(&self, m: Mark) -> bool
        ensures { heads (the_mark m) (drop (self.now.at + 1) (all self.now)) ≡ when result tt }
    {
        self.at < self.count && self.word_of(self.at + 1, m).is_some()
    }

    // Do a name and a colon come next?
    pub(crate) fn next_is_label(&self) -> bool
        ensures { result ≡ is_label (ahead self.now) }
    {
        self.next_name().is_some() && self.second_is_mark(Mark::Colon)
    }

    // Passes over the next word.
    pub(crate) fn skip(&mut self)
        requires left { self.old.at < self.old.count }
        ensures took { Took true self.old self.new }
    {
        self.at += 1;
    }

    // Passes over the next word if it is of the class, and says what it has of it.
    pub(crate) fn take<C: WordClass>(&mut self, class: C) -> Option<C::Found>
        ensures { Takes (C.class class) (C.content class) self.old self.new result }
    {
        let found = self.next(class)?;
        self.skip();
        Some(found)
    }

    // Puts a node into the table.
    pub(crate) fn make(&mut self, node: Node) -> usize
        requires paid { self.old.made < self.old.at }
        ensures { Made node result self.old self.new }
    {
        let i = self.made;
        self.table[i].node = node;
        self.made = i + 1;
        i
    }
}
