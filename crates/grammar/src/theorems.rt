// What is proved of the grammar and of the defined reading.

ghost use Rattle.grammar.specs.Examples.{Ranks, Repetition, EarlyEnd, ImpossibleWord, IsTooDeep, ClosedLevels};
ghost use Rattle.grammar.specs.Meaning.{Sound, Complete, Unambiguous, UnexpectedWords, TooDeepWords, EarlyEnds, FewNames};

// A few texts, read by the definitions.
pub fn examples()
    ensures ranks { Ranks }
    ensures repetition { Repetition }
    ensures early_end { EarlyEnd }
    ensures impossible_word { ImpossibleWord }
    ensures too_deep { IsTooDeep }
    ensures closed_levels { ClosedLevels }
{}

// Every tree that is read derives from the words.
pub fn reading_is_sound()
    ensures { Sound }
{}

// Every sentence within the limit is read to its tree.
pub fn reading_is_complete()
    ensures { Complete }
{}

// Refusal 5 names the first word with which no sentence can go on, or an early end; refusal 6 a word that opens a
// level too many.
pub fn refusals_are_right()
    ensures unexpected { UnexpectedWords }
    ensures too_deep { TooDeepWords }
    ensures early_ends { EarlyEnds }
{}

// A sentence has one tree.
pub fn sentences_have_one_tree()
    ensures { Unambiguous }
{}

// A sentence has at most one name more than other words.
pub fn names_are_few()
    ensures { FewNames }
{}
