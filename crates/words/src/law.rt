// Theorems about the words of a text, each proved as the contract of a function that does nothing.

ghost use Rattle.words.specs.Cases.{WorkedTexts};
ghost use Rattle.words.specs.Reading.{ReadingLaw};

// The rules give every text one result, the one that is computed.
pub fn reading_law_holds()
    ensures { ReadingLaw }
{}

// The worked texts have these words and refusals.
pub fn worked_texts_hold()
    ensures { WorkedTexts }
{}
