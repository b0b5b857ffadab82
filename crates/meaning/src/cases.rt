// Worked cases, from the bytes of a text to what its run comes to.

ghost use Rattle.meaning.specs.Cases.{MoreCases, WorkedCases};

// Stands for the theorem that the worked cases hold.
pub fn worked_cases_hold()
    ensures worked { WorkedCases }
    ensures more { MoreCases }
{}
