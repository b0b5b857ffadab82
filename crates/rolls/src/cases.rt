// Worked cases, shown from the definitions, and tried.

ghost use Rattle.rolls.specs.Cases.{WorkedCases};

// Stands for the theorem that the worked cases hold.
pub fn worked_cases_hold()
    ensures { WorkedCases }
{}
