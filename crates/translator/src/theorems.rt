// What is proved of the code of a tree.

ghost use Rattle.translator.specs.Cases.{WorkedCases};
ghost use Rattle.translator.specs.Agreement.{MachineLaw, SimulationLaw, StepLaw};
ghost use Rattle.translator.specs.Accepted.{AcceptedSetting};
ghost use Rattle.translator.specs.Promise.{PromiseLaw};
ghost use Rattle.translator.specs.Simulation.{ExpressionsRun, FlowLaw, PlacingLaw, SizesAreRight, StepsAreRuns};
ghost use Rattle.translator.specs.Limits.{LimitsLaw};
ghost use Rattle.translator.specs.AcceptedCode.{AcceptedCodeLaw};

use figures::kind::Figures;

// The worked cases hold.
pub fn worked_cases_hold()
    ensures { WorkedCases }
{}

// Expressions run, for every kind of figures.
pub fn expressions_run<F: Figures>()
    ensures { ExpressionsRun F.Figures.kind }
{}

// The sizes from which places are counted are those of the code.
pub fn sizes_are_right()
    ensures { SizesAreRight }
{}

// Statements and labels stand where the code has them.
pub fn placing_law_holds<F: Figures>()
    ensures { PlacingLaw F.Figures.kind }
{}

// The flow from statement to statement, and to labels, is the flow of the code.
pub fn flow_law_holds<F: Figures>()
    ensures { FlowLaw F.Figures.kind }
{}

// The steps of statements are the steps of their code.
pub fn step_law_holds<F: Figures>()
    ensures { StepLaw F.Figures.kind }
{}

// Whatever the position, the statement machine's step is the code's step from where the position stands.
pub fn simulation_law_holds<F: Figures>()
    ensures { SimulationLaw F.Figures.kind }
{}

// In code that passes the check, the machine's own step is the run that the laws above speak of.
pub fn steps_are_runs<F: Figures>()
    ensures { StepsAreRuns F.Figures.kind }
{}

// In code that passes the check, the stack machine's step agrees with the statement machine's, whatever the position.
pub fn machine_law_holds<F: Figures>()
    ensures { MachineLaw F.Figures.kind }
{}

// The words of an accepted text are too few for too much code, and its numbers, places and lists fit the operands.
pub fn limits_law_holds()
    ensures { LimitsLaw }
{}

// Every accepted text gives the setting that the laws of steps ask for.
pub fn accepted_texts_are_set<F: Figures>()
    ensures { AcceptedSetting F.Figures.kind }
{}

// The code of an accepted text passes the check.
pub fn accepted_code_passes()
    ensures { AcceptedCodeLaw }
{}

// A run of an accepted text's code is the statement machine's run of the text, whatever calls it meets.
pub fn promise_law_holds<F: Figures>()
    ensures { PromiseLaw F.Figures.kind }
{}
