// The laws of this crate that are proved above its definitions.
ghost use Rattle.code.specs.Cases.{CheckCases};
ghost use Rattle.code.specs.CheckedCode.{code_in};
ghost use Rattle.code.specs.WellFormed.{JumpsReach, PassingIsWellFormed, WellFormed};

use crate::checked::Checked;

// The check passes just the code that is well formed.
pub fn passing_is_well_formed()
    ensures { PassingIsWellFormed }
{}

// The worked cases of the check.
pub fn check_cases_hold()
    ensures { CheckCases }
{}

// Checked code is well formed.
pub fn checked_is_well_formed(code: &Checked<'_>)
    ensures { WellFormed (code_in code.now) }
{
    let _ = code;
}

// In well-formed code a jump reaches a place where the stack is empty.
pub fn jumps_reach()
    ensures { JumpsReach }
{}
