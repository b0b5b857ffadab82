// A run under way.

ghost use Rattle.std.specs.Prelude.{◌≡◌, ◌≤◌, true};
ghost use Rattle.code.specs.CheckedCode.{code_in};
ghost use Rattle.machine.specs.Fits.{stands_at};

use crate::fault::RunFault;
use code::checked::Checked;

// Between two steps: the place where the next one begins, and what was made and posted so far.
#[derive(Drop)]
pub struct Running<'a> {
    pub(crate) code: Checked<'a>,
    pub(crate) place: usize,
    pub(crate) count: u64,
    pub(crate) posted: usize,
    pub(crate) fault: Option<RunFault>,
    ghost stands: { stands_at (code_in code) place ≡ true },
    ghost few: { count ≤ 4000000000 },
}
