// A run that is ready and not under way yet: cells may be entered.

use code::checked::Checked;

#[derive(Drop)]
pub struct Ready<'a> {
    pub(crate) code: Checked<'a>,
}
