// A stored code file, read and loaded.

use crate::failure::Failure;
use crate::files;
use code::check::check;
use code::checked::Checked;
use code::refusals::Refusal;
use code::sizes::Sizes;
use code::stored;

// The most operations that code can have.
const MOST: usize = 4_096;

// Code as a file has it, not checked yet.
#[derive(Drop)]
pub struct Loaded {
    pub sizes: Sizes,
    // two arrays, as the check takes them
    pub operations: Vec<u8>,
    pub operands: Vec<u64>,
}

impl Loaded {
    pub(crate) fn read(rt: &HostRuntime, file: &str) -> Result<Loaded, Failure> {
        let bytes = files::read(rt, file)?;
        let mut operations = vec![in rt.alloc(); 0u8; MOST]?;
        let mut operands = vec![in rt.alloc(); 0u64; MOST]?;
        let sizes = stored::load(
            bytes.as_slice(),
            operations.as_mut_slice(),
            operands.as_mut_slice(),
        )?;
        operations.truncate(sizes.operations as usize);
        operands.truncate(sizes.operations as usize);
        Ok(Loaded {
            sizes,
            operations,
            operands,
        })
    }

    // The code, where it passes the check.
    pub(crate) fn check(&self) -> Result<Checked<'_>, Refusal> {
        let mut checked = Checked::lone_halt();
        check(
            &mut checked,
            self.sizes,
            self.operations.as_slice(),
            self.operands.as_slice(),
        )?;
        Ok(checked)
    }
}
