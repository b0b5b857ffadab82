// The files that the command line names.

use crate::failure::Failure;
use std::fs;

// The bytes of a file.
pub(crate) fn read(rt: &HostRuntime, file: &str) -> Result<Vec<u8>, Failure> {
    // a `match`: making the refusal may itself fail for want of memory
    match fs::read(rt, file) {
        Ok(bytes) => Ok(bytes),
        Err(_) => Err(Failure::Unreadable(String::from_str(rt.alloc(), file)?)),
    }
}
