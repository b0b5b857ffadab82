// The report of the check of a stored code file.

use crate::failure::Failure;
use crate::loaded::Loaded;

pub(crate) fn report(rt: &HostRuntime, file: &str) -> Result<(), Failure> {
    let loaded = Loaded::read(rt, file)?;
    loaded.check()?;
    println!(rt; "passes: {}", loaded.sizes)?;
    Ok(())
}
