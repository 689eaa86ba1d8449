//! Calls that are retried after a failed allocation.

use mc_text::Memory;
use std::test::Fail;

/// The answer of a call, retried if the first try answers `Memory`. The call and that answer are
/// printed, so that a run that fails each allocation in turn sees which are the call's.
pub(crate) fn retry_after_oom<T: Drop, F: Fn() -> Result<T, Memory> + Drop>(
    rt: &impl Print,
    call: F,
) -> Result<T, Fail>
    requires { F.IsAlwaysCallable call }
{
    rt.println("calls")?;
    match call() {
        Ok(answer) => Ok(answer),
        Err(Memory) => {
            rt.println("Memory")?;
            Ok(call()?)
        }
    }
}
