//! The output of a run, and writing it.

ghost use Rattle.std.specs.Prelude.{◌≡◌, ◌≢◌, ◌<◌, ℕ, IfErr, false};
ghost use Rattle.mc_bundle.specs.Device.{failures_after};
ghost use Rattle.mc_commands.specs.Failures.{is_read, is_write};
ghost use Rattle.mc_commands.specs.RunOutput.{IsOutputWritten};

use crate::fault::RunFault;
use mc_bundle::{Output, write_all};

/// The output of a run: a text, and whether its answer is yes.
#[derive(Drop)]
pub struct RunOutput {
    /// The text.
    pub text: String,
    /// Whether the answer is yes.
    pub yes: bool,
}

/// Writes the text, and returns whether the answer is yes.
///
/// # Errors
///
/// The fault that is in place of the output, before anything is written; `Write` if the output fails, or
/// takes no byte of a nonempty text, after a part of the text was written, from its front.
pub fn write_output<W: Output>(
    run_output: Result<RunOutput, RunFault>,
    output: &mut W,
) -> Result<bool, RunFault>
    requires writes { W.failed output.old < u64.MAX }
    requires no_write { IfErr run_output (λ fault. is_write fault ≡ false) }
    ensures same { W.borrows output.new ≡ W.borrows output.old }
    ensures ended { IsOutputWritten run_output result (W.written output.old) (W.written output.new) }
    ensures unwritten { IfErr result (λ fault. fault ≢ RunFault.Write → output.new ≡ output.old) }
    // `Read` is returned exactly where it is the fault in place of the output.
    ensures reads { (before : ℕ) → failures_after is_read run_output before
        ≡ failures_after is_read result before }
    ensures failures { W.failed output.new ≡ failures_after is_write result (W.failed output.old) }
{
    let run_output = run_output?;
    match write_all(output, run_output.text.as_bytes()) {
        Ok(()) => Ok(run_output.yes),
        Err(_) => Err(RunFault::Write),
    }
}
