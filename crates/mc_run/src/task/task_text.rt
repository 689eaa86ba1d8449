//! The tasks that read nothing and write a text.

ghost use Rattle.std.specs.Prelude.{◌≡◌, ◌≢◌, ◌<◌, IfErr};
ghost use Rattle.mc_bundle.specs.Device.{failures_after};
ghost use Rattle.mc_commands.specs.Failures.{is_write};
ghost use Rattle.mc_run.specs.TaskRuns.{IsTextRun};

use mc_bundle::{Output, write_all};
use mc_commands::RunFault;

/// The program's name and its version, the one of the file VERSION, with a line feed.
pub(crate) const VERSION_LINE: &str = "mcaudit 0.2.0\n";

/// `mcaudit --version` and `mcaudit help`: writes the text, and returns true.
pub(crate) fn text_task<W: Output>(text: &str, output: &mut W) -> Result<bool, RunFault>
    requires failures { W.failed output.old < u64.MAX }
    ensures same { W.borrows output.new ≡ W.borrows output.old }
    ensures run { IsTextRun text.now result (W.written output.old) (W.written output.new) }
    ensures unwritten { IfErr result (λ fault. fault ≢ RunFault.Write → output.new ≡ output.old) }
    ensures write_failures { W.failed output.new ≡ failures_after is_write result (W.failed output.old) }
{
    match write_all(output, text.as_bytes()) {
        Ok(()) => Ok(true),
        Err(_) => Err(RunFault::Write),
    }
}
