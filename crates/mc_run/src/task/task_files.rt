//! The tasks that read the files of a folder, each with its own arguments.

ghost use Rattle.std.specs.Prelude.{◌≡◌, ◌≢◌, ◌<◌, IfErr};
ghost use Rattle.mc_bundle.specs.Device.{failures_after};
ghost use Rattle.mc_commands.specs.Failures.{is_read, is_write};
ghost use Rattle.mc_run.specs.TaskRuns.{IsAuditRun, IsPackRun, enough_of, is_enough};

use crate::audit::audit_output::{AuditAnswer, AuditCounts};
use crate::audit::left_out::LeftOut;
use crate::audit::run_audit;
use mc_bundle::Output;
use mc_cli::AuditWords;
use mc_commands::{RunFault, run_pack};
use mc_files::PieceSource;
use std::alloc::Global;

/// `mcaudit pack`, which returns true once the bundle is written.
pub(crate) fn pack_task<F: PieceSource, W: Output>(
    alloc: Global,
    certificate: bool,
    files: &mut F,
    output: &mut W,
) -> Result<bool, RunFault>
    requires reads { F.failed files.old < u64.MAX }
    requires writes { W.failed output.old < u64.MAX }
    ensures files_same { F.borrows files.new ≡ F.borrows files.old }
    ensures output_same { W.borrows output.new ≡ W.borrows output.old }
    ensures run { IsPackRun certificate (F.contents files.old) result
        (W.written output.old) (W.written output.new) }
    ensures unwritten { IfErr result (λ fault. fault ≢ RunFault.Write → output.new ≡ output.old) }
    ensures read_failures { F.failed files.new ≡ failures_after is_read result (F.failed files.old) }
    ensures write_failures { W.failed output.new ≡ failures_after is_write result (W.failed output.old) }
{
    match run_pack(alloc, files, certificate, output) {
        Ok(()) => Ok(true),
        Err(fault) => Err(fault),
    }
}

/// Whether an audit's answer is enough: it is yes and, with `strict`, no right flow is wanted by nobody,
/// and a flow answers each want.
fn is_enough(answer: AuditAnswer, strict: bool) -> bool
    ensures { result ≡ is_enough strict answer }
{
    let AuditCounts { unwanted, asked } = answer.counts;
    answer.yes && (unwanted == 0 && asked == 0 || !strict)
}

/// Whether an audit's answer is enough, or the audit's fault.
fn enough_of(audited: Result<AuditAnswer, RunFault>, strict: bool) -> Result<bool, RunFault>
    ensures { result ≡ enough_of strict audited }
{
    match audited {
        Ok(answer) => Ok(is_enough(answer, strict)),
        Err(fault) => Err(fault),
    }
}

/// `mcaudit audit`, which returns whether the audit's answer is enough.
pub(crate) fn audit_task<F: PieceSource, W: Output>(
    alloc: Global,
    words: &AuditWords<'_>,
    files: &mut F,
    output: &mut W,
) -> Result<bool, RunFault>
    requires reads { F.failed files.old < u64.MAX }
    requires writes { W.failed output.old < u64.MAX }
    ensures files_same { F.borrows files.new ≡ F.borrows files.old }
    ensures output_same { W.borrows output.new ≡ W.borrows output.old }
    ensures run { IsAuditRun words.now (F.contents files.old) result
        (W.written output.old) (W.written output.new) }
    ensures unwritten { IfErr result (λ fault. fault ≢ RunFault.Write → output.new ≡ output.old) }
    ensures read_failures { F.failed files.new ≡ failures_after is_read result (F.failed files.old) }
    ensures write_failures { W.failed output.new ≡ failures_after is_write result (W.failed output.old) }
{
    let left = LeftOut {
        without: &words.without,
        ignored: &words.ignored,
    };
    let audited = run_audit(alloc, files, words.options, &left, output);
    enough_of(audited, words.options.strict)
}
