//! Runs the task that the command line asks for, with the task's own arguments.

mod task_files;
mod task_input;
mod task_text;

ghost use Rattle.std.specs.Prelude.{◌≡◌, ◌≢◌, ◌<◌, IfErr, true, false};
ghost use Rattle.mc_bundle.specs.Device.{failures_after};
ghost use Rattle.mc_cli.specs.Task.{IsAllowed};
ghost use Rattle.mc_commands.specs.Failures.{is_read, is_write};
ghost use Rattle.mc_run.specs.Task.{IfAudit, IfCheck, IfHelp, IfMake, IfPack, IfReplay, IfVersion};
ghost use Rattle.mc_run.specs.Task.{IfWants, reads_files, reads_input};
ghost use Rattle.mc_run.specs.TaskRuns.{IsAuditRun, IsCheckRun, IsMakeRun, IsPackRun, IsReplayRun};
ghost use Rattle.mc_run.specs.TaskRuns.{IsTextRun, IsWantsRun};

use crate::task::task_files::{audit_task, pack_task};
use crate::task::task_input::{check_task, make_task, replay_task, wants_task};
use crate::task::task_text::{VERSION_LINE, text_task};
use mc_bundle::{Input, Output};
use mc_cli::Task;
use mc_commands::RunFault;
use mc_files::PieceSource;
use std::alloc::Global;

/// Runs a task with its own arguments. `wants`, `check`, `make` and `replay` read the input; `pack` and
/// `audit` read the files, which have to be those of the task's folder; `help` and `--version` read
/// neither. Returns the answer of the run. For an audit, that is whether its answer is enough: yes, and
/// with `--strict` no right flow that nobody wants. `pack`, `help` and `--version` return true once all is
/// written.
///
/// # Errors
///
/// The fault of the task's run.
pub fn run_task<R: Input, F: PieceSource, W: Output>(
    alloc: Global,
    task: &Task<'_>,
    input: &mut R,
    files: &mut F,
    output: &mut W,
) -> Result<bool, RunFault>
    requires allowed { IsAllowed task.now }
    requires reads { R.failed input.old < u64.MAX }
    requires reads_files { F.failed files.old < u64.MAX }
    requires writes { W.failed output.old < u64.MAX }
    ensures input_same { R.borrows input.new ≡ R.borrows input.old }
    ensures files_same { F.borrows files.new ≡ F.borrows files.old }
    ensures output_same { W.borrows output.new ≡ W.borrows output.old }
    // What `run_wants` promises, with the group and the source of the task.
    ensures wants { IfWants task.now (λ group source. IsWantsRun group source
        (R.remaining input.old) (R.remaining input.new) result
        (W.written output.old) (W.written output.new)) }
    // What `run_check` promises.
    ensures check { IfCheck task.now (IsCheckRun
        (R.remaining input.old) (R.remaining input.new) result
        (W.written output.old) (W.written output.new)) }
    // What `run_make` promises.
    ensures make { IfMake task.now (IsMakeRun
        (R.remaining input.old) (R.remaining input.new) result
        (W.written output.old) (W.written output.new)) }
    // What `run_replay` promises, with the flow, the time to live and the order of the task.
    ensures replay { IfReplay task.now (λ flow ttl last. IsReplayRun flow ttl last
        (R.remaining input.old) (R.remaining input.new) result
        (W.written output.old) (W.written output.new)) }
    // What `run_pack` promises, with the certificate if the task asks for it, and yes once the bundle is
    // written.
    ensures pack { IfPack task.now (λ certificate. IsPackRun certificate
        (F.contents files.old) result (W.written output.old) (W.written output.new)) }
    // What `run_audit` promises, with the options and the excluded routers of the task, and as the answer
    // whether the audit's answer is enough.
    ensures audit { IfAudit task.now (λ words. IsAuditRun words
        (F.contents files.old) result (W.written output.old) (W.written output.new)) }
    // The text of the help is written.
    ensures help { IfHelp task.now (λ text. IsTextRun text
        result (W.written output.old) (W.written output.new)) }
    // The line with the version is written.
    ensures version { IfVersion task.now (IsTextRun VERSION_LINE.now
        result (W.written output.old) (W.written output.new)) }
    // A task that doesn't read the input, or the files, leaves it as it was.
    ensures input_unread { reads_input task.now ≡ false → input.new ≡ input.old }
    ensures files_unread { reads_files task.now ≡ false → files.new ≡ files.old }
    // After any fault but `Write`, nothing was written.
    ensures unwritten { IfErr result (λ fault. fault ≢ RunFault.Write → output.new ≡ output.old) }
    // `Read` and `Write` come only where a call of that device failed.
    ensures input_failures { reads_input task.now ≡ true
        → R.failed input.new ≡ failures_after is_read result (R.failed input.old) }
    ensures files_failures { reads_files task.now ≡ true
        → F.failed files.new ≡ failures_after is_read result (F.failed files.old) }
    ensures write_failures { W.failed output.new ≡ failures_after is_write result (W.failed output.old) }
{
    match task {
        Task::Wants { group, source } => wants_task(alloc, *group, *source, input, output),
        Task::Check => check_task(alloc, input, output),
        Task::Make => make_task(alloc, input, output),
        Task::Replay { flow, ttl, last } => {
            replay_task(alloc, *flow, *ttl, *last, input, output)
        }
        Task::Pack {
            folder: _,
            certificate,
        } => pack_task(alloc, *certificate, files, output),
        Task::Audit(words) => audit_task(alloc, words, files, output),
        Task::Help(text) => text_task(text, output),
        Task::Version => text_task(VERSION_LINE, output),
    }
}
