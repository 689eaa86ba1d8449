//! The tasks that read the input, each with its own arguments.

ghost use Rattle.std.specs.Prelude.{◌≡◌, ◌≢◌, ◌<◌, IfErr};
ghost use Rattle.mc_bundle.specs.Device.{failures_after};
ghost use Rattle.mc_commands.specs.Failures.{is_read, is_write};
ghost use Rattle.mc_run.specs.TaskRuns.{IsCheckRun, IsMakeRun, IsReplayRun, IsWantsRun};

use mc_bundle::{Input, Output};
use mc_commands::{RunFault, run_check, run_make, run_replay, run_wants};
use mc_replay::{First, Last};
use mc_text::Addr;
use std::alloc::Global;

/// `mcaudit wants`.
pub(crate) fn wants_task<R: Input, W: Output>(
    alloc: Global,
    group: Addr,
    source: Addr,
    input: &mut R,
    output: &mut W,
) -> Result<bool, RunFault>
    requires reads { R.failed input.old < u64.MAX }
    requires writes { W.failed output.old < u64.MAX }
    ensures input_same { R.borrows input.new ≡ R.borrows input.old }
    ensures output_same { W.borrows output.new ≡ W.borrows output.old }
    ensures run { IsWantsRun group source (R.remaining input.old) (R.remaining input.new) result
        (W.written output.old) (W.written output.new) }
    ensures unwritten { IfErr result (λ fault. fault ≢ RunFault.Write → output.new ≡ output.old) }
    ensures read_failures { R.failed input.new ≡ failures_after is_read result (R.failed input.old) }
    ensures write_failures { W.failed output.new ≡ failures_after is_write result (W.failed output.old) }
{
    run_wants(alloc, group, source, input, output)
}

/// `mcaudit check`.
pub(crate) fn check_task<R: Input, W: Output>(
    alloc: Global,
    input: &mut R,
    output: &mut W,
) -> Result<bool, RunFault>
    requires reads { R.failed input.old < u64.MAX }
    requires writes { W.failed output.old < u64.MAX }
    ensures input_same { R.borrows input.new ≡ R.borrows input.old }
    ensures output_same { W.borrows output.new ≡ W.borrows output.old }
    ensures run { IsCheckRun (R.remaining input.old) (R.remaining input.new) result
        (W.written output.old) (W.written output.new) }
    ensures unwritten { IfErr result (λ fault. fault ≢ RunFault.Write → output.new ≡ output.old) }
    ensures read_failures { R.failed input.new ≡ failures_after is_read result (R.failed input.old) }
    ensures write_failures { W.failed output.new ≡ failures_after is_write result (W.failed output.old) }
{
    run_check(alloc, input, output)
}

/// `mcaudit make`.
pub(crate) fn make_task<R: Input, W: Output>(
    alloc: Global,
    input: &mut R,
    output: &mut W,
) -> Result<bool, RunFault>
    requires reads { R.failed input.old < u64.MAX }
    requires writes { W.failed output.old < u64.MAX }
    ensures input_same { R.borrows input.new ≡ R.borrows input.old }
    ensures output_same { W.borrows output.new ≡ W.borrows output.old }
    ensures run { IsMakeRun (R.remaining input.old) (R.remaining input.new) result
        (W.written output.old) (W.written output.new) }
    ensures unwritten { IfErr result (λ fault. fault ≢ RunFault.Write → output.new ≡ output.old) }
    ensures read_failures { R.failed input.new ≡ failures_after is_read result (R.failed input.old) }
    ensures write_failures { W.failed output.new ≡ failures_after is_write result (W.failed output.old) }
{
    run_make(alloc, input, output)
}

/// `mcaudit replay`, which always handles the last waiting copy next, with `last`, or else the first.
pub(crate) fn replay_task<R: Input, W: Output>(
    alloc: Global,
    flow: u32,
    ttl: u8,
    last: bool,
    input: &mut R,
    output: &mut W,
) -> Result<bool, RunFault>
    requires ttl { 0 < ttl }
    requires reads { R.failed input.old < u64.MAX }
    requires writes { W.failed output.old < u64.MAX }
    ensures input_same { R.borrows input.new ≡ R.borrows input.old }
    ensures output_same { W.borrows output.new ≡ W.borrows output.old }
    ensures run { IsReplayRun flow ttl last (R.remaining input.old) (R.remaining input.new) result
        (W.written output.old) (W.written output.new) }
    ensures unwritten { IfErr result (λ fault. fault ≢ RunFault.Write → output.new ≡ output.old) }
    ensures read_failures { R.failed input.new ≡ failures_after is_read result (R.failed input.old) }
    ensures write_failures { W.failed output.new ≡ failures_after is_write result (W.failed output.old) }
{
    if last {
        run_replay(alloc, flow, ttl, &mut Last, input, output)
    } else {
        run_replay(alloc, flow, ttl, &mut First, input, output)
    }
}
