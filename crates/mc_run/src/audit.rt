//! `mcaudit audit`: which flows of a folder's domain are forwarded as they should be, and for each
//! other flow what a packet of it meets, and why.

mod audit_asked;
mod audit_begin;
mod audit_end;
mod audit_explanation;
mod audit_flow;
pub(crate) mod audit_output;
mod audit_right;
mod audit_right_object;
mod audit_shown_by;
mod audit_wrong;
mod audit_wrong_text;
mod audited_domain;
mod flow_status;
pub(crate) mod left_out;
mod reasons;

ghost use Rattle.std.specs.Prelude.{◌≡◌, ◌≢◌, ◌<◌, ◌==◌, ◌&&◌, IfErr, IfOk, IfSome, Err, false, length};
ghost use Rattle.std.specs.String.{string_bytes};
ghost use Rattle.mc_run.specs.AuditPieces.{AreAllFlowsPushed, HasItsMarksAndInterfaces, audited_value};
ghost use Rattle.mc_run.specs.AuditPieces.{audited_without, yes_of};
ghost use Rattle.mc_run.specs.AuditedFiles.{MeansAuditedWhere, left_out};
ghost use Rattle.mc_run.specs.AuditRun.{HasCounts, IsAuditText, IsAudited};
ghost use Rattle.mc_run.specs.AuditClaims.{SaysOfEach, SaysWhichAreRight};
ghost use Rattle.mc_run.specs.AuditExclusions.{AreFoundInWhole};
ghost use Rattle.mc_run.specs.AuditYes.{AuditSaysYes, FilesKeepHeadline};
ghost use Rattle.mc_bundle.specs.Device.{failures_after};
ghost use Rattle.mc_commands.specs.Failures.{is_read, is_write};
ghost use Rattle.mc_commands.specs.Faults.{IsFaultOfAudit};
ghost use Rattle.mc_commands.specs.InputMeaning.{AreRefusedWithout};
ghost use Rattle.mc_commands.specs.RunOutput.{Answers, IsWrittenWhole, WritesPart};

use crate::audit::audit_asked::count_asked;
use crate::audit::audit_begin::begin_lines;
use crate::audit::audit_end::push_end;
use crate::audit::audit_flow::push_flow;
pub use crate::audit::audit_output::{AuditAnswer, AuditCounts};
use crate::audit::audit_output::{AuditOutput, with_counts};
use crate::audit::audited_domain::AuditedDomain;
use crate::audit::flow_status::FlowCounts;
pub use crate::audit::left_out::LeftOut;
use crate::excluded::excluded_marks;
use mc_bundle::Output;
use mc_cert::DistinctTrees;
use mc_cli::AuditOptions;
use mc_commands::{RunFault, RunOutput, write_output};
use mc_files::PieceSource;
use mc_input::{FolderDomain, FolderOptions, read_folder_domain};
use mc_search::InterfacesOfLans;
use mc_text::Memory;
use std::alloc::Global;

/// Appends the lines of each flow of a domain, in order, and counts the flows by their status.
fn push_flows(
    alloc: Global,
    audited: &AuditedDomain<'_>,
    text: &mut String,
) -> Result<FlowCounts, Memory>
    requires valid { HasItsMarksAndInterfaces audited.now }
    ensures appended { IfOk result (λ flow_counts. AreAllFlowsPushed audited.now flow_counts
        (string_bytes text.old) (string_bytes text.new)) }
{
    let mut shown_trees = DistinctTrees::new(alloc);
    let mut flow_counts = FlowCounts::none();
    for flow in 0..audited.domain.topology().flows() {
        let flow_status = push_flow(alloc, audited, flow, &mut shown_trees, text)?;
        flow_counts = flow_counts.with(flow_status);
    }
    let _shown_trees = shown_trees.trees();
    Ok(flow_counts)
}

/// Whether all flows of a domain are right, by their counts, and no router is excluded.
fn is_yes(audited: &AuditedDomain<'_>, flow_counts: FlowCounts) -> bool
    ensures { result ≡ ((length audited.now.without.now == 0) && (flow_counts.wrong == 0)) }
{
    audited.without.is_empty() && flow_counts.are_right()
}

/// The text of a domain's audit: its flows, the unlisted sources and groups of the caches, and the
/// verdict, which is no where routers are excluded.
fn audit_all(alloc: Global, audited: &AuditedDomain<'_>) -> Result<AuditOutput, Memory>
    requires valid { HasItsMarksAndInterfaces audited.now }
    ensures text { IfOk result (λ audit. IsAudited (audited_value audited.now) audited.now.options
        audit.run_output.yes (string_bytes audit.run_output.text)) }
    ensures counts { IfOk result (λ audit. HasCounts (audited_value audited.now) audited.now.options
        audit.counts) }
{
    let mut text = begin_lines(alloc, audited)?;
    let flow_counts = push_flows(alloc, audited, &mut text)?;
    let yes = is_yes(audited, flow_counts);
    let asked = count_asked(audited.asked)?;
    push_end(alloc, &mut text, audited, flow_counts, asked, yes)?;
    let counts = AuditCounts {
        unwanted: flow_counts.unwanted,
        asked,
    };
    Ok(AuditOutput {
        run_output: RunOutput { text, yes },
        counts,
    })
}

/// The audit of a domain that was read without what is left out.
fn audit_domain(
    alloc: Global,
    read: &FolderDomain,
    options: AuditOptions,
    left: &LeftOut<'_>,
) -> Result<AuditOutput, Memory>
    ensures text { IfOk result (λ audit.
        IsAudited (audited_without (left_out left.now) read.now) options
        audit.run_output.yes (string_bytes audit.run_output.text)) }
    ensures counts { IfOk result (λ audit. HasCounts (audited_without (left_out left.now) read.now) options
        audit.counts) }
{
    let interfaces = InterfacesOfLans::new(alloc, &read.domain)?;
    let excluded = excluded_marks(alloc, read.domain.topology(), left.without)?;
    let audited = AuditedDomain {
        domain: &read.domain,
        summary: &read.summary,
        asked: &read.asked,
        interfaces: &interfaces,
        without: left.without,
        ignored: left.ignored,
        excluded: &excluded,
        options,
    };
    audit_all(alloc, &audited)
}

/// The audit of the domain of a folder's files, without what is left out.
fn audit_files<F: PieceSource>(
    alloc: Global,
    files: &mut F,
    options: AuditOptions,
    left: &LeftOut<'_>,
) -> Result<AuditOutput, RunFault>
    requires failures { F.failed files.old < u64.MAX }
    ensures same { F.borrows files.new ≡ F.borrows files.old }
    ensures text { IfOk result (λ audit. IfSome (F.contents files.old) (λ files.
        IsAuditText options (left_out left.now) files audit.run_output.yes
        (string_bytes audit.run_output.text))) }
    ensures counts { IfOk result (λ audit. IfSome (F.contents files.old)
        (MeansAuditedWhere options (left_out left.now)
        (λ audited. HasCounts audited options audit.counts))) }
    ensures refused { IfErr result (λ fault. IfSome (F.contents files.old) (λ files.
        AreRefusedWithout (left_out left.now).routers files fault)) }
    ensures no_write { IfErr result (λ fault. is_write fault ≡ false) }
    ensures faults { IfErr result IsFaultOfAudit }
    ensures failures { F.failed files.new ≡ failures_after is_read result (F.failed files.old) }
{
    let Ok(ignored) = Vec::from_slice(alloc, left.ignored) else {
        return Err(RunFault::Memory);
    };
    let folder_options = FolderOptions {
        all: options.unlisted,
        ignored,
    };
    let read = read_folder_domain(alloc, files, left.without, folder_options)?;
    let audit = audit_domain(alloc, &read, options, left);
    drop(read);
    match audit {
        Ok(audit) => Ok(audit),
        Err(_) => Err(RunFault::Memory),
    }
}

/// Audits the domain of a folder's files and writes a text on each of its flows.
///
/// It reads the files, each at most 16,777,216 bytes, and checks each before it opens the next one.
/// Tables are read piece by piece; of a cache it keeps the rows of listed flows, and a summary that
/// explains how their packets are forwarded. Where hosts ask for what no flow answers, it reads tables and
/// lists once more. Then it examines each flow of the topology, and checks each certificate list that
/// results.
///
/// For each flow, in order, it writes the checker's yes with the number of copies and the LANs that
/// want the flow, or that the flow is wrong, what a packet of it meets, from which TTL on packets show
/// that, and why. After the flows come the unlisted sources and groups of the caches, what hosts ask for
/// and no flow answers, and the numbers of right, wrong and unknown flows, and last `verdict yes` or
/// `verdict no`. The options add lines, leave some away, or choose JSON, one object a line.
///
/// The routers of the names `left.without` are excluded: their files aren't opened, their tables aren't
/// known, and the verdict is no, since a yes is only given for a whole domain. Of a flow without a finding,
/// and of one of which a LAN is missed where such a router may send, it isn't known whether it is right.
///
/// It returns whether all flows are right and no router is excluded, how many flows have no finding and are
/// wanted by no LAN, and how many wants of LANs no flow answers. Wants of the ranges `left.ignored` are left
/// aside.
///
/// # Errors
///
/// The first fault of the files or of the names `left.without`; `Read` or `Write` if a device fails, and
/// `Memory` if an allocation fails. Only `Write` may leave a part of the text written.
pub fn run_audit<F: PieceSource, W: Output>(
    alloc: Global,
    files: &mut F,
    options: AuditOptions,
    left: &LeftOut<'_>,
    output: &mut W,
) -> Result<AuditAnswer, RunFault>
    requires reads { F.failed files.old < u64.MAX }
    requires writes { W.failed output.old < u64.MAX }
    ensures files_same { F.borrows files.new ≡ F.borrows files.old }
    ensures output_same { W.borrows output.new ≡ W.borrows output.old }
    // The answer is right, with some text, or is the first fault of the files.
    ensures answer { IfSome (F.contents files.old) (λ contents.
        Answers (IsAuditText options (left_out left.now))
        (AreRefusedWithout (left_out left.now).routers) contents (yes_of result)) }
    // After an answer, its text is written whole.
    ensures written { IsWrittenWhole (IsAuditText options (left_out left.now))
        (F.contents files.old) (yes_of result) (W.written output.old) (W.written output.new) }
    // The text says of a flow that it is wrong exactly where the flow isn't right, with routers excluded
    // that it is wrong or unknown, and ends with yes exactly where every listed flow is right and no
    // router is excluded.
    ensures right { IsWrittenWhole (SaysWhichAreRight options (left_out left.now))
        (F.contents files.old) (yes_of result) (W.written output.old) (W.written output.new) }
    // The answer has the number of flows without a finding that are wanted by no LAN, and that of the wants
    // of LANs that no flow answers.
    ensures counts { IfOk result (λ answer. IfSome (F.contents files.old)
        (MeansAuditedWhere options (left_out left.now)
        (λ audited. HasCounts audited options answer.counts))) }
    // After a `Write` fault, a proper part of a right text was written, from its front.
    ensures part { result ≡ Err RunFault.Write → IfSome (F.contents files.old) (λ contents.
        WritesPart (IsAuditText options (left_out left.now)) contents
        (W.written output.old) (W.written output.new)) }
    // The lines of each flow, in a whole text or in a part, are true: a yes of the checker, for which
    // the headline holds, or the finding of a run of the flow's net, from which TTL on each complete run
    // without loss has it, and what explains it.
    ensures each { IsWrittenWhole (SaysOfEach options (left_out left.now))
        (F.contents files.old) (yes_of result) (W.written output.old) (W.written output.new) }
    ensures each_in_part { result ≡ Err RunFault.Write → IfSome (F.contents files.old) (λ contents.
        WritesPart (SaysOfEach options (left_out left.now)) contents
        (W.written output.old) (W.written output.new)) }
    // A second copy on a LAN, or a copy that leaves the domain, that is found with routers excluded is a
    // fault whatever these routers have: the flow isn't right either in the domain with them.
    ensures excluded { IsWrittenWhole (AreFoundInWhole options (left_out left.now))
        (F.contents files.old) (yes_of result) (W.written output.old) (W.written output.new) }
    // After any fault but `Write`, nothing was written.
    ensures unwritten { IfErr result (λ fault. fault ≢ RunFault.Write → output.new ≡ output.old) }
    // A fault is one of a folder's files or of the excluded names, a device's, or `Memory`.
    ensures faults { IfErr result IsFaultOfAudit }
    // `Read` and `Write` come only where a call of that device failed.
    ensures read_failures { F.failed files.new ≡ failures_after is_read result (F.failed files.old) }
    ensures write_failures { W.failed output.new ≡ failures_after is_write result (W.failed output.old) }
    // After a yes, the headline holds for what was read.
    ensures headline { AuditSaysYes (yes_of result) (W.written output.old) (W.written output.new)
        → IfSome (F.contents files.old) FilesKeepHeadline }
{
    let (run_output, counts) = AuditOutput::parts(audit_files(alloc, files, options, left));
    with_counts(write_output(run_output, output), counts)
}
