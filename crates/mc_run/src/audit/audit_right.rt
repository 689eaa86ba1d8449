//! Writes the lines of a flow that is right, as text or in JSON.

ghost use Rattle.std.specs.Prelude.{◌≡◌, ◌<◌, ◌++◌, All, IfOk, OnOk, length};
ghost use Rattle.std.specs.Result.{IsOkAnd};
ghost use Rattle.std.specs.String.{string_bytes};
ghost use Rattle.mc_theory.specs.Certificates.{IsAccepted};
ghost use Rattle.mc_theory.specs.Headline.{HeadlineHolds};
ghost use Rattle.mc_forward.specs.Domains.{net_of};
ghost use Rattle.mc_check.specs.declared.verdict.Verdict.TheVariants.{Yes as is_yes};
ghost use Rattle.mc_run.specs.AuditPieces.{lans_wanting_flow, right_flow_lines_of, right_lines_of};
ghost use Rattle.mc_run.specs.AuditPieces.{shown_trees_with_right, status_of_right_flow};
ghost use Rattle.mc_run.specs.AuditText.{right_line};

use crate::audit::audit_right_object::push_right_objects;
use crate::audit::audited_domain::AuditedDomain;
use crate::audit::flow_status::{FlowStatus, MAX_FLOWS};
use mc_cert::{DistinctTrees, Reached};
use mc_check::{Verdict, check_flow};
use mc_commands::{FlowWords, push_flow_verdict};
use mc_forward::FlowView;
use mc_shown::{lans_wanting, push_wanted};
use mc_text::Memory;
use mc_topology::{Flow, LanNo, Topology};
use std::alloc::Global;

/// Writes the checker's yes with the number of copies; without the whole domain, that no fault is known.
fn push_certified_line(
    text: &mut String,
    topology: &Topology,
    flow: &Flow,
    copies: u32,
    whole: bool,
) -> Result<(), Memory>
    ensures { OnOk result (string_bytes text.new ≡
        string_bytes text.old ++ right_line whole topology.now flow.now copies) }
{
    if whole {
        return push_flow_verdict(text, topology, flow, Verdict::Yes { copies });
    }
    let words = FlowWords { flow };
    writeln!(text, "{words} no fault known copies {copies}").map_err(|_| Memory)
}

/// Writes the line of a flow that is right, and the LANs that want it.
fn push_right_lines(
    text: &mut String,
    audited: &AuditedDomain<'_>,
    flow: u32,
    copies: u32,
    wanted: &[LanNo],
) -> Result<(), Memory>
    requires known { flow < length audited.now.domain.now.topology.flows }
    ensures lines { OnOk result (string_bytes text.new ≡ string_bytes text.old
        ++ right_lines_of audited.now flow copies wanted.now) }
{
    let view = FlowView::new(audited.domain, flow);
    let listed = view.flow();
    let topology = audited.domain.topology();
    let whole = audited.without.is_empty();
    push_certified_line(text, topology, &listed, copies, whole)?;
    push_wanted(text, topology, wanted)
}

/// The LANs that want a flow.
fn lans_wanting_flow(
    alloc: Global,
    audited: &AuditedDomain<'_>,
    flow: u32,
) -> Result<Vec<LanNo>, Memory>
    requires known { flow < length audited.now.domain.now.topology.flows }
    ensures lans { IfOk result (λ lans. lans.items ≡ lans_wanting_flow audited.now flow) }
{
    let view = FlowView::new(audited.domain, flow);
    let lans = lans_wanting(alloc, &view)?;
    Ok(lans)
}

/// Writes the lines of a right flow with these entries, as text or in JSON; nothing where only faults
/// are asked for and the flow is wanted. Returns the flow's status.
fn push_right(
    alloc: Global,
    audited: &AuditedDomain<'_>,
    flow: u32,
    entries: &[Reached],
    copies: u32,
    shown_trees: &mut DistinctTrees,
    text: &mut String,
) -> Result<FlowStatus, Memory>
    requires flow { flow < length audited.now.domain.now.topology.flows }
    requires copies { copies ≡ length entries.now }
    requires room { length shown_trees.old < MAX_FLOWS }
    ensures flow_status { IfOk result (λ flow_status.
        flow_status ≡ status_of_right_flow audited.now flow) }
    ensures shown_trees { OnOk result
        (shown_trees.new ≡ shown_trees_with_right audited.now shown_trees.old flow entries.now) }
    ensures lines { OnOk result (string_bytes text.new ≡ string_bytes text.old
        ++ right_flow_lines_of audited.now shown_trees.old flow entries.now) }
{
    let options = audited.options;
    let wanted = lans_wanting_flow(alloc, audited, flow)?;
    let flow_status = FlowStatus::of_right(audited.without.is_empty(), &wanted);
    if options.faults && !wanted.is_empty() {
        return Ok(flow_status);
    }
    if options.json {
        push_right_objects(alloc, text, audited, flow, entries, &wanted, shown_trees)?;
    } else {
        push_right_lines(text, audited, flow, copies, &wanted)?;
    }
    Ok(flow_status)
}

/// Writes the lines of a right flow, by the checker's verdict, which is yes for an accepted list.
fn push_with_verdict(
    alloc: Global,
    audited: &AuditedDomain<'_>,
    flow: u32,
    entries: &[Reached],
    answer: Result<Verdict, Memory>,
    shown_trees: &mut DistinctTrees,
    text: &mut String,
) -> Result<FlowStatus, Memory>
    requires flow { flow < length audited.now.domain.now.topology.flows }
    requires room { length shown_trees.old < MAX_FLOWS }
    requires accepted { IfOk answer (λ verdict. verdict ≡ is_yes (length entries.now)) }
    ensures answered { OnOk result (IsOkAnd answer (λ verdict. verdict ≡ is_yes (length entries.now))) }
    ensures flow_status { IfOk result (λ flow_status.
        flow_status ≡ status_of_right_flow audited.now flow) }
    ensures shown_trees { OnOk result
        (shown_trees.new ≡ shown_trees_with_right audited.now shown_trees.old flow entries.now) }
    ensures lines { OnOk result (string_bytes text.new ≡ string_bytes text.old
        ++ right_flow_lines_of audited.now shown_trees.old flow entries.now) }
{
    match answer {
        Ok(Verdict::Yes { copies }) => {
            push_right(alloc, audited, flow, entries, copies, shown_trees, text)
        }
        Ok(Verdict::No(_)) => Ok(FlowStatus::of_wrong(true)),
        Err(_) => Err(Memory),
    }
}

/// Checks the list of a right flow, and writes the flow's lines. Returns the flow's status.
pub(crate) fn push_checked(
    alloc: Global,
    audited: &AuditedDomain<'_>,
    flow: u32,
    entries: &[Reached],
    shown_trees: &mut DistinctTrees,
    text: &mut String,
) -> Result<FlowStatus, Memory>
    requires flow { flow < length audited.now.domain.now.topology.flows }
    requires room { length shown_trees.old < MAX_FLOWS }
    requires lans { All (λ entry. entry.lan < length audited.now.domain.now.topology.lans) entries.now }
    requires accepted { IsAccepted (net_of audited.now.domain.now flow) entries.now }
    ensures headline { OnOk result
        (HeadlineHolds (net_of audited.now.domain.now flow) (length entries.now)) }
    ensures flow_status { IfOk result (λ flow_status.
        flow_status ≡ status_of_right_flow audited.now flow) }
    ensures shown_trees { OnOk result
        (shown_trees.new ≡ shown_trees_with_right audited.now shown_trees.old flow entries.now) }
    ensures lines { OnOk result (string_bytes text.new ≡ string_bytes text.old
        ++ right_flow_lines_of audited.now shown_trees.old flow entries.now) }
{
    let answer = check_flow(alloc, audited.domain, flow, entries);
    push_with_verdict(alloc, audited, flow, entries, answer, shown_trees, text)
}
