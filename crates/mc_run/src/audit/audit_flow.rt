//! Writes the lines of one flow in an audit's text.

ghost use Rattle.std.specs.Prelude.{◌≡◌, ◌<◌, IfOk, length};
ghost use Rattle.std.specs.String.{string_bytes};
ghost use Rattle.mc_maker.specs.ExaminedFlights.{HasExaminedFlights, without_flights};
ghost use Rattle.mc_maker.specs.declared.examined_flights.ExaminedFlights.TheVariants.{FoundAtTtl255};
ghost use Rattle.mc_maker.specs.declared.examined_flights.ExaminedFlights.TheVariants.{FoundAtFlowTtl};
ghost use Rattle.mc_run.specs.AuditPieces.{HasItsMarksAndInterfaces, IsFindingPushed, IsFlowPushed};
ghost use Rattle.mc_run.specs.AuditPieces.{audited_value};
ghost use Rattle.mc_run.specs.AuditExplanation.{ArePrintedCauses, is_remedy as says_remedy};
ghost use Rattle.mc_run.specs.AuditExplanation.{without_remedies};
ghost use Rattle.mc_run.specs.AuditedFiles.{is_whole};
ghost use Rattle.mc_commands.specs.MakeRun.{IsExamined};

use crate::audit::audit_right::push_checked;
use crate::audit::audit_wrong::push_wrong;
use crate::audit::audited_domain::AuditedDomain;
use crate::audit::flow_status::{FlowStatus, MAX_FLOWS};
use crate::audit::reasons::{Reasons, behind_if_stray, search_if_missed, shown_by};
use mc_cert::DistinctTrees;
use mc_explain::{Cause, ShownBy, explain};
use mc_forward::FlowView;
use mc_maker::{ExaminedFlights, examine_to_end};
use mc_replay::FinishedTravel;
use mc_text::Memory;
use std::alloc::Global;

/// Whether a cause names an oif to remove.
fn is_remedy(cause: &Cause) -> bool
    ensures { result ≡ says_remedy cause.now }
{
    matches!(cause, Cause::TakeOut { .. })
}

/// The causes; without remedies, unless the whole domain is known.
fn without_remedies(whole: bool, causes: Vec<Cause>) -> Vec<Cause>
    ensures { result.items ≡ without_remedies whole causes.items }
{
    let mut causes = causes;
    if !whole {
        causes.retain(|cause| !is_remedy(cause));
    }
    causes
}

/// The causes that explain a fault, by the flights of its packets.
fn causes_to_print(
    alloc: Global,
    audited: &AuditedDomain<'_>,
    flow: u32,
    flights: &ExaminedFlights<'_>,
) -> Result<Vec<Cause>, Memory>
    requires flow { flow < length audited.now.domain.now.topology.flows }
    requires flights { HasExaminedFlights audited.now.domain.now flow flights.now }
    ensures causes { IfOk result (λ causes. ArePrintedCauses (is_whole (audited_value audited.now))
        audited.now.domain.now flow flights.now causes.items) }
{
    let causes = explain(alloc, audited.domain, flow, flights)?;
    Ok(without_remedies(audited.without.is_empty(), causes))
}

/// Writes what is found of a packet with TTL 255, and why. Returns the flow's status.
fn push_found_at_255(
    alloc: Global,
    audited: &AuditedDomain<'_>,
    flow: u32,
    flights: &ExaminedFlights<'_>,
    ended: &FinishedTravel<'_>,
    text: &mut String,
) -> Result<FlowStatus, Memory>
    requires flow { flow < length audited.now.domain.now.topology.flows }
    requires ready { HasItsMarksAndInterfaces audited.now }
    requires flights { HasExaminedFlights audited.now.domain.now flow flights.now }
    requires examined { IsExamined audited.now.domain.now flow
        (without_flights audited.now.domain.now flow flights.now) }
    requires found { flights.now ≡ FoundAtTtl255 ended.now }
    ensures ok { IfOk result (λ flow_status. IsFindingPushed audited.now flow flow_status
        (string_bytes text.old) (string_bytes text.new)) }
{
    let causes = causes_to_print(alloc, audited, flow, flights)?;
    let search = search_if_missed(alloc, audited, flow, ended)?;
    let behind = behind_if_stray(alloc, audited, flow, ended.travel.finding)?;
    let shown_by = shown_by(alloc, audited, flow, ended)?;
    let reasons = Reasons {
        causes,
        search,
        behind,
        shown_by,
    };
    push_wrong(alloc, audited, flow, ended, 255, &reasons, text)
}

/// Writes what is found of a packet with the flow's TTL, where one with TTL 255 shows no fault, and why.
/// Returns the flow's status.
fn push_found_at_flow_ttl(
    alloc: Global,
    audited: &AuditedDomain<'_>,
    flow: u32,
    flights: &ExaminedFlights<'_>,
    greatest: &FinishedTravel<'_>,
    least: &FinishedTravel<'_>,
    text: &mut String,
) -> Result<FlowStatus, Memory>
    requires flow { flow < length audited.now.domain.now.topology.flows }
    requires flights { HasExaminedFlights audited.now.domain.now flow flights.now }
    requires examined { IsExamined audited.now.domain.now flow
        (without_flights audited.now.domain.now flow flights.now) }
    requires found { flights.now ≡ FoundAtFlowTtl greatest.now least.now }
    ensures ok { IfOk result (λ flow_status. IsFindingPushed audited.now flow flow_status
        (string_bytes text.old) (string_bytes text.new)) }
{
    let view = FlowView::new(audited.domain, flow);
    let ttl = view.ttl();
    let causes = causes_to_print(alloc, audited, flow, flights)?;
    let reasons = Reasons {
        causes,
        search: None,
        behind: None,
        shown_by: ShownBy {
            from: None,
            at_flow_ttl: None,
        },
    };
    push_wrong(alloc, audited, flow, least, ttl, &reasons, text)
}

/// Writes the lines of a flow that was examined, and returns the flow's status.
fn push_examined(
    alloc: Global,
    audited: &AuditedDomain<'_>,
    flow: u32,
    flights: &ExaminedFlights<'_>,
    shown_trees: &mut DistinctTrees,
    text: &mut String,
) -> Result<FlowStatus, Memory>
    requires flow { flow < length audited.now.domain.now.topology.flows }
    requires ready { HasItsMarksAndInterfaces audited.now }
    requires room { length shown_trees.old < MAX_FLOWS }
    requires flights { HasExaminedFlights audited.now.domain.now flow flights.now }
    requires examined { IsExamined audited.now.domain.now flow
        (without_flights audited.now.domain.now flow flights.now) }
    ensures ok { IfOk result (λ flow_status. IsFlowPushed (audited_value audited.now) audited.now.options
        flow flow_status shown_trees.old shown_trees.new (string_bytes text.old) (string_bytes text.new)) }
{
    match flights {
        ExaminedFlights::Certified(entries) => {
            push_checked(alloc, audited, flow, entries, shown_trees, text)
        }
        ExaminedFlights::FoundAtTtl255(ended) => {
            push_found_at_255(alloc, audited, flow, flights, ended, text)
        }
        ExaminedFlights::FoundAtFlowTtl { greatest, least } => {
            push_found_at_flow_ttl(alloc, audited, flow, flights, greatest, least, text)
        }
    }
}

/// Examines a flow of a domain and writes its lines, after those of flows whose trees were printed.
/// Returns the flow's status.
pub(crate) fn push_flow(
    alloc: Global,
    audited: &AuditedDomain<'_>,
    flow: u32,
    shown_trees: &mut DistinctTrees,
    text: &mut String,
) -> Result<FlowStatus, Memory>
    requires flow { flow < length audited.now.domain.now.topology.flows }
    requires ready { HasItsMarksAndInterfaces audited.now }
    requires room { length shown_trees.old < MAX_FLOWS }
    ensures ok { IfOk result (λ flow_status. IsFlowPushed (audited_value audited.now) audited.now.options
        flow flow_status shown_trees.old shown_trees.new (string_bytes text.old) (string_bytes text.new)) }
{
    let flights = examine_to_end(alloc, audited.domain, flow)?;
    push_examined(alloc, audited, flow, &flights, shown_trees, text)
}
