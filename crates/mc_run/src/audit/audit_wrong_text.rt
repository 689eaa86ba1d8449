//! Writes as text the lines of a flow with a finding: what its packet meets, why, and the packet's travel.

ghost use Rattle.std.specs.Prelude.{◌≡◌, ◌<◌, ◌++◌, OnOk, length};
ghost use Rattle.std.specs.String.{string_bytes};
ghost use Rattle.mc_explain.specs.ExplanationValues.{explanation_value};
ghost use Rattle.mc_run.specs.AuditPieces.{wrong_lines_of};
ghost use Rattle.mc_run.specs.AuditText.{events_if_shown, found_flow_line, known_word};

use crate::audit::audit_explanation::push_explanation;
use crate::audit::audit_shown_by::push_shown_by;
use crate::audit::audited_domain::AuditedDomain;
use mc_commands::{FlowWords, push_events};
use mc_explain::{Certainty, Explanation};
use mc_forward::FlowView;
use mc_replay::{Finding, Travel};
use mc_text::Memory;
use mc_topology::{Flow, Topology};
use std::alloc::Global;

/// The word for a flow with a finding: that it is wrong, if that is known.
fn known_word(known: bool) -> &'static str
    ensures { result.now ≡ known_word known }
{
    if known { "wrong" } else { "unknown" }
}

/// Writes the line of a flow with a finding.
fn push_found_flow(
    text: &mut String,
    topology: &Topology,
    flow: &Flow,
    known: bool,
    finding: Finding,
) -> Result<(), Memory>
    ensures { OnOk result (string_bytes text.new ≡
        string_bytes text.old ++ found_flow_line topology.now flow.now known finding) }
{
    let words = FlowWords { flow };
    let known = known_word(known);
    let finding = finding.shown(topology);
    writeln!(text, "{words} {known}: {finding}")?;
    Ok(())
}

/// Writes the events of a travel, if travels are to be printed.
fn push_travel(
    text: &mut String,
    topology: &Topology,
    travels: bool,
    travel: &Travel,
) -> Result<(), Memory>
    ensures { OnOk result (string_bytes text.new ≡
        string_bytes text.old ++ events_if_shown travels topology.now travel.now) }
{
    if travels {
        push_events(text, topology, &travel.events)?;
    }
    Ok(())
}

/// Writes that a flow is wrong, or unknown, by what its packet meets, why, and the packet's travel, if
/// travels are to be printed.
pub(crate) fn push_wrong_lines(
    alloc: Global,
    text: &mut String,
    audited: &AuditedDomain<'_>,
    flow: u32,
    travel: &Travel,
    explanation: &Explanation<'_>,
) -> Result<(), Memory>
    requires flow { flow < length audited.now.domain.now.topology.flows }
    ensures added { OnOk result (string_bytes text.new ≡ string_bytes text.old
        ++ wrong_lines_of audited.now flow travel.now (explanation_value explanation.now)) }
{
    let view = FlowView::new(audited.domain, flow);
    let listed = view.flow();
    let topology = audited.domain.topology();
    let Certainty { known, shown_by } = explanation.certainty;
    push_found_flow(text, topology, &listed, known, travel.finding)?;
    push_shown_by(text, topology, listed.ttl, shown_by)?;
    push_explanation(alloc, text, audited, flow, explanation)?;
    push_travel(text, topology, audited.options.travels, travel)
}
