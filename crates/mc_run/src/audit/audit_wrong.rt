//! Writes the lines of a flow with a finding, as text or in JSON: whether it is then known not to be right,
//! and why.

ghost use Rattle.std.specs.Prelude.{◌≡◌, ◌<◌, ◌++◌, IfOk, OnOk, length, option_map};
ghost use Rattle.std.specs.String.{string_bytes};
ghost use Rattle.mc_explain.specs.ExplanationValues.{explanation_value};
ghost use Rattle.mc_run.specs.AuditObjects.{events_asked};
ghost use Rattle.mc_run.specs.AuditPieces.{explained_lines_of, status_of_wrong_flow, wrong_flow_lines_of};
ghost use Rattle.mc_run.specs.AuditPieces.{wrong_object_of};

use crate::audit::audit_wrong_text::push_wrong_lines;
use crate::audit::audited_domain::AuditedDomain;
use crate::audit::flow_status::FlowStatus;
use crate::audit::reasons::Reasons;
use mc_explain::{Certainty, Explanation};
use mc_forward::Event;
use mc_json_wrong::{FoundTravel, push_wrong_line};
use mc_replay::{FinishedTravel, Travel};
use mc_shown::missed_besides;
use mc_text::Memory;
use std::alloc::Global;

/// The events of a travel, if travels are to be printed.
fn events_asked(are_printed: bool, travel: &Travel) -> Option<&[Event]>
    ensures { option_map (λ events. events.now) result ≡ events_asked are_printed travel.now }
{
    if are_printed {
        Some(&travel.events)
    } else {
        None
    }
}

/// Writes the object of a flow with a finding.
fn push_wrong_object(
    alloc: Global,
    text: &mut String,
    audited: &AuditedDomain<'_>,
    flow: u32,
    travel: &Travel,
    ttl: u8,
    explanation: &Explanation<'_>,
) -> Result<(), Memory>
    requires flow { flow < length audited.now.domain.now.topology.flows }
    ensures added { OnOk result (string_bytes text.new ≡ string_bytes text.old
        ++ wrong_object_of audited.now flow ttl travel.now (explanation_value explanation.now)) }
{
    let AuditedDomain {
        domain,
        summary,
        options,
        ..
    } = *audited;
    let found = FoundTravel {
        flow,
        finding: travel.finding,
        found_ttl: ttl,
        events: events_asked(options.travels, travel),
    };
    push_wrong_line(alloc, text, domain, summary, &found, explanation)
}

/// Writes the lines of a flow with a finding, as text or in JSON.
fn push_explained(
    alloc: Global,
    audited: &AuditedDomain<'_>,
    flow: u32,
    ended: &FinishedTravel<'_>,
    ttl: u8,
    explanation: &Explanation<'_>,
    text: &mut String,
) -> Result<(), Memory>
    requires flow { flow < length audited.now.domain.now.topology.flows }
    ensures added { OnOk result (string_bytes text.new ≡ string_bytes text.old
        ++ explained_lines_of audited.now flow ttl ended.now (explanation_value explanation.now)) }
{
    let options = audited.options;
    let travel = &ended.travel;
    if options.json {
        push_wrong_object(alloc, text, audited, flow, travel, ttl, explanation)
    } else {
        push_wrong_lines(alloc, text, audited, flow, travel, explanation)
    }
}

/// Writes the lines of a flow with a finding, and returns the flow's status.
pub(crate) fn push_wrong(
    alloc: Global,
    audited: &AuditedDomain<'_>,
    flow: u32,
    ended: &FinishedTravel<'_>,
    ttl: u8,
    reasons: &Reasons,
    text: &mut String,
) -> Result<FlowStatus, Memory>
    requires flow { flow < length audited.now.domain.now.topology.flows }
    ensures flow_status { IfOk result (λ flow_status.
        flow_status ≡ status_of_wrong_flow audited.now reasons.now.search) }
    ensures added { OnOk result (string_bytes text.new ≡ string_bytes text.old
        ++ wrong_flow_lines_of audited.now flow ttl ended.now reasons.now) }
{
    let also = missed_besides(alloc, &ended.flight, ended.travel.finding)?;
    let whole = audited.without.is_empty();
    let known = reasons.is_known_wrong(whole);
    let explanation = Explanation {
        causes: &reasons.causes,
        search: &reasons.search,
        also: &also,
        behind: &reasons.behind,
        certainty: Certainty {
            known,
            shown_by: reasons.shown_by,
        },
    };
    push_explained(alloc, audited, flow, ended, ttl, &explanation, text)?;
    Ok(FlowStatus::of_wrong(known))
}
