//! The line of a flow that isn't right.

ghost use Rattle.std.specs.Prelude.{◌≡◌, ◌<◌, ◌++◌, IfOk, OnOk, codes, length, map};
ghost use Rattle.std.specs.String.{string_bytes};
ghost use Rattle.serde_json.specs.Data.{Members, put as with_member};
ghost use Rattle.serde_json.specs.View.{view as data_of};
ghost use Rattle.mc_forward.specs.ListedTables.{facts};
ghost use Rattle.mc_explain.specs.ExplanationValues.{explanation_value};
ghost use Rattle.mc_shown.specs.WantedText.{lans_wanting};
ghost use Rattle.mc_json_wrong.specs.WhyData.{why_data_in};
ghost use Rattle.mc_json.specs.ObjectLines.{HasMembers};
ghost use Rattle.mc_json_wrong.specs.WrongData.{each_wrong_members, shown_from_data, wrong_mark};
ghost use Rattle.mc_json.specs.RowData.{lan_data, members};
ghost use Rattle.mc_json_wrong.specs.WrongLine.{found_flow_data, found_travel_value, wrong_line};

use crate::behind_value::behind_value;
use crate::line_values::LineValues;
use mc_explain::{Certainty, Explanation};
use mc_forward::{Domain, Event, FlowView};
use mc_json::{
    Fields, event_values, finding_value, flow_fields, lan_names, optional_finding_value, push_line,
};
use mc_lines::{LineContext, add_causes, add_search};
use mc_replay::Finding;
use mc_shown::lans_wanting;
use mc_tables::CacheSummary;
use mc_text::Memory;
use mc_topology::Flow;
use serde_json::Value;
use std::alloc::{AllocError, Global};

/// The travel that shows what a flow's packet meets.
#[derive(Clone, Copy, Drop)]
pub struct FoundTravel<'a> {
    /// The flow's number, counted from 0.
    pub flow: u32,
    /// What the packet meets.
    pub finding: Finding,
    /// The TTL with which it was sent, 1 to 255.
    pub found_ttl: u8,
    /// The events of its travel, in order, if they are asked for.
    pub events: Option<&'a [Event]>,
}

/// Adds that a flow isn't right, if that is known, or else null.
fn with_wrong_mark(fields: Fields, known: bool) -> Fields
    ensures { (members : Members) → HasMembers fields members
        → HasMembers result (with_member (codes "right") (wrong_mark known) members) }
{
    if known {
        fields.flag("right", false)
    } else {
        fields.null("right")
    }
}

/// Adds the TTL from which on packets show a finding, null where none is said.
pub(crate) fn with_shown_from(fields: Fields, shown_from: Option<u8>) -> Fields
    ensures { (members : Members) → HasMembers fields members
        → HasMembers result (with_member (codes "shown_from") (shown_from_data shown_from) members) }
{
    match shown_from {
        Some(ttl) => fields.count("shown_from", ttl as u64),
        None => fields.null("shown_from"),
    }
}

/// The members of each flow with a finding: the flow, how certain the finding is, the TTL of the travel that
/// shows it, the LANs that want the flow, and the causes.
fn wrong_fields(
    alloc: Global,
    found: &FoundTravel<'_>,
    flow: &Flow,
    certainty: &Certainty,
    wanted: Vec<Value>,
    why: Vec<Value>,
) -> Fields
    ensures { HasMembers result (members (each_wrong_members found.now.flow flow.now certainty.now
        found.now.found_ttl (map data_of wanted.items) (map data_of why.items))) }
{
    let fields = flow_fields(alloc, found.flow, flow).count("found_ttl", found.found_ttl as u64);
    let fields = with_wrong_mark(fields, certainty.known);
    with_shown_from(fields, certainty.shown_by.from)
        .list("wanted", Ok(wanted))
        .list("why", Ok(why))
}

/// The names of the LANs that want a flow.
fn wanted_values(alloc: Global, view: &FlowView<'_>) -> Result<Vec<Value>, AllocError>
    ensures { IfOk result (λ values. map data_of values.items
        ≡ map (lan_data view.now.domain.topology) (lans_wanting (facts view.now.domain) view.now.flow)) }
{
    let lans = lans_wanting(alloc, view)?;
    lan_names(alloc, view.topology(), &lans)
}

/// The values of causes, and then those of a search, if there was one.
fn why_values(
    alloc: Global,
    context: &LineContext<'_>,
    explanation: &Explanation<'_>,
) -> Result<Vec<Value>, Memory>
    ensures { IfOk result (λ values. map data_of values.items
        ≡ why_data_in context.now explanation.now.causes.now explanation.now.search.now) }
{
    let mut lines = LineValues::new(alloc);
    add_causes(&mut lines, context, explanation.causes)?;
    if let Some(found) = explanation.search {
        add_search(alloc, &mut lines, context, found)?;
    }
    Ok(lines.values)
}

/// The object of a flow with a finding, by the travel that shows it, and the explanation.
fn wrong_value(
    alloc: Global,
    context: &LineContext<'_>,
    found: &FoundTravel<'_>,
    explanation: &Explanation<'_>,
) -> Result<Value, Memory>
    requires number { found.now.flow ≡ context.now.view.now.flow }
    ensures value { IfOk result (λ value. data_of value ≡ found_flow_data (facts context.now.view.now.domain)
        context.now.summary.now (found_travel_value found.now) (explanation_value explanation.now)) }
{
    let view = context.view;
    let topology = view.topology();
    let certainty = &explanation.certainty;
    let behind = behind_value(alloc, context, explanation.behind)?;
    let why = why_values(alloc, context, explanation)?;
    let wanted = wanted_values(alloc, view)?;
    let at_flow_ttl = optional_finding_value(alloc, topology, certainty.shown_by.at_flow_ttl);
    let fields = wrong_fields(alloc, found, &view.flow(), certainty, wanted, why)
        .list("also", lan_names(alloc, topology, explanation.also))
        .value("at_ttl", at_flow_ttl)
        .value("behind", Ok(behind))
        .value("finding", finding_value(alloc, topology, found.finding));
    match found.events {
        Some(events) => {
            let events = event_values(alloc, view, events);
            Ok(fields.list("events", events).object()?)
        }
        None => Ok(fields.object()?),
    }
}

/// Writes the line of a flow with a finding: the finding, the TTL of the packet that shows it, that
/// packet's events if they are asked for, the LANs that want the flow, and what explains the finding.
/// `summary` has the summary of each router's cache, in the topology's order.
///
/// # Errors
///
/// `Memory` if an allocation fails.
pub fn push_wrong_line(
    alloc: Global,
    text: &mut String,
    domain: &Domain,
    summary: &[CacheSummary],
    found: &FoundTravel<'_>,
    explanation: &Explanation<'_>,
) -> Result<(), Memory>
    requires flow { found.now.flow < length domain.now.topology.flows }
    ensures line { OnOk result (string_bytes text.new ≡ string_bytes text.old
        ++ wrong_line (facts domain.now) summary.now (found_travel_value found.now)
        (explanation_value explanation.now)) }
{
    let view = FlowView::new(domain, found.flow);
    let context = LineContext {
        view: &view,
        summary,
    };
    let value = wrong_value(alloc, &context, found, explanation)?;
    push_line(alloc, text, &value)?;
    Ok(())
}
