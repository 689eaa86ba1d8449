//! Writes a travel, event by event.

ghost use Rattle.std.specs.Prelude.{◌≡◌, ◌++◌, IfOk, OnOk};
ghost use Rattle.std.specs.String.{string_bytes};
ghost use Rattle.mc_commands.specs.ReplayRun.{event_line, event_lines, finding_line, is_clean as clean};
ghost use Rattle.mc_commands.specs.ReplayRun.{replay_line, replay_text};

use mc_forward::Event;
use mc_replay::{Finding, Travel, shown_event};
use mc_text::Memory;
use mc_topology::{Flow, Topology};
use std::alloc::Global;

/// Whether the finding is `Clean`.
pub(crate) fn is_clean(finding: Finding) -> bool
    ensures { result ≡ clean finding }
{
    matches!(finding, Finding::Clean)
}

/// The first line of a travel's text.
fn first_line(alloc: Global, flow: &Flow, ttl: u8) -> Result<String, Memory>
    ensures { IfOk result (λ text. string_bytes text ≡ replay_line flow.now ttl) }
{
    format!(in alloc; "replay {} {} ttl {ttl}\n", flow.source, flow.group).map_err(|_| Memory)
}

/// Writes the line of an event.
fn push_event(text: &mut String, topology: &Topology, event: Event) -> Result<(), Memory>
    ensures { OnOk result (string_bytes text.new ≡
        string_bytes text.old ++ event_line topology.now event) }
{
    let event = shown_event(event, topology);
    writeln!(text, "event {event}").map_err(|_| Memory)
}

/// Writes the lines of events, in order.
pub fn push_events(text: &mut String, topology: &Topology, events: &[Event]) -> Result<(), Memory>
    ensures { OnOk result (string_bytes text.new ≡
        string_bytes text.old ++ event_lines topology.now events.now) }
{
    for event in events {
        push_event(text, topology, *event)?;
    }
    Ok(())
}

/// Writes the line of the finding.
fn push_finding(text: &mut String, topology: &Topology, finding: Finding) -> Result<(), Memory>
    ensures { OnOk result (string_bytes text.new ≡
        string_bytes text.old ++ finding_line topology.now finding) }
{
    let finding = finding.shown(topology);
    writeln!(text, "finding {finding}").map_err(|_| Memory)
}

/// The text of the travel of a flow's packet with this time to live.
pub(crate) fn travel_text(
    alloc: Global,
    topology: &Topology,
    flow: &Flow,
    ttl: u8,
    travel: &Travel,
) -> Result<String, Memory>
    ensures { IfOk result (λ text.
        string_bytes text ≡ replay_text topology.now flow.now ttl travel.now) }
{
    let mut text = first_line(alloc, flow, ttl)?;
    push_events(&mut text, topology, &travel.events)?;
    push_finding(&mut text, topology, travel.finding)?;
    Ok(text)
}
