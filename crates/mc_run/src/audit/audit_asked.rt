//! Writes the lines of what hosts ask for and no flow answers.

ghost use Rattle.std.specs.Prelude.{◌≡◌, ◌<◌, ◌++◌, IfOk, OnOk, length, not, slice_get};
ghost use Rattle.std.specs.String.{string_bytes};
ghost use Rattle.mc_shown.specs.AskedText.{listed_sources};
ghost use Rattle.mc_forward.specs.ListedTables.{flow_pairs};
ghost use Rattle.mc_run.specs.AuditAsked.{asked_end, asked_lines, line_written, numbered_asked_line};
ghost use Rattle.mc_run.specs.AuditAsked.{state_at, states_of_line};
ghost use Rattle.mc_run.specs.AuditPieces.{audited_value};
ghost use Rattle.mc_run.specs.AuditedFiles.{is_whole};

use crate::audit::audited_domain::AuditedDomain;
use mc_asked::RouterState;
use mc_forward::Items;
use mc_input::UnansweredWants;
use mc_json::{push_asked_line, push_asked_more_line, push_asked_services_line};
use mc_shown::{AskedLine, RoutersByState, push_asked, push_asked_more, push_asked_services};
use mc_text::{Addr, Memory};
use mc_topology::Topology;
use std::alloc::Global;

/// The number of wants of LANs that no flow answers.
///
/// # Errors
///
/// `Memory` for more than `u64::MAX`, which no memory holds.
pub(crate) fn count_asked(asked: &UnansweredWants) -> Result<u64, Memory>
    ensures { IfOk result (λ count. count ≡ asked.now.count) }
{
    match u64::try_from(asked.count()) {
        Ok(count) => Ok(count),
        Err(_) => Err(Memory),
    }
}

/// What a router has for the want of the line with this number.
fn state_at(states: &[Items<RouterState>], router: u32, number: usize) -> RouterState
    ensures { result ≡ state_at number (slice_get states.now router) }
{
    let Some(own) = states.get(router as usize) else {
        return RouterState::Nothing;
    };
    match own.as_slice().get(number) {
        Some(state) => *state,
        None => RouterState::Nothing,
    }
}

/// What each router has for the want of the line with this number.
fn states_of_line(
    alloc: Global,
    topology: &Topology,
    states: &[Items<RouterState>],
    number: usize,
) -> Result<Vec<RouterState>, Memory>
    ensures { IfOk result (λ own. own.items ≡ states_of_line topology.now states.now number) }
{
    let mut own = Vec::new(alloc);
    for router in 0..topology.routers() {
        own.push(state_at(states, router, number))?;
    }
    Ok(own)
}

/// The sources of the flows that are listed for a group, in the topology's order.
fn listed_sources(alloc: Global, topology: &Topology, group: Addr) -> Result<Vec<Addr>, Memory>
    ensures { IfOk result (λ sources.
        sources.items ≡ listed_sources (flow_pairs topology.now.flows) group) }
{
    let mut sources = Vec::new(alloc);
    for number in 0..topology.flows() {
        let flow = topology.flow(number);
        if flow.group == group {
            sources.push(flow.source)?;
        }
    }
    Ok(sources)
}

/// Writes a line, as text or in JSON.
fn push_line(
    alloc: Global,
    text: &mut String,
    topology: &Topology,
    line: &AskedLine<'_>,
    json: bool,
) -> Result<(), Memory>
    ensures { OnOk result (string_bytes text.new ≡ string_bytes text.old
        ++ line_written json topology.now line.now) }
{
    if json {
        push_asked_line(alloc, text, topology, line)
    } else {
        push_asked(text, topology, line)
    }
}

/// Writes the line with this number, as text or in JSON.
fn push_numbered_line(
    alloc: Global,
    text: &mut String,
    audited: &AuditedDomain<'_>,
    json: bool,
    number: usize,
) -> Result<(), Memory>
    requires within { number < length audited.now.asked.now.lines }
    ensures { OnOk result (string_bytes text.new ≡ string_bytes text.old
        ++ numbered_asked_line json audited.now.domain.now.topology
        (not (is_whole (audited_value audited.now))) audited.now.asked.now number) }
{
    let topology = audited.domain.topology();
    let shared = &audited.asked.lines()[number];
    let states = states_of_line(alloc, topology, audited.asked.states(), number)?;
    let routers = RoutersByState::of(alloc, &states)?;
    let listed = listed_sources(alloc, topology, shared.pair().0)?;
    let line = AskedLine {
        want: shared.pair(),
        lans: shared.lans(),
        listed: &listed,
        routers: &routers,
        are_excluded: !audited.without.is_empty(),
    };
    push_line(alloc, text, topology, &line, json)
}

/// Writes how many further wants there are, and the services.
fn push_asked_end(
    alloc: Global,
    text: &mut String,
    audited: &AuditedDomain<'_>,
    json: bool,
) -> Result<(), Memory>
    ensures { OnOk result (string_bytes text.new ≡ string_bytes text.old
        ++ asked_end json audited.now.domain.now.topology audited.now.asked.now) }
{
    let (further, services) = (audited.asked.further(), audited.asked.services());
    if json {
        push_asked_more_line(text, further)?;
        push_asked_services_line(alloc, text, audited.domain.topology(), services)
    } else {
        push_asked_more(text, further)?;
        push_asked_services(text, services)
    }
}

/// Writes the lines of what hosts ask for and no flow answers, as text or in JSON.
pub(crate) fn push_asked_lines(
    alloc: Global,
    text: &mut String,
    audited: &AuditedDomain<'_>,
    json: bool,
) -> Result<(), Memory>
    ensures { OnOk result (string_bytes text.new ≡ string_bytes text.old
        ++ asked_lines json audited.now.domain.now.topology
        (not (is_whole (audited_value audited.now))) audited.now.asked.now) }
{
    for number in 0..audited.asked.lines().len() {
        push_numbered_line(alloc, text, audited, json, number)?;
    }
    push_asked_end(alloc, text, audited, json)
}
