//! Replays the travel of a packet.

ghost use Rattle.std.specs.Prelude.{◌≡◌, ℕ, ◌<◌, ◌≤◌, IfOk, [], length};
ghost use Rattle.mc_theory.specs.Flights.{start};
ghost use Rattle.mc_theory.specs.Nets.{placed_interfaces};
ghost use Rattle.mc_forward.specs.Domains.{net_of};
ghost use Rattle.mc_forward.specs.FlightsInDomain.{net_in};
ghost use Rattle.mc_forward.specs.PerLan.{HoldsFirstOfEachKey};
ghost use Rattle.mc_replay.specs.FindingValues.{finding_value};
ghost use Rattle.mc_replay.specs.Travels.{IsTravelTo, EventsAtMostPlacedVifs, IsRunOfChoices, IsRunTo};
ghost use Rattle.mc_replay.specs.Travels.{EndShowsFinding, ShowsWrongFlow, WalksEndAtSource};
ghost use Rattle.mc_replay.specs.Travels.{replay_of};

use crate::finding::Finding;
use crate::flight_finding::finding_of;
use crate::picker::Picker;
use mc_forward::{CarriedCopy, Domain, Event, Flight, FlowView, PerLan, record_first_copies};
use mc_text::Memory;
use std::alloc::Global;

/// The travel of a packet: each handling of one of its copies, up to the first flight with a finding,
/// and that finding.
#[derive(Debug, Drop)]
pub struct Travel {
    /// The handlings, in order.
    pub events: Vec<Event>,
    /// The finding of the flight after the last of them.
    pub finding: Finding,
}

/// A travel, with the flight that it ends with.
#[derive(Drop)]
pub struct FinishedTravel<'d> {
    /// The travel.
    pub travel: Travel,
    /// The flight after its last event.
    pub flight: Flight<'d>,
}

/// Handles the copies of a flight in the picker's order, up to the first flight with a finding, and
/// returns the finding. The handlings go into `events`, and the first copy on each LAN into `firsts`.
fn travel_to_finding<'d, P: Picker>(
    view: &FlowView<'d>,
    flight: &mut Flight<'d>,
    firsts: &mut PerLan<CarriedCopy>,
    events: &mut Vec<Event>,
    picker: &mut P,
) -> Result<Finding, Memory>
    requires domain { flight.old.domain ≡ view.now.domain }
    requires flow { flight.old.flow ≡ view.now.flow }
    requires start { (ttl : ℕ) × (flight.old.flight
        ≡ start (net_of view.now.domain view.now.flow) ttl) }
    requires count { length firsts.old ≡ length view.now.domain.topology.lans }
    requires firsts { HoldsFirstOfEachKey (λ copy. copy.lan) firsts.old [] }
    requires events { events.old.items ≡ [] }
    ensures domain { IfOk result (λ _. flight.new.domain ≡ view.now.domain) }
    ensures flow { IfOk result (λ _. flight.new.flow ≡ view.now.flow) }
    ensures run { IfOk result (λ finding. IsTravelTo
        (net_in view.now) (length view.now.domain.topology.lans) (P.choices picker.old) flight.old.flight
        events.new.items flight.new.flight (finding_value finding)) }
    ensures short { IfOk result (λ _. length events.new.items
        ≤ length (placed_interfaces (net_of view.now.domain view.now.flow))) }
{
    let mut seen = 0;
    'travel: loop {
        let copies = flight.copies();
        let second = record_first_copies(firsts, copies, seen);
        seen = copies.len();
        if let Some(finding) = finding_of(view, flight, firsts, second) {
            return Ok(finding);
        }
        let pick = picker.pick(flight.waiting());
        events.push(flight.handle(pick)?)?;
    }
}

/// The travel of a packet of the flow with this number, counted from 0, sent with this time to live, 1
/// to 255, and the flight that it ends with.
///
/// # Errors
///
/// `Memory` if an allocation fails; the picker may have picked by then.
pub fn replay_to_end<'d, P: Picker>(
    alloc: Global,
    domain: &'d Domain,
    flow: u32,
    ttl: u8,
    picker: &mut P,
) -> Result<FinishedTravel<'d>, Memory>
    requires flow { flow < length domain.now.topology.flows }
    requires ttl { 0 < ttl }
    // The flight is one in the domain.
    ensures domain { IfOk result (λ ended. ended.flight.domain ≡ domain.now) }
    // The flight is one of the flow.
    ensures flow { IfOk result (λ ended. ended.flight.flow ≡ flow) }
    // The travel is the run of the picker's choices up to this flight.
    ensures run { IfOk result (λ ended. IsRunTo
        (replay_of domain.now flow ttl (P.choices picker.old)) ended.travel
        ended.flight.flight) }
    // It has at most as many events as there are placed interfaces.
    ensures short { IfOk result (λ ended. EventsAtMostPlacedVifs
        (replay_of domain.now flow ttl (P.choices picker.old)) ended.travel) }
{
    let view = FlowView::new(domain, flow);
    let mut firsts = PerLan::new(alloc, view.lans())?;
    let mut flight = Flight::start(alloc, domain, flow, ttl)?;
    let mut events = Vec::with_capacity(alloc, view.routers() as usize)?;
    let finding = travel_to_finding(&view, &mut flight, &mut firsts, &mut events, picker)?;
    let travel = Travel { events, finding };
    Ok(FinishedTravel { travel, flight })
}

/// The travel of a packet of the flow with this number, counted from 0, sent with this time to live, 1
/// to 255, whose copies are handled in the order that the picker chooses.
///
/// # Errors
///
/// `Memory` if an allocation fails; the picker may have picked by then.
pub fn replay<P: Picker>(
    alloc: Global,
    domain: &Domain,
    flow: u32,
    ttl: u8,
    picker: &mut P,
) -> Result<Travel, Memory>
    requires flow { flow < length domain.now.topology.flows }
    requires ttl { 0 < ttl }
    // The travel is the run of the picker's choices: it has exactly the events of that run, and the
    // finding of the flight that they end with, the first flight with a finding.
    ensures run { IfOk result (IsRunOfChoices
        (replay_of domain.now flow ttl (P.choices picker.old))) }
    // It has at most as many events as there are placed interfaces.
    ensures short { IfOk result (EventsAtMostPlacedVifs
        (replay_of domain.now flow ttl (P.choices picker.old))) }
    // The flight that the travel ends with shows what the finding means.
    ensures shown { IfOk result (EndShowsFinding
        (replay_of domain.now flow ttl (P.choices picker.old))) }
    // In that flight the walk back from each copy ends at the source's copy, so that `Loop` and
    // `Duplicate` exclude each other.
    ensures walks { IfOk result (WalksEndAtSource
        (replay_of domain.now flow ttl (P.choices picker.old))) }
    // Any other finding than `Clean` shows that the flow isn't right, if the TTL is at least the
    // flow's.
    ensures wrong { IfOk result (ShowsWrongFlow
        (replay_of domain.now flow ttl (P.choices picker.old))) }
{
    // This brings the domain's rules into the proof: its limits follow from them.
    let _rules = domain.topology();
    let ended = replay_to_end(alloc, domain, flow, ttl, picker)?;
    Ok(ended.travel)
}
