//! Replays a packet past the copies that leave the known domain.

ghost use Rattle.std.specs.Prelude.{◌≡◌, ℕ, ◌<◌, IfOk, [], length, option_map};
ghost use Rattle.mc_theory.specs.Findings.{first_double};
ghost use Rattle.mc_theory.specs.Flights.{start};
ghost use Rattle.mc_forward.specs.Domains.{net_of};
ghost use Rattle.mc_forward.specs.FlightsInDomain.{net_in};
ghost use Rattle.mc_forward.specs.PerLan.{HoldsFirstOfEachKey};
ghost use Rattle.mc_replay.specs.FindingValues.{finding_value, optional_finding_value};
ghost use Rattle.mc_replay.specs.PastStrays.{EndsPastStrays, IsFlightPastStrays, finding_of_double};

use crate::finding::Finding;
use crate::flight_finding::walk_back_reaches_own_lan;
use mc_forward::{CarriedCopy, Domain, Flight, FlowView, PerLan, record_first_copies};
use mc_text::Memory;
use std::alloc::Global;

/// The flight that a run past strays ends with: the first one in which a LAN carried two copies or no copy
/// waits.
#[derive(Drop)]
pub struct FlightPastStrays<'d> {
    /// The loop or the duplicate, if a LAN carried two copies.
    pub second: Option<Finding>,
    /// The flight.
    pub flight: Flight<'d>,
}

/// Handles the first waiting copy of a flight each time, until a LAN carried two copies or no copy waits, and
/// returns the first second copy of a LAN, if there is one. The first copy on each LAN goes into `firsts`.
fn run_to_second_copy<'d>(
    view: &FlowView<'d>,
    flight: &mut Flight<'d>,
    firsts: &mut PerLan<CarriedCopy>,
) -> Result<Option<CarriedCopy>, Memory>
    requires domain { flight.old.domain ≡ view.now.domain }
    requires flow { flight.old.flow ≡ view.now.flow }
    requires start { (ttl : ℕ) × (flight.old.flight
        ≡ start (net_of view.now.domain view.now.flow) ttl) }
    requires count { length firsts.old ≡ length view.now.domain.topology.lans }
    requires firsts { HoldsFirstOfEachKey (λ copy. copy.lan) firsts.old [] }
    ensures domain { IfOk result (λ _. flight.new.domain ≡ view.now.domain) }
    ensures flow { IfOk result (λ _. flight.new.flow ≡ view.now.flow) }
    ensures run { IfOk result (λ _. EndsPastStrays (net_of view.now.domain view.now.flow)
        flight.old.flight flight.new.flight) }
    ensures firsts { IfOk result (λ _. HoldsFirstOfEachKey (λ copy. copy.lan) firsts.new
        flight.new.flight.carried) }
    ensures second { IfOk result (λ second. second ≡ first_double [] flight.new.flight.carried) }
{
    let mut seen = 0;
    'run: loop {
        let copies = flight.copies();
        let second = record_first_copies(firsts, copies, seen);
        seen = copies.len();
        if second.is_some() {
            return Ok(second);
        }
        if flight.waiting() == 0 {
            return Ok(second);
        }
        let _event = flight.handle(0)?;
    }
}

/// What a second copy of a LAN shows: a loop, if it came from the LAN itself, or a duplicate.
fn finding_of_second(
    view: &FlowView<'_>,
    copies: &[CarriedCopy],
    firsts: &PerLan<CarriedCopy>,
    copy: &CarriedCopy,
) -> Finding
    requires firsts { HoldsFirstOfEachKey (λ copy. copy.lan) firsts.now copies.now }
    ensures { finding_value result ≡ finding_of_double (net_in view.now) copies.now copy.now }
{
    if walk_back_reaches_own_lan(view, copies, firsts, copy) {
        Finding::Loop(copy.lan)
    } else {
        Finding::Duplicate(copy.lan)
    }
}

/// What the first second copy of a LAN shows, if there is one.
fn finding_of_second_if_any(
    view: &FlowView<'_>,
    copies: &[CarriedCopy],
    firsts: &PerLan<CarriedCopy>,
    second: Option<CarriedCopy>,
) -> Option<Finding>
    requires firsts { HoldsFirstOfEachKey (λ copy. copy.lan) firsts.now copies.now }
    ensures { optional_finding_value result
        ≡ option_map (finding_of_double (net_in view.now) copies.now) second }
{
    match second {
        Some(copy) => Some(finding_of_second(view, copies, firsts, &copy)),
        None => None,
    }
}

/// The run of a packet of the flow with this number, counted from 0, sent with this time to live, 1 to 255,
/// which goes on where copies leave the known domain: its first waiting copy is handled each time, up to the
/// first flight in which a LAN carried two copies or no copy waits.
///
/// # Errors
///
/// `Memory` if an allocation fails.
pub fn run_past_strays<'d>(
    alloc: Global,
    domain: &'d Domain,
    flow: u32,
    ttl: u8,
) -> Result<FlightPastStrays<'d>, Memory>
    requires flow { flow < length domain.now.topology.flows }
    requires ttl { 0 < ttl }
    ensures run { IfOk result (IsFlightPastStrays domain.now flow ttl) }
{
    let view = FlowView::new(domain, flow);
    let mut firsts = PerLan::new(alloc, view.lans())?;
    let mut flight = Flight::start(alloc, domain, flow, ttl)?;
    let second = run_to_second_copy(&view, &mut flight, &mut firsts)?;
    let second = finding_of_second_if_any(&view, flight.copies(), &firsts, second);
    Ok(FlightPastStrays { second, flight })
}
