//! Explains why a flow isn't right, by the flights that show it.

ghost use Rattle.std.specs.Prelude.{◌≡◌, ◌<◌, ◌++◌, ℕ, IfOk, OnOk, length, map, reverse};
ghost use Rattle.mc_forward.specs.FlightsInDomain.{net_in};
ghost use Rattle.mc_forward.specs.PerLan.{HoldsFirstOfEachKey};
ghost use Rattle.mc_replay.specs.FindingValues.{finding_value};
ghost use Rattle.mc_maker.specs.ExaminedFlights.{HasExaminedFlights};
ghost use Rattle.mc_explain.specs.Explained.{ExplainsDuplicate, ExplainsFinding, ExplainsLeastTtl};
ghost use Rattle.mc_explain.specs.Explained.{ExplainsLoop, IsExplained, IsRemedy};
ghost use Rattle.mc_explain.specs.Explained.{circle_cause, sender_causes, stray_causes};
ghost use Rattle.mc_explain.specs.LastFlights.{HasLoop, EndsTravel, HasSecondCopy, IsOutOfReach};
ghost use Rattle.mc_explain.specs.LastFlights.{IsSecondCopy};

use crate::causes::Cause;
use crate::causes::hop::Hop;
use crate::causes::path::{first_stop, hops_around, hops_back, need};
use mc_forward::{CarriedCopy, Domain, Flight, FlowView, RowFor};
use mc_maker::ExaminedFlights;
use mc_replay::{Finding, FinishedTravel};
use mc_search::FirstCopies;
use mc_text::Memory;
use mc_topology::{LanNo, RouterNo};
use std::alloc::Global;

/// Adds the sender of a copy onto a LAN, if it isn't the source.
pub(crate) fn add_sender(
    causes: &mut Vec<Cause>,
    lan: LanNo,
    sender: Option<(RouterNo, u8)>,
) -> Result<(), Memory>
    ensures { OnOk result (causes.new.items ≡ causes.old.items ++ sender_causes lan sender) }
{
    if let Some((router, vif)) = sender {
        causes.push(Cause::SentOnto { lan, router, vif })?;
    }
    Ok(())
}

/// The remedy for a second copy on a LAN: to take out the vif that sent it.
fn remedy_for(
    alloc: Global,
    view: &FlowView<'_>,
    flight: &Flight<'_>,
    first_copies: &FirstCopies,
    second: &CarriedCopy,
) -> Result<Cause, Memory>
    requires first_copies { HoldsFirstOfEachKey (λ copy. copy.lan) first_copies.now.by_lan
        flight.now.flight.carried }
    requires second { IsSecondCopy (net_in view.now) flight.now.flight.carried second.now }
    ensures ok { IfOk result (IsRemedy (net_in view.now) flight.now.flight second.now.lan
        second.now) }
{
    let Some(first) = first_copies.on(second.lan) else {
        unreachable!()
    };
    let Some((router, vif)) = second.sender else {
        unreachable!()
    };
    let path = hops_back(alloc, view, flight.copies(), first_copies, &first)?;
    Ok(Cause::TakeOut {
        lan: second.lan,
        router,
        vif,
        least: need(&path),
    })
}

/// The causes of two copies on a LAN.
fn explain_duplicate(
    alloc: Global,
    view: &FlowView<'_>,
    flight: &Flight<'_>,
    lan: LanNo,
) -> Result<Vec<Cause>, Memory>
    requires domain { flight.now.domain ≡ view.now.domain }
    requires second { HasSecondCopy (net_in view.now) flight.now.flight.carried lan }
    ensures ok { IfOk result (λ causes. ExplainsDuplicate (net_in view.now) flight.now.flight lan
        causes.items) }
{
    let first_copies = FirstCopies::new(alloc, view, flight.copies())?;
    let Some(first) = first_copies.on(lan) else {
        unreachable!()
    };
    let Some(second) = first_copies.second else {
        unreachable!()
    };
    let remedy = remedy_for(alloc, view, flight, &first_copies, &second)?;
    let mut causes = Vec::new(alloc);
    add_sender(&mut causes, lan, first.sender)?;
    add_sender(&mut causes, lan, second.sender)?;
    causes.push(remedy)?;
    Ok(causes)
}

/// A cause for each hop of a circle, in the order in which packets take them.
pub(crate) fn circle_causes(alloc: Global, circle: &[Hop]) -> Result<Vec<Cause>, Memory>
    ensures { IfOk result (λ causes. causes.items ≡ reverse (map circle_cause circle.now)) }
{
    let mut causes = Vec::new(alloc);
    for hop in circle {
        causes.push(Cause::Circle {
            from: hop.from,
            onto: hop.onto,
            router: hop.router,
            vif: hop.vif,
        })?;
    }
    causes.reverse();
    Ok(causes)
}

/// The causes of a loop: the LAN's second copy came from its first one.
fn explain_loop(
    alloc: Global,
    view: &FlowView<'_>,
    flight: &Flight<'_>,
    lan: LanNo,
) -> Result<Vec<Cause>, Memory>
    requires domain { flight.now.domain ≡ view.now.domain }
    requires second { HasLoop (net_in view.now) flight.now.flight.carried lan }
    ensures ok { IfOk result (λ causes. ExplainsLoop (net_in view.now) flight.now.flight lan
        causes.items) }
{
    let first_copies = FirstCopies::new(alloc, view, flight.copies())?;
    let Some(second) = first_copies.second else {
        unreachable!()
    };
    let circle = hops_around(alloc, view, flight.copies(), &first_copies, &second)?;
    let remedy = remedy_for(alloc, view, flight, &first_copies, &second)?;
    let mut causes = circle_causes(alloc, &circle)?;
    causes.push(remedy)?;
    Ok(causes)
}

/// The causes of a stray: a copy left the known domain by a router's vif, or came in by it and found only
/// a row for every source.
fn explain_stray(
    alloc: Global,
    view: &FlowView<'_>,
    router: RouterNo,
    vif: u8,
) -> Result<Vec<Cause>, Memory>
    ensures { IfOk result (λ causes. causes.items
        ≡ stray_causes ((net_in view.now).row router) router vif) }
{
    let mut causes = Vec::new(alloc);
    match view.row(router) {
        RowFor::Exact(_) => causes.push(Cause::Unplaced { router, vif })?,
        RowFor::Open => causes.push(Cause::OnlyEverySource { router, vif })?,
        RowFor::NoRow => {}
    }
    Ok(causes)
}

/// The causes of a LAN that packets with the flow's TTL miss, and packets with TTL 255 reach. `greatest`
/// is the flight of a packet with TTL 255.
fn explain_least_ttl(
    alloc: Global,
    view: &FlowView<'_>,
    greatest: &Flight<'_>,
    lan: LanNo,
) -> Result<Vec<Cause>, Memory>
    requires domain { greatest.now.domain ≡ view.now.domain }
    requires path { IsOutOfReach (net_in view.now) greatest.now.flight.carried
        (net_in view.now).ttl lan }
    ensures ok { IfOk result (λ causes. ExplainsLeastTtl (net_in view.now) greatest.now.flight lan
        causes.items) }
{
    let first_copies = FirstCopies::new(alloc, view, greatest.copies())?;
    let Some(first) = first_copies.on(lan) else {
        unreachable!()
    };
    let path = hops_back(alloc, view, greatest.copies(), &first_copies, &first)?;
    let Some(stopped) = first_stop(view.ttl(), &path) else {
        unreachable!()
    };
    let (hop, ttl) = stopped;
    let mut causes = Vec::new(alloc);
    causes.push(Cause::LeastTtl {
        lan,
        least: need(&path),
    })?;
    causes.push(Cause::StoppedAt {
        router: hop.router,
        vif: hop.vif,
        threshold: hop.threshold,
        ttl,
    })?;
    Ok(causes)
}

/// The causes of a travel's finding, by its last flight.
fn explain_finding(
    alloc: Global,
    view: &FlowView<'_>,
    ended: &FinishedTravel<'_>,
) -> Result<Vec<Cause>, Memory>
    requires travel { (ttl : ℕ) × EndsTravel view.now ttl (finding_value ended.now.travel.finding)
        ended.now.flight }
    ensures ok { IfOk result (λ causes. ExplainsFinding (net_in view.now) ended.now.flight.flight
        (finding_value ended.now.travel.finding) causes.items) }
{
    // This brings the topology's rules into the proof: its limits follow from them.
    let _rules = view.topology();
    match ended.travel.finding {
        Finding::Duplicate(lan) => explain_duplicate(alloc, view, &ended.flight, lan),
        Finding::Loop(lan) => explain_loop(alloc, view, &ended.flight, lan),
        Finding::Stray(router, vif) => explain_stray(alloc, view, router, vif),
        Finding::Clean | Finding::Missed(_) => Ok(Vec::new(alloc)),
    }
}

/// The causes of an examined flow's fault, by the flights that show it. There are none if the flow is
/// right. `flow` counts from 0. The time is in proportion to the number of LANs and of copies in a flight.
///
/// # Errors
///
/// `Memory` if an allocation fails.
pub fn explain(
    alloc: Global,
    domain: &Domain,
    flow: u32,
    examined_flights: &ExaminedFlights<'_>,
) -> Result<Vec<Cause>, Memory>
    requires flow { flow < length domain.now.topology.flows }
    requires examined_flights { HasExaminedFlights domain.now flow examined_flights.now }
    ensures causes { IfOk result (λ causes. IsExplained domain.now flow examined_flights.now causes.items) }
{
    let view = FlowView::new(domain, flow);
    match examined_flights {
        ExaminedFlights::Certified(_) => Ok(Vec::new(alloc)),
        ExaminedFlights::FoundAtTtl255(ended) => explain_finding(alloc, &view, ended),
        ExaminedFlights::FoundAtFlowTtl { greatest, least } => match least.travel.finding {
            Finding::Missed(lan) => explain_least_ttl(alloc, &view, &greatest.flight, lan),
            _ => explain_finding(alloc, &view, least),
        },
    }
}
