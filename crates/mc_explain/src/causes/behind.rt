//! What is behind a stray: what the run comes to that goes on past it.

ghost use Rattle.std.specs.Prelude.{◌≡◌, ◌<◌, ◌≤◌, ◌==◌, [], Bool, List, IfOk, OnOk, None, Some};
ghost use Rattle.std.specs.Prelude.{filter, length};
ghost use Rattle.mc_theory.specs.Nets.{Interface};
ghost use Rattle.mc_theory.specs.Flights.{Copy};
ghost use Rattle.mc_theory.specs.Findings.{first_double};
ghost use Rattle.mc_forward.specs.FlightsInDomain.{net_in};
ghost use Rattle.mc_forward.specs.PerLan.{HoldsFirstOfEachKey};
ghost use Rattle.mc_replay.specs.FindingValues.{optional_finding_value};
ghost use Rattle.mc_replay.specs.PastStrays.{finding_of_double};
ghost use Rattle.std.specs.List.{list_any};
ghost use Rattle.mc_explain.specs.Behind.{IsBehind, IsBehindIn, is_missed, is_open};
ghost use Rattle.mc_explain.specs.Behind.{is_other_leak, missed_lans, missed_unless_open, open_routers};
ghost use Rattle.mc_explain.specs.Behind.{with_open_router, with_router_once};
ghost use Rattle.mc_explain.specs.ShownNeed.{need_of_two_copies as least_of_two_copies};

use crate::causes::Cause;
use crate::causes::second_copy::{second_causes, second_shown_from};
use mc_forward::{CarriedCopy, Domain, Flight, FlowView, RowFor, Stray};
use mc_replay::{Finding, run_past_strays};
use mc_search::FirstCopies;
use mc_text::Memory;
use mc_topology::{LanNo, RouterNo};
use std::alloc::Global;

/// What is behind a stray. Where a LAN carries two copies there, the lists of strays, routers and LANs are
/// empty.
#[derive(Debug, Drop)]
pub struct Behind {
    /// The loop or the duplicate, if a LAN carries two copies.
    pub finding: Option<Finding>,
    /// Its causes, without a remedy.
    pub causes: Vec<Cause>,
    /// The TTL from which on each packet shows it, if one is given.
    pub shown_from: Option<u8>,
    /// By which interfaces copies leave the known domain besides.
    pub strays: Vec<Stray>,
    /// The routers past which nothing is known: their only resolved rows for the flow are for every source.
    pub open_routers: Vec<RouterNo>,
    /// The LANs that want the flow and carry no copy, if no such router and no excluded one may send them
    /// one.
    pub missed: Vec<LanNo>,
}

/// Whether a router's row isn't followed.
fn is_open(view: &FlowView<'_>, router: RouterNo) -> bool
    ensures { result ≡ is_open ((net_in view.now).row router) }
{
    matches!(view.row(router), RowFor::Open)
}

/// Whether a copy that left there was sent, by another interface than this one.
fn is_other_leak(view: &FlowView<'_>, own: Stray, stray: Stray) -> bool
    ensures { result ≡ is_other_leak (net_in view.now) own stray }
{
    !is_open(view, stray.router) && !(own.router == stray.router && own.vif == stray.vif)
}

/// The strays other than one at this interface that routers sent.
fn other_leaks(
    alloc: Global,
    view: &FlowView<'_>,
    own: Stray,
    strays: &[Stray],
) -> Result<Vec<Stray>, Memory>
    ensures { IfOk result (λ others. others.items ≡ filter (is_other_leak (net_in view.now) own) strays.now) }
{
    let mut others = Vec::new(alloc);
    for stray in strays {
        if is_other_leak(view, own, *stray) {
            others.push(*stray)?;
        }
    }
    Ok(others)
}

/// Whether a router is one of these.
fn has_router(routers: &[RouterNo], router: RouterNo) -> bool
    ensures { result ≡ list_any (λ r. r == router) routers.now }
{
    for it in routers {
        if *it == router {
            return true;
        }
    }
    false
}

/// Adds a router, unless it is there.
fn add_router(routers: &mut Vec<RouterNo>, router: RouterNo) -> Result<(), Memory>
    ensures { OnOk result (routers.new.items ≡ with_router_once routers.old.items router) }
{
    if !has_router(routers, router) {
        routers.push(router)?;
    }
    Ok(())
}

/// Adds the router at which a copy found a row that isn't followed, unless it is there.
fn add_open_router(
    routers: &mut Vec<RouterNo>,
    view: &FlowView<'_>,
    stray: Stray,
) -> Result<(), Memory>
    ensures { OnOk result (routers.new.items
        ≡ with_open_router (net_in view.now) routers.old.items stray) }
{
    if is_open(view, stray.router) {
        add_router(routers, stray.router)?;
    }
    Ok(())
}

/// The routers at which a copy found a row that isn't followed, each once.
fn routers_with_open_rows(
    alloc: Global,
    view: &FlowView<'_>,
    strays: &[Stray],
) -> Result<Vec<RouterNo>, Memory>
    ensures { IfOk result (λ routers. routers.items ≡ open_routers (net_in view.now) strays.now) }
{
    let mut routers = Vec::new(alloc);
    for stray in strays {
        add_open_router(&mut routers, view, *stray)?;
    }
    Ok(routers)
}

/// Whether a LAN wants the flow and has no first copy.
fn is_missed(view: &FlowView<'_>, first_copies: &FirstCopies, lan: LanNo) -> bool
    requires listed { lan < length view.now.domain.topology.lans }
    ensures { (copies : List Copy) → HoldsFirstOfEachKey (λ copy. copy.lan) first_copies.now.by_lan
        copies →
        result ≡ is_missed (net_in view.now) copies lan }
{
    view.wants(lan) & first_copies.on(lan).is_none()
}

/// The LANs that want the flow and have no first copy.
fn lans_without_copy(
    alloc: Global,
    view: &FlowView<'_>,
    first_copies: &FirstCopies,
) -> Result<Vec<LanNo>, Memory>
    ensures { (copies : List Copy) → HoldsFirstOfEachKey (λ copy. copy.lan) first_copies.now.by_lan
        copies →
        IfOk result (λ lans. lans.items ≡ missed_lans view.now.domain.topology (net_in view.now) copies) }
{
    let mut lans = Vec::new(alloc);
    for number in 0..view.lans() {
        let lan = LanNo(number);
        if is_missed(view, first_copies, lan) {
            lans.push(lan)?;
        }
    }
    Ok(lans)
}

/// What is behind a stray where a LAN carries a second copy: the same for each stray, and whether or not
/// a router is excluded.
fn behind_with_second(
    alloc: Global,
    view: &FlowView<'_>,
    flight: &Flight<'_>,
    first_copies: &FirstCopies,
    second: &CarriedCopy,
    finding: Option<Finding>,
) -> Result<Behind, Memory>
    requires first_copies { HoldsFirstOfEachKey (λ copy. copy.lan) first_copies.now.by_lan
        flight.now.flight.carried }
    requires second { first_copies.now.second ≡ first_double [] flight.now.flight.carried }
    requires bounded { least_of_two_copies (net_in view.now) flight.now.flight.carried second.now.lan ≤ 255 }
    requires finding { optional_finding_value finding
        ≡ Some (finding_of_double (net_in view.now) flight.now.flight.carried second.now) }
    ensures { (whole : Bool) (own : Interface) → IfOk result
        (IsBehindIn whole view.now.domain.topology (net_in view.now) own flight.now.flight
        (Some second.now)) }
{
    let copies = flight.copies();
    let causes = second_causes(alloc, view, copies, first_copies, second, &finding)?;
    let shown_from = second_shown_from(alloc, view, copies, first_copies, second.lan)?;
    Ok(Behind {
        finding,
        causes,
        shown_from,
        strays: Vec::new(alloc),
        open_routers: Vec::new(alloc),
        missed: Vec::new(alloc),
    })
}

/// The LANs that want the flow and have no first copy, if no router's row isn't followed and none is
/// excluded.
fn missed_unless_open(
    alloc: Global,
    view: &FlowView<'_>,
    whole: bool,
    open_routers: &[RouterNo],
    first_copies: &FirstCopies,
) -> Result<Vec<LanNo>, Memory>
    ensures { (copies : List Copy) → HoldsFirstOfEachKey (λ copy. copy.lan) first_copies.now.by_lan
        copies →
        IfOk result (λ lans. lans.items ≡ missed_unless_open whole open_routers.now
        (missed_lans view.now.domain.topology (net_in view.now) copies)) }
{
    if !whole {
        return Ok(Vec::new(alloc));
    }
    if !open_routers.is_empty() {
        return Ok(Vec::new(alloc));
    }
    lans_without_copy(alloc, view, first_copies)
}

/// What is behind a stray where no LAN carries two copies.
fn behind_without_second(
    alloc: Global,
    view: &FlowView<'_>,
    whole: bool,
    own: Stray,
    flight: &Flight<'_>,
    first_copies: &FirstCopies,
) -> Result<Behind, Memory>
    requires first_copies { HoldsFirstOfEachKey (λ copy. copy.lan) first_copies.now.by_lan
        flight.now.flight.carried }
    ensures { IfOk result (IsBehindIn whole view.now.domain.topology (net_in view.now) own
        flight.now.flight None) }
{
    let strays = other_leaks(alloc, view, own, flight.strays())?;
    let open_routers = routers_with_open_rows(alloc, view, flight.strays())?;
    let missed = missed_unless_open(alloc, view, whole, &open_routers, first_copies)?;
    Ok(Behind {
        finding: None,
        causes: Vec::new(alloc),
        shown_from: None,
        strays,
        open_routers,
        missed,
    })
}

/// What is behind the stray at this interface of a packet of the flow with this number, counted from 0,
/// sent with TTL 255: the run that finds the stray goes on, its strays are collected, until a LAN carried
/// two copies or no copy waits. `whole` says that no router is excluded. The time is that of such a run,
/// and in proportion to the number of LANs.
///
/// # Errors
///
/// `Memory` if an allocation fails.
pub fn behind_stray(
    alloc: Global,
    domain: &Domain,
    whole: bool,
    flow: u32,
    own: Stray,
) -> Result<Behind, Memory>
    requires flow { flow < length domain.now.topology.flows }
    ensures behind { IfOk result (IsBehind whole domain.now flow own) }
{
    let view = FlowView::new(domain, flow);
    let past = run_past_strays(alloc, domain, flow, 255)?;
    let first_copies = FirstCopies::new(alloc, &view, past.flight.copies())?;
    let flight = &past.flight;
    match first_copies.second {
        Some(second) => behind_with_second(
            alloc,
            &view,
            flight,
            &first_copies,
            &second,
            past.second,
        ),
        None => behind_without_second(alloc, &view, whole, own, flight, &first_copies),
    }
}
