//! From which TTL on packets show the finding of a travel.

ghost use Rattle.std.specs.Prelude.{◌≡◌, ◌<◌, ◌≤◌, [], IfOk, IfSome, length};
ghost use Rattle.mc_theory.specs.Findings.{first_double};
ghost use Rattle.mc_forward.specs.Domains.{net_of};
ghost use Rattle.mc_forward.specs.FlightsInDomain.{net_in};
ghost use Rattle.mc_forward.specs.PerLan.{HoldsFirstOfEachKey};
ghost use Rattle.mc_replay.specs.FindingValues.{finding_value};
ghost use Rattle.mc_maker.specs.ExaminedFlights.{IsFinishedTravelOf};
ghost use Rattle.mc_explain.specs.ShownNeed.{IsShownFromIfAny, hops_from_lan_if_any, hops_of_copy_if_any};
ghost use Rattle.mc_explain.specs.ShownNeed.{need_behind, need_of_finding, need_of_stray, need_of_two_copies};

use crate::causes::hop::Hop;
use crate::causes::path::{hops_back, need};
use mc_forward::{CarriedCopy, Domain, FlowView, RowFor, threshold_of};
use mc_replay::{Finding, FinishedTravel};
use mc_search::FirstCopies;
use mc_text::Memory;
use mc_topology::{LanNo, RouterNo};
use std::alloc::Global;

/// The hops by which a copy came, if there is one, the last one first.
fn hops_of_copy_if_any(
    alloc: Global,
    view: &FlowView<'_>,
    copies: &[CarriedCopy],
    first_copies: &FirstCopies,
    copy: Option<CarriedCopy>,
) -> Result<Vec<Hop>, Memory>
    requires first_copies { HoldsFirstOfEachKey (λ copy. copy.lan) first_copies.now.by_lan copies.now }
    ensures { IfOk result (λ hops. hops.items ≡ hops_of_copy_if_any (net_in view.now) copies.now copy) }
{
    match copy {
        Some(copy) => hops_back(alloc, view, copies, first_copies, &copy),
        None => Ok(Vec::new(alloc)),
    }
}

/// The hops by which the first copy on a LAN came, if there is one.
fn hops_from_lan_if_any(
    alloc: Global,
    view: &FlowView<'_>,
    copies: &[CarriedCopy],
    first_copies: &FirstCopies,
    lan: Option<LanNo>,
) -> Result<Vec<Hop>, Memory>
    requires first_copies { HoldsFirstOfEachKey (λ copy. copy.lan) first_copies.now.by_lan copies.now }
    ensures { IfOk result (λ hops. hops.items ≡ hops_from_lan_if_any (net_in view.now) copies.now lan) }
{
    match lan {
        Some(lan) => {
            let first = first_copies.on(lan);
            hops_of_copy_if_any(alloc, view, copies, first_copies, first)
        }
        None => Ok(Vec::new(alloc)),
    }
}

/// The need of hops, and of a threshold behind them.
fn need_behind(hops: &[Hop], threshold: u8) -> u8
    requires bounded { need_behind hops.now threshold ≤ 255 }
    ensures { result ≡ need_behind hops.now threshold }
{
    let behind = hops.len() + usize::from(threshold) + 1;
    need(hops).max(behind as u8)
}

/// The greater need of the LAN's first copy and of the first duplicate.
pub(crate) fn need_of_two_copies(
    alloc: Global,
    view: &FlowView<'_>,
    copies: &[CarriedCopy],
    first_copies: &FirstCopies,
    lan: LanNo,
) -> Result<u8, Memory>
    requires first_copies { HoldsFirstOfEachKey (λ copy. copy.lan) first_copies.now.by_lan copies.now }
    requires second { first_copies.now.second ≡ first_double [] copies.now }
    requires bounded { need_of_two_copies (net_in view.now) copies.now lan ≤ 255 }
    ensures { IfOk result (λ least. least ≡ need_of_two_copies (net_in view.now) copies.now lan) }
{
    let first = hops_from_lan_if_any(alloc, view, copies, first_copies, Some(lan))?;
    let second = hops_of_copy_if_any(alloc, view, copies, first_copies, first_copies.second)?;
    Ok(need(&first).max(need(&second)))
}

/// The need of the copy that a router's row sent by a vif, or that came in by it and found only a row for
/// every source.
fn need_of_stray(
    alloc: Global,
    view: &FlowView<'_>,
    copies: &[CarriedCopy],
    first_copies: &FirstCopies,
    router: RouterNo,
    vif: u8,
) -> Result<u8, Memory>
    requires first_copies { HoldsFirstOfEachKey (λ copy. copy.lan) first_copies.now.by_lan copies.now }
    requires bounded { need_of_stray (net_in view.now) copies.now ((net_in view.now).row router) router
        vif ≤ 255 }
    ensures { IfOk result (λ least. least ≡ need_of_stray (net_in view.now) copies.now
        ((net_in view.now).row router) router vif) }
{
    match view.row(router) {
        RowFor::Exact(entry) => {
            let threshold = threshold_of(vif, &entry);
            let from = view.placed(router, entry.iif);
            let hops = hops_from_lan_if_any(alloc, view, copies, first_copies, from)?;
            Ok(need_behind(&hops, threshold))
        }
        RowFor::Open => {
            let on = view.placed(router, vif);
            let hops = hops_from_lan_if_any(alloc, view, copies, first_copies, on)?;
            Ok(need(&hops))
        }
        RowFor::NoRow => Ok(1),
    }
}

/// The need of a travel's finding, if it rests on a second copy or a stray.
fn need_of_finding(
    alloc: Global,
    view: &FlowView<'_>,
    ended: &FinishedTravel<'_>,
) -> Result<Option<u8>, Memory>
    requires domain { ended.now.flight.domain ≡ view.now.domain }
    requires bounded { IfSome (need_of_finding (net_in view.now) ended.now.flight.flight.carried
        (finding_value ended.now.travel.finding)) (λ least. least ≤ 255) }
    ensures { IfOk result (λ shown. shown ≡ need_of_finding (net_in view.now)
        ended.now.flight.flight.carried (finding_value ended.now.travel.finding)) }
{
    let copies = ended.flight.copies();
    let first_copies = FirstCopies::new(alloc, view, copies)?;
    match ended.travel.finding {
        Finding::Duplicate(lan) | Finding::Loop(lan) => {
            let least = need_of_two_copies(alloc, view, copies, &first_copies, lan)?;
            Ok(Some(least))
        }
        Finding::Stray(router, vif) => {
            let least = need_of_stray(alloc, view, copies, &first_copies, router, vif)?;
            Ok(Some(least))
        }
        Finding::Clean | Finding::Missed(_) => Ok(None),
    }
}

/// The TTL from which on packets show the finding of a flow's travel at TTL 255: each packet that is sent
/// with it or with more carries two copies on the LAN of a loop or a duplicate, or makes the stray, unless
/// one of its copies is lost. None for a missed LAN, and where nothing is found. `flow` counts from 0. The
/// time is in proportion to the number of LANs and of copies.
///
/// # Errors
///
/// `Memory` if an allocation fails.
pub fn shown_from(
    alloc: Global,
    domain: &Domain,
    flow: u32,
    ended: &FinishedTravel<'_>,
) -> Result<Option<u8>, Memory>
    requires flow { flow < length domain.now.topology.flows }
    requires ended { IsFinishedTravelOf domain.now flow 255 ended.now }
    ensures shown { IfOk result (IsShownFromIfAny (net_of domain.now flow)
        ended.now.flight.flight.carried (finding_value ended.now.travel.finding)) }
{
    let view = FlowView::new(domain, flow);
    need_of_finding(alloc, &view, ended)
}
