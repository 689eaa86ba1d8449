//! The finding of a flight, if it has one.

ghost use Rattle.std.specs.Prelude.{◌≡◌, ◌<◌, List, [], is_some, length};
ghost use Rattle.mc_theory.specs.Lists.{below};
ghost use Rattle.mc_theory.specs.Flights.{Copy};
ghost use Rattle.mc_theory.specs.Findings.{first_double, finding, walk_visits, missed};
ghost use Rattle.mc_forward.specs.PerLan.{HoldsFirstOfEachKey};
ghost use Rattle.mc_replay.specs.FindingValues.{HasItemWhereCarried, optional_finding_value};
ghost use Rattle.mc_forward.specs.FlightsInDomain.{net_in};

use crate::finding::Finding;
use mc_forward::{CarriedCopy, Flight, FlowView, PerLan, sender_on};
use mc_topology::LanNo;

/// Whether the walk back from a copy to the source visits the copy's own LAN. Each step goes to the
/// first copy on the LAN that the sender took its copy from. The walk reaches the source's copy in
/// fewer steps than there are copies.
pub(crate) fn walk_back_reaches_own_lan(
    view: &FlowView<'_>,
    copies: &[CarriedCopy],
    firsts: &PerLan<CarriedCopy>,
    copy: &CarriedCopy,
) -> bool
    requires firsts { HoldsFirstOfEachKey (λ copy. copy.lan) firsts.now copies.now }
    ensures value { result ≡ walk_visits (net_in view.now) copies.now copy.now.lan (length copies.now)
        copy.now.sender }
{
    let mut sender = copy.sender;
    for _step in copies {
        let Some(lan) = view.from_lan(sender) else {
            return false;
        };
        if lan == copy.lan {
            return true;
        }
        sender = sender_on(firsts, lan);
    }
    false
}

/// Whether some LAN wants the flow and carried no copy, by what there is of each LAN that carried one. It
/// tests every LAN without a branch, since a processor predicts badly which of them want a flow.
pub fn misses_any_lan<T: Copy>(view: &FlowView<'_>, firsts: &PerLan<T>) -> bool
    ensures { (copies : List Copy) → HasItemWhereCarried firsts.now copies → result ≡
        is_some (missed (net_in view.now) copies
        (below (length view.now.domain.topology.lans))) }
{
    let mut some = false;
    for number in 0..view.lans() {
        let lan = LanNo(number);
        some |= view.wants(lan) & firsts.on(lan).is_none();
    }
    some
}

/// The lowest LAN that wants the flow and carried no copy.
pub(crate) fn missed(view: &FlowView<'_>, firsts: &PerLan<CarriedCopy>) -> Option<LanNo>
    ensures { (copies : List Copy) → HoldsFirstOfEachKey (λ copy. copy.lan) firsts.now copies → result ≡
        missed (net_in view.now) copies
        (below (length view.now.domain.topology.lans)) }
{
    if !misses_any_lan(view, firsts) {
        return None;
    }
    for number in 0..view.lans() {
        let lan = LanNo(number);
        if view.wants(lan) && firsts.on(lan).is_none() {
            return Some(lan);
        }
    }
    None
}

/// The finding of a flight, by the first copy on each LAN and by the first second copy on a LAN; none
/// if the flight goes on.
pub(crate) fn finding_of(
    view: &FlowView<'_>,
    flight: &Flight<'_>,
    firsts: &PerLan<CarriedCopy>,
    second: Option<CarriedCopy>,
) -> Option<Finding>
    requires firsts { HoldsFirstOfEachKey (λ copy. copy.lan) firsts.now flight.now.flight.carried }
    requires second { second ≡ first_double [] flight.now.flight.carried }
    ensures finding { optional_finding_value result ≡ finding (net_in view.now)
        (length view.now.domain.topology.lans) flight.now.flight }
{
    if let Some(copy) = second {
        if walk_back_reaches_own_lan(view, flight.copies(), firsts, &copy) {
            return Some(Finding::Loop(copy.lan));
        }
        return Some(Finding::Duplicate(copy.lan));
    }
    if let Some(stray) = flight.strays().first() {
        return Some(Finding::Stray(stray.router, stray.vif));
    }
    if flight.waiting() > 0 {
        return None;
    }
    match missed(view, firsts) {
        Some(lan) => Some(Finding::Missed(lan)),
        None => Some(Finding::Clean),
    }
}
