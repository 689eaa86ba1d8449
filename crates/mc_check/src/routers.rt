//! Checks the routers' table entries: each oif that sends must lead to an entry of the list. What it leads to
//! is fed, and is marked.

ghost use Rattle.std.specs.Prelude.{◌≡◌, ◌+◌, ◌<◌, ℕ, Some, length, true};
ghost use Rattle.mc_theory.specs.Certificates.{is_live as is_live_pair};
ghost use Rattle.mc_theory.specs.Lists.{below};
ghost use Rattle.mc_theory.specs.Reasons.{child_reason, entry_on, first_of, pair_reason};
ghost use Rattle.mc_theory.specs.Reasons.{feeds_from, open_row_reason, row_feeds, row_reason};
ghost use Rattle.mc_forward.specs.Domains.{oif_pairs};
ghost use Rattle.mc_forward.specs.FlightsInDomain.{net_in};
ghost use Rattle.mc_check.specs.FedLans.{AreFed};
ghost use Rattle.mc_check.specs.Reasons.{optional_reason_value};

use crate::entries_by_lan::EntriesByLan;
use crate::fed::is_live;
use crate::verdict::Reason;
use mc_cert::Reached;
use mc_forward::{FlowView, RowFor};
use mc_tables::{MAX_VIFS, Oif};
use mc_topology::{LanNo, RouterNo};

/// Why a LAN's entry isn't the one that follows from a router's oif onto it, if it isn't. The router
/// takes the flow from `base`'s LAN.
fn child_reason(
    by_lan: &EntriesByLan<'_>,
    base: &Reached,
    router: RouterNo,
    oif: &Oif,
    lan: LanNo,
) -> Option<Reason>
    requires live { base.now.rank + oif.now.threshold < 255 }
    ensures reason { optional_reason_value result ≡ child_reason base.now router
        (oif.now.vif, oif.now.threshold)
        lan (entry_on by_lan.now lan) }
{
    let extra = Some(Reason::Extra(router, oif.vif, lan));
    let Some(entry) = by_lan.on(lan) else {
        return extra;
    };
    if entry.forwarder != Some((router, oif.vif)) {
        return extra;
    }
    if entry.rank != base.rank + 1 {
        return Some(Reason::WrongRank(lan));
    }
    if entry.need != base.need.max(base.rank + oif.threshold + 1) {
        return Some(Reason::WrongNeed(lan));
    }
    None
}

/// What is wrong with a live oif of a router that takes the flow from `base`'s LAN. The LAN that it sends
/// onto is marked as fed where nothing is.
fn live_pair_reason(
    view: &FlowView<'_>,
    by_lan: &EntriesByLan<'_>,
    base: &Reached,
    router: RouterNo,
    oif: &Oif,
    fed: &mut Vec<bool>,
) -> Option<Reason>
    requires lans { length fed.old.items ≡ length view.now.domain.topology.lans }
    requires live { is_live_pair base.now.rank oif.now.threshold ≡ true }
    requires feeds { row_feeds (net_in view.now) by_lan.now router oif.now.vif
        ((net_in view.now).row router) ≡ true }
    requires fed { AreFed (net_in view.now) by_lan.now fed.old.items }
    ensures reason { optional_reason_value result ≡ pair_reason (net_in view.now) by_lan.now base.now router
        (oif.now.vif, oif.now.threshold) }
    ensures lans { length fed.new.items ≡ length view.now.domain.topology.lans }
    ensures fed { AreFed (net_in view.now) by_lan.now fed.new.items }
{
    let Some(lan) = view.placed(router, oif.vif) else {
        return Some(Reason::Stray(router, oif.vif));
    };
    if let Some(reason) = child_reason(by_lan, base, router, oif, lan) {
        return Some(reason);
    }
    fed[lan.0 as usize] = true;
    None
}

/// What is wrong with an oif of a router that takes the flow from `base`'s LAN. The LAN that a live oif
/// sends onto is marked as fed where nothing is.
fn pair_reason(
    view: &FlowView<'_>,
    by_lan: &EntriesByLan<'_>,
    base: &Reached,
    router: RouterNo,
    oif: &Oif,
    fed: &mut Vec<bool>,
) -> Option<Reason>
    requires lans { length fed.old.items ≡ length view.now.domain.topology.lans }
    requires feeds { is_live_pair base.now.rank oif.now.threshold ≡ true
        → row_feeds (net_in view.now) by_lan.now router oif.now.vif ((net_in view.now).row router) ≡ true }
    requires fed { AreFed (net_in view.now) by_lan.now fed.old.items }
    ensures reason { optional_reason_value result ≡ pair_reason (net_in view.now) by_lan.now base.now router
        (oif.now.vif, oif.now.threshold) }
    ensures lans { length fed.new.items ≡ length view.now.domain.topology.lans }
    ensures fed { AreFed (net_in view.now) by_lan.now fed.new.items }
{
    if !is_live(base, oif) {
        return None;
    }
    live_pair_reason(view, by_lan, base, router, oif, fed)
}

/// The first thing that is wrong with the oifs of a router that takes the flow from `base`'s LAN. The LANs
/// that they feed are marked.
fn pairs_reason(
    view: &FlowView<'_>,
    by_lan: &EntriesByLan<'_>,
    base: &Reached,
    router: RouterNo,
    oifs: &[Oif],
    fed: &mut Vec<bool>,
) -> Option<Reason>
    requires lans { length fed.old.items ≡ length view.now.domain.topology.lans }
    requires row { (vif : ℕ) → row_feeds (net_in view.now) by_lan.now router vif
        ((net_in view.now).row router) ≡ feeds_from vif (oif_pairs oifs.now) (Some base.now) }
    requires fed { AreFed (net_in view.now) by_lan.now fed.old.items }
    ensures reason { optional_reason_value result
        ≡ first_of (pair_reason (net_in view.now) by_lan.now base.now router)
        (oif_pairs oifs.now) }
    ensures lans { length fed.new.items ≡ length view.now.domain.topology.lans }
    ensures fed { AreFed (net_in view.now) by_lan.now fed.new.items }
{
    for oif in oifs {
        if let Some(reason) = pair_reason(view, by_lan, base, router, oif, fed) {
            return Some(reason);
        }
    }
    None
}

/// The lowest vif on a named LAN, as a reason, of a router that has a wildcard entry alone.
fn wildcard_reason(
    view: &FlowView<'_>,
    by_lan: &EntriesByLan<'_>,
    router: RouterNo,
) -> Option<Reason>
    ensures { optional_reason_value result ≡ first_of (open_row_reason (net_in view.now) by_lan.now router)
        (below 32) }
{
    for vif in 0..MAX_VIFS {
        if by_lan.at(view.placed(router, vif)).is_some() {
            return Some(Reason::Wildcard(router, vif));
        }
    }
    None
}

/// The first thing that is wrong with a router. The LANs that it feeds are marked.
fn router_reason(
    view: &FlowView<'_>,
    by_lan: &EntriesByLan<'_>,
    router: RouterNo,
    fed: &mut Vec<bool>,
) -> Option<Reason>
    requires lans { length fed.old.items ≡ length view.now.domain.topology.lans }
    requires fed { AreFed (net_in view.now) by_lan.now fed.old.items }
    ensures reason { optional_reason_value result ≡ row_reason (net_in view.now) by_lan.now router
        ((net_in view.now).row router) }
    ensures lans { length fed.new.items ≡ length view.now.domain.topology.lans }
    ensures fed { AreFed (net_in view.now) by_lan.now fed.new.items }
{
    match view.row(router) {
        RowFor::Exact(entry) => match by_lan.at(view.placed(router, entry.iif)) {
            Some(base) => pairs_reason(view, by_lan, &base, router, entry.oifs, fed),
            None => None,
        },
        RowFor::Open => wildcard_reason(view, by_lan, router),
        RowFor::NoRow => None,
    }
}

/// The first thing that is wrong with the routers. LANs that they feed are marked, and no others.
pub(crate) fn routers_reason(
    view: &FlowView<'_>,
    by_lan: &EntriesByLan<'_>,
    fed: &mut Vec<bool>,
) -> Option<Reason>
    requires lans { length fed.old.items ≡ length view.now.domain.topology.lans }
    requires fed { AreFed (net_in view.now) by_lan.now fed.old.items }
    ensures reason { optional_reason_value result ≡ first_of (λ router.
        row_reason (net_in view.now) by_lan.now router ((net_in view.now).row router))
        (below (net_in view.now).routers) }
    ensures fed { AreFed (net_in view.now) by_lan.now fed.new.items }
{
    for number in 0..view.routers() {
        if let Some(reason) = router_reason(view, by_lan, RouterNo(number), fed) {
            return Some(reason);
        }
    }
    None
}
