//! Checks the entry of the source's LAN, and that each LAN that wants the flow is served.

ghost use Rattle.std.specs.Prelude.{◌≡◌, ◌==◌, ◌||◌, ◌<◌, IsTrue, None, is_some, length};
ghost use Rattle.std.specs.List.{list_all};
ghost use Rattle.mc_theory.specs.Lists.{below};
ghost use Rattle.mc_theory.specs.Reasons.{entry_on, first_of, has_source};
ghost use Rattle.mc_theory.specs.Reasons.{is_source_entry, lan_reason};
ghost use Rattle.mc_forward.specs.FlightsInDomain.{net_in};
ghost use Rattle.mc_check.specs.Reasons.{optional_reason_value};

use crate::entries_by_lan::EntriesByLan;
use crate::verdict::Reason;
use mc_cert::Reached;
use mc_forward::FlowView;
use mc_topology::LanNo;

/// Whether a LAN has the source's entry: rank 0, need 1, no forwarder.
fn is_source_entry(by_lan: &EntriesByLan<'_>, lan: LanNo) -> bool
    ensures { result ≡ is_source_entry (entry_on by_lan.now lan) }
{
    match by_lan.on(lan) {
        Some(entry) => entry.rank == 0 && entry.need == 1 && entry.forwarder.is_none(),
        None => false,
    }
}

/// Whether each entry of another LAN has a forwarder.
fn others_are_forwarded(entries: &[Reached], lan: LanNo) -> bool
    ensures { result
        ≡ list_all (λ entry. (entry.lan == lan) || is_some entry.forwarder) entries.now }
{
    for entry in entries {
        if entry.lan != lan && entry.forwarder.is_none() {
            return false;
        }
    }
    true
}

/// Whether the source's LAN has the source's entry, and every other entry a forwarder.
pub(crate) fn has_source(view: &FlowView<'_>, by_lan: &EntriesByLan<'_>) -> bool
    ensures { result ≡ has_source (net_in view.now) by_lan.now }
{
    let source = view.source();
    is_source_entry(by_lan, source) && others_are_forwarded(by_lan.entries(), source)
}

/// Why a LAN that wants the flow doesn't get it, if it doesn't.
fn lan_reason(view: &FlowView<'_>, by_lan: &EntriesByLan<'_>, lan: LanNo) -> Option<Reason>
    requires known { lan < length view.now.domain.topology.lans }
    ensures reason { optional_reason_value result ≡ lan_reason (net_in view.now) by_lan.now lan }
{
    if !view.wants(lan) {
        return None;
    }
    match by_lan.on(lan) {
        Some(entry) if entry.need > view.ttl() => Some(Reason::Low(lan)),
        Some(_) => None,
        None => Some(Reason::Missed(lan)),
    }
}

/// Whether a LAN gets the flow, or doesn't want it.
fn is_served(view: &FlowView<'_>, by_lan: &EntriesByLan<'_>, lan: LanNo) -> bool
    requires known { lan < length view.now.domain.topology.lans }
    ensures sound { IsTrue result → lan_reason (net_in view.now) by_lan.now lan ≡ None }
{
    let reaches = match by_lan.on(lan) {
        Some(entry) => entry.need <= view.ttl(),
        None => false,
    };
    !view.wants(lan) | reaches
}

/// Whether all LANs that want the flow get it. It tests every LAN without a branch, since a processor
/// predicts badly which of them want a flow.
fn all_are_served(view: &FlowView<'_>, by_lan: &EntriesByLan<'_>) -> bool
    ensures { IsTrue result → first_of (lan_reason (net_in view.now) by_lan.now)
        (below (length view.now.domain.topology.lans)) ≡ None }
{
    let mut all = true;
    for number in 0..view.lans() {
        all &= is_served(view, by_lan, LanNo(number));
    }
    all
}

/// The first LAN that wants the flow and doesn't get it, as a reason.
pub(crate) fn lans_reason(view: &FlowView<'_>, by_lan: &EntriesByLan<'_>) -> Option<Reason>
    ensures { optional_reason_value result ≡ first_of (lan_reason (net_in view.now) by_lan.now)
        (below (length view.now.domain.topology.lans)) }
{
    if all_are_served(view, by_lan) {
        return None;
    }
    for number in 0..view.lans() {
        if let Some(reason) = lan_reason(view, by_lan, LanNo(number)) {
            return Some(reason);
        }
    }
    None
}
