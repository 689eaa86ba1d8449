//! The certificate entries of a clean travel at TTL 255: one for each copy that it carried, stored by
//! the copy's LAN.

ghost use Rattle.std.specs.Prelude.{◌≡◌, ◌<◌, ◌≤◌, All, IfOk, Some, [], length};
ghost use Rattle.mc_theory.specs.CertificateOfCopies.{entries_of, need_over};
ghost use Rattle.mc_maker.specs.EntriesByLan.{AreEntriesByLan, entry_by_held_entries};
ghost use Rattle.mc_maker.specs.EntriesByLan.{held_entry_at, held_entries, need_by_held_entries};
ghost use Rattle.mc_forward.specs.FlightsInDomain.{net_in};

use mc_cert::Reached;
use mc_forward::{CarriedCopy, FlowWithRows, PerLan, RowFor, threshold_of};
use mc_text::Memory;
use mc_topology::{LanNo, RouterNo};
use std::alloc::Global;

/// The entry of the LAN that a vif is placed on, if both are there.
pub(crate) fn entry_at(by_lan: &PerLan<Reached>, place: Option<LanNo>) -> Option<Reached>
    ensures { result ≡ held_entry_at by_lan.now place }
{
    match place {
        Some(lan) => by_lan.on(lan),
        None => None,
    }
}

/// The least TTL with which packets pass an oif with this threshold, from a LAN with this entry.
fn need_over(threshold: u8, base: Option<Reached>) -> u8
    requires bounded { need_over threshold base ≤ 255 }
    ensures value { result ≡ need_over threshold base }
{
    match base {
        Some(base) => base.need.max(base.rank + threshold + 1),
        None => 1,
    }
}

/// The least TTL with which packets leave a router by a vif.
fn need_at_vif(flow: &FlowWithRows<'_>, by_lan: &PerLan<Reached>, router: RouterNo, vif: u8) -> u8
    requires bounded { need_by_held_entries (net_in flow.now) by_lan.now (Some (router, vif)) ≤ 255 }
    ensures value { result ≡ need_by_held_entries (net_in flow.now) by_lan.now (Some (router, vif)) }
{
    match flow.row(router) {
        RowFor::Exact(entry) => {
            let threshold = threshold_of(vif, &entry);
            need_over(
                threshold,
                entry_at(by_lan, flow.view().placed(router, entry.iif)),
            )
        }
        RowFor::Open | RowFor::NoRow => 1,
    }
}

/// The least TTL with which packets reach the LAN of a copy with this sender; 1 without a sender, on
/// the source's LAN.
fn need_of_sender(
    flow: &FlowWithRows<'_>,
    by_lan: &PerLan<Reached>,
    sender: Option<(RouterNo, u8)>,
) -> u8
    requires bounded { need_by_held_entries (net_in flow.now) by_lan.now sender ≤ 255 }
    ensures value { result ≡ need_by_held_entries (net_in flow.now) by_lan.now sender }
{
    match sender {
        Some((router, vif)) => need_at_vif(flow, by_lan, router, vif),
        None => 1,
    }
}

/// The entry of a copy, by the entries of the copies before it.
fn entry_of_copy(flow: &FlowWithRows<'_>, by_lan: &PerLan<Reached>, copy: &CarriedCopy) -> Reached
    requires bounded { need_by_held_entries (net_in flow.now) by_lan.now copy.now.sender ≤ 255 }
    ensures value { result ≡ entry_by_held_entries (net_in flow.now) by_lan.now copy.now }
{
    Reached {
        lan: copy.lan,
        rank: 255 - copy.ttl,
        need: need_of_sender(flow, by_lan, copy.sender),
        forwarder: copy.sender,
    }
}

/// Stores the entry of each copy by its LAN, unless the LAN has one.
fn put_entries(flow: &FlowWithRows<'_>, by_lan: &mut PerLan<Reached>, copies: &[CarriedCopy])
    requires empty { AreEntriesByLan by_lan.old [] }
    requires lans { All (λ copy. copy.lan < length by_lan.old) copies.now }
    requires needs { All (λ entry. entry.need ≤ 255) (entries_of (net_in flow.now) copies.now) }
    ensures entries { AreEntriesByLan by_lan.new (entries_of (net_in flow.now) copies.now) }
{
    for copy in copies {
        let entry = entry_of_copy(flow, by_lan, copy);
        let _free = by_lan.put_first(entry.lan, entry);
    }
}

/// The entries of the copies that a travel at TTL 255 carried, stored by their LANs.
pub(crate) fn entries_by_lan(
    alloc: Global,
    flow: &FlowWithRows<'_>,
    copies: &[CarriedCopy],
) -> Result<PerLan<Reached>, Memory>
    requires lans { All (λ copy. copy.lan < length flow.now.domain.topology.lans) copies.now }
    requires needs { All (λ entry. entry.need ≤ 255) (entries_of (net_in flow.now) copies.now) }
    ensures ok { IfOk result (λ by_lan.
        AreEntriesByLan by_lan (entries_of (net_in flow.now) copies.now)) }
{
    let mut by_lan = PerLan::new(alloc, flow.view().lans())?;
    put_entries(flow, &mut by_lan, copies);
    Ok(by_lan)
}

/// The entries by ascending numbers of their LANs, in a vector with room for `count` entries from the
/// start.
pub(crate) fn entries_in_lan_order(
    alloc: Global,
    by_lan: &PerLan<Reached>,
    count: usize,
) -> Result<Vec<Reached>, Memory>
    ensures { IfOk result (λ entries. entries.items ≡ held_entries by_lan.now) }
{
    let mut entries = Vec::with_capacity(alloc, count)?;
    for place in by_lan.places() {
        if let Some(entry) = place {
            entries.push(*entry)?;
        }
    }
    Ok(entries)
}
