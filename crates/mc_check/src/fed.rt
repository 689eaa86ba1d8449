//! Checks that each entry's forwarder sends onto its LAN.

ghost use Rattle.std.specs.Prelude.{◌≡◌, All, IsTrue, None, Some, []};
ghost use Rattle.mc_theory.specs.Certificates.{is_live};
ghost use Rattle.mc_theory.specs.Reasons.{feeds_from, first_of, is_fed, row_feeds, twice, unless};
ghost use Rattle.mc_theory.specs.Reasons.Reason.{Unfed};
ghost use Rattle.mc_tables.specs.CacheTable.{IsValidEntry};
ghost use Rattle.mc_forward.specs.Domains.{oif_pairs};
ghost use Rattle.mc_forward.specs.FlightsInDomain.{net_in};
ghost use Rattle.mc_check.specs.FedLans.{AreFed, NeedsNoFeedOrIsMarked};
ghost use Rattle.mc_check.specs.Reasons.{optional_reason_value};

use crate::entries_by_lan::EntriesByLan;
use crate::verdict::Reason;
use mc_cert::Reached;
use mc_forward::{FlowView, RowFor, outgoing_from};
use mc_tables::{Entry, Oif};
use mc_topology::RouterNo;

/// Whether a packet sent with TTL 255 is above an oif's threshold where it reached `base`'s LAN.
pub(crate) fn is_live(base: &Reached, oif: &Oif) -> bool
    ensures { result ≡ is_live base.now.rank oif.now.threshold }
{
    u16::from(base.rank) + u16::from(oif.threshold) < 255
}

/// Whether a table entry forwards copies from `base`'s LAN out of a vif.
fn feeds(base: &Reached, vif: u8, entry: &Entry<'_>) -> bool
    requires valid { IsValidEntry entry.now }
    ensures value { result ≡ feeds_from vif (oif_pairs entry.now.oifs) (Some base.now) }
{
    for oif in outgoing_from(entry, vif) {
        if oif.vif == vif && is_live(base, oif) {
            return true;
        }
    }
    false
}

/// Whether a router forwards copies from a named LAN out of a vif.
fn row_feeds(view: &FlowView<'_>, by_lan: &EntriesByLan<'_>, router: RouterNo, vif: u8) -> bool
    ensures { result ≡ row_feeds (net_in view.now) by_lan.now router vif
        ((net_in view.now).row router) }
{
    match view.row(router) {
        RowFor::Exact(entry) => match by_lan.at(view.placed(router, entry.iif)) {
            Some(base) => feeds(&base, vif, &entry),
            None => false,
        },
        RowFor::Open | RowFor::NoRow => false,
    }
}

/// Whether an entry has no forwarder, or one that sends onto its LAN.
fn is_fed(view: &FlowView<'_>, by_lan: &EntriesByLan<'_>, entry: &Reached) -> bool
    ensures { result ≡ is_fed (net_in view.now) by_lan.now entry.now.lan entry.now.forwarder }
{
    match entry.forwarder {
        Some((router, vif)) => {
            row_feeds(view, by_lan, router, vif) && view.placed(router, vif) == Some(entry.lan)
        }
        None => true,
    }
}

/// Whether each entry has no forwarder, or is of a LAN that is marked as fed.
fn are_all_marked(entries: &[Reached], fed: &[bool]) -> bool
    ensures { IsTrue result → All (NeedsNoFeedOrIsMarked fed.now) entries.now }
{
    for entry in entries {
        let marked = match fed.get(entry.lan.0 as usize) {
            Some(mark) => *mark,
            None => false,
        };
        if !marked && entry.forwarder.is_some() {
            return false;
        }
    }
    true
}

/// The first entry that isn't fed, as a reason. Those of LANs that are marked are.
pub(crate) fn unmarked_reason(
    view: &FlowView<'_>,
    by_lan: &EntriesByLan<'_>,
    fed: &[bool],
) -> Option<Reason>
    requires distinct { twice [] by_lan.now ≡ None }
    requires fed { AreFed (net_in view.now) by_lan.now fed.now }
    ensures { optional_reason_value result ≡ first_of (λ entry.
        unless (is_fed (net_in view.now) by_lan.now entry.lan entry.forwarder) (Unfed entry.lan))
        by_lan.now }
{
    if are_all_marked(by_lan.entries(), fed) {
        return None;
    }
    unfed_reason(view, by_lan)
}

/// The first entry that isn't fed, as a reason.
fn unfed_reason(view: &FlowView<'_>, by_lan: &EntriesByLan<'_>) -> Option<Reason>
    ensures { optional_reason_value result ≡ first_of (λ entry.
        unless (is_fed (net_in view.now) by_lan.now entry.lan entry.forwarder) (Unfed entry.lan))
        by_lan.now }
{
    for entry in by_lan.entries() {
        if !is_fed(view, by_lan, entry) {
            return Some(Reason::Unfed(entry.lan));
        }
    }
    None
}
