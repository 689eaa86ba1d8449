//! What a search reads, and what it asks of the routers on a LAN.

ghost use Rattle.std.specs.Prelude.{◌≡◌, ◌<◌, length};
ghost use Rattle.std.specs.List.{list_any};
ghost use Rattle.mc_tables.specs.CacheTable.{IsValidEntry};
ghost use Rattle.mc_forward.specs.Domains.{oif_pairs, vif_of};
ghost use Rattle.mc_search.specs.LanProbe.{IsLanProbe, search_in};
ghost use Rattle.mc_search.specs.SearchLine.{every_source_from, is_excluded, is_expecting, is_unresolved};
ghost use Rattle.mc_search.specs.SearchLine.{is_virtual, may_send_here, next_lan, routers_on};
ghost use Rattle.mc_search.specs.SearchLine.{row_for_every_source, sends_by_known_vif, sends_here};

use crate::excluded::is_excluded;
use crate::first_copies::FirstCopies;
use crate::interfaces_of_lans::InterfacesOfLans;
use crate::listed_interface::ListedInterface;
use crate::routers_on_lan::RoutersOnLan;
use crate::search_line::SearchLine;
use mc_forward::{FlowView, RowFor, threshold_of};
use mc_tables::{CacheSummary, Entry};
use mc_topology::{LanNo, RouterNo};

/// What a search reads: a flow of a domain, the summaries of the routers' caches, which routers are
/// excluded, the topology's interfaces on each LAN, and the first copy on each LAN.
#[derive(Clone, Copy, Drop)]
pub(crate) struct LanProbe<'s> {
    pub(crate) view: &'s FlowView<'s>,
    pub(crate) summary: &'s [CacheSummary],
    pub(crate) excluded: &'s [bool],
    pub(crate) interfaces: &'s InterfacesOfLans,
    pub(crate) first_copies: &'s FirstCopies,
}

/// Whether there is a vif and an entry sends by it.
fn sends_by_known_vif(entry: &Entry<'_>, vif: Option<u8>) -> bool
    requires valid { IsValidEntry entry.now }
    ensures value { result ≡ sends_by_known_vif vif (oif_pairs entry.now.oifs) }
{
    match vif {
        Some(vif) => threshold_of(vif, entry) != 0,
        None => false,
    }
}

impl<'s> LanProbe<'s> {
    /// Whether a router is excluded.
    pub(crate) fn is_excluded(&self, router: RouterNo) -> bool
        ensures { result ≡ is_excluded self.now.excluded.now router }
    {
        is_excluded(self.excluded, router)
    }

    /// Whether a router's cache has an unresolved row for the flow.
    pub(crate) fn is_unresolved(&self, router: RouterNo) -> bool
        requires valid { IsLanProbe self.now }
        ensures value { result ≡ is_unresolved (search_in self.now) router }
    {
        match self.summary.get(router.0 as usize) {
            Some(summary) => {
                let flow = self.view.flow();
                summary.is_unresolved(flow.source, flow.group)
            }
            None => false,
        }
    }

    /// Whether a router's vif is a tunnel or a register vif.
    pub(crate) fn is_virtual(&self, router: RouterNo, vif: u8) -> bool
        ensures { result ≡ is_virtual (vif_of self.now.view.now.domain.vifs router vif) }
    {
        match self.view.vif(router, vif) {
            Some(found) => found.tunnel() || found.register(),
            None => false,
        }
    }

    /// The routers that have an interface on the LAN in the topology.
    pub(crate) fn routers_on(&self, lan: LanNo) -> RoutersOnLan<'s>
        requires valid { IsLanProbe self.now }
        requires lan { lan < length self.now.view.now.domain.topology.lans }
        ensures value { result ≡ routers_on (search_in self.now) lan }
    {
        RoutersOnLan::new(self.interfaces.on(lan))
    }

    /// Whether a router isn't excluded, and its row takes from the LAN.
    pub(crate) fn is_expecting(&self, lan: LanNo, router: RouterNo) -> bool
        ensures { result ≡ is_expecting (search_in self.now) lan router }
    {
        if self.is_excluded(router) {
            return false;
        }
        match self.view.row(router) {
            RowFor::Exact(entry) => self.view.placed(router, entry.iif) == Some(lan),
            RowFor::Open | RowFor::NoRow => false,
        }
    }

    /// Whether a router's row sends by a vif of a device that the topology has on the LAN.
    fn sends_here(&self, router: RouterNo, interfaces: &[ListedInterface]) -> bool
        ensures { result ≡ sends_here (search_in self.now) (router, interfaces.now) }
    {
        match self.view.row(router) {
            RowFor::Exact(entry) => interfaces.iter().any(|i| sends_by_known_vif(&entry, i.vif)),
            RowFor::Open | RowFor::NoRow => false,
        }
    }

    /// Whether a router sends onto the LAN, or is excluded.
    fn may_send_here(&self, router: RouterNo, interfaces: &[ListedInterface]) -> bool
        ensures { result ≡ may_send_here (search_in self.now) (router, interfaces.now) }
    {
        self.is_excluded(router) || self.sends_here(router, interfaces)
    }

    /// Whether some router on the LAN sends onto it, or is excluded.
    pub(crate) fn has_possible_sender(&self, lan: LanNo) -> bool
        requires valid { IsLanProbe self.now }
        requires lan { lan < length self.now.view.now.domain.topology.lans }
        ensures value { result ≡ list_any (may_send_here (search_in self.now))
            (routers_on (search_in self.now) lan) }
    {
        for router_on_lan in self.routers_on(lan) {
            if self.may_send_here(router_on_lan.router, router_on_lan.interfaces) {
                return true;
            }
        }
        false
    }

    /// The LAN that a router's row for every source takes from.
    fn every_source_from(&self, router: RouterNo) -> Option<LanNo>
        requires valid { IsLanProbe self.now }
        ensures value { result ≡ every_source_from (search_in self.now) router
            (row_for_every_source (search_in self.now) router) }
    {
        let summary = self.summary.get(router.0 as usize)?;
        match summary.row_for_every_source(self.view.flow().group) {
            Some((_, entry)) => self.view.placed(router, entry.iif),
            None => None,
        }
    }

    /// The LAN that a line leads to.
    pub(crate) fn next_lan(&self, line: &SearchLine) -> Option<LanNo>
        requires valid { IsLanProbe self.now }
        ensures value { result ≡ next_lan (search_in self.now) line.now }
    {
        match *line {
            SearchLine::WaitsFor { from, .. } => Some(from),
            SearchLine::EverySource { router, .. } => match self.every_source_from(router) {
                Some(from) if self.first_copies.on(from).is_none() => Some(from),
                _ => None,
            },
            _ => None,
        }
    }
}
