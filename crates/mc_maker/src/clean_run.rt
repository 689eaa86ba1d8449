//! The certificate entries of a packet with TTL 255 that meets no fault, where the first waiting copy is
//! handled each time. The copies of one LAN are then handled after those of the LANs that carried theirs
//! before it, and so none needs to be kept while it waits: the entries are made as the packet goes on from one
//! to the next.

ghost use Rattle.std.specs.Prelude.{◌≡◌, ◌<◌, ◌+◌, ◌∷◌, [], IfOk, IfSome, Some, length, map, None, slice_get};
ghost use Rattle.std.specs.Prelude.{true, All};
ghost use Rattle.mc_theory.specs.Nets.{interfaces};
ghost use Rattle.mc_theory.specs.Flights.{handle, send, sends, waits_at};
ghost use Rattle.mc_theory.specs.Findings.{first_double, taken_from};
ghost use Rattle.mc_theory.specs.Reasons.{entry_on};
ghost use Rattle.mc_theory.specs.CertificateOfCopies.{need_over, row_pairs, threshold_of};
ghost use Rattle.mc_forward.specs.Domains.{oif_pairs};
ghost use Rattle.mc_forward.specs.FlightsInDomain.{net_in};
ghost use Rattle.mc_maker.specs.EntriesByLan.{AreEntriesByLan};
ghost use Rattle.mc_maker.specs.CleanRuns.{AreEntriesOfCleanRun, EntriesSoFar, GoesPast, GoesPastInterface};
ghost use Rattle.mc_maker.specs.CleanRuns.{GoesToEnd, GrowsTo, Leads};
ghost use Rattle.mc_maker.specs.CleanRuns.{copies_so_far, copy_of, source_entry, waiting_at, with_entry};

use crate::entries::entries_in_lan_order;
use mc_cert::Reached;
use mc_forward::{CarriedCopy, FlowView, PerLan, RowFor};
use mc_replay::misses_any_lan;
use mc_tables::Oif;
use mc_text::Memory;
use mc_topology::{LanNo, RouterNo};
use std::alloc::Global;
use std::marker::Model;

/// The copy that an entry is of.
fn copy_of(entry: &Reached) -> CarriedCopy
    ensures { result ≡ copy_of entry.now }
{
    CarriedCopy {
        lan: entry.lan,
        ttl: 255 - entry.rank,
        sender: entry.forwarder,
    }
}

/// The entry of a LAN onto which a router sends by this vif, from the LAN of another entry.
fn entry_over(base: &Reached, router: RouterNo, oif: &Oif, lan: LanNo) -> Reached
    requires live { base.now.rank + oif.now.threshold < 255 }
    ensures value { result ≡ record {
      lan = lan;
      rank = base.now.rank + 1;
      need = need_over oif.now.threshold (Some base.now);
      forwarder = Some (router, oif.now.vif);
    } }
{
    Reached {
        lan,
        rank: base.rank + 1,
        need: base.need.max(base.rank + oif.threshold + 1),
        forwarder: Some((router, oif.vif)),
    }
}

/// The entries of the copies that LANs carried, in order, no two of one LAN. Its value in contracts is the
/// list of them, and how many LANs there are.
#[derive(Drop)]
struct CleanEntries {
    entries: Vec<Reached>,
    // each entry by its LAN
    by_lan: PerLan<Reached>,
}

impl Model for CleanEntries {
    ghost use Rattle.std.specs.Prelude.{◌≡◌, None, [], length, map};
    ghost use Rattle.mc_theory.specs.Findings.{first_double};
    ghost use Rattle.mc_maker.specs.EntriesByLan.{AreEntriesByLan};
    ghost use Rattle.mc_maker.specs.CleanRuns.{EntriesSoFar, copy_of};

    ghost Value = { EntriesSoFar };

    ghost view = { λ s. record { lans = length s.by_lan; entries = s.entries.items } };

    ghost invariant = { λ s. AreEntriesByLan s.by_lan s.entries.items
        × (first_double [] (map copy_of s.entries.items) ≡ None) };
}

impl CleanEntries {
    /// The entry of the source's LAN alone.
    fn start(alloc: Global, view: &FlowView<'_>) -> Result<Option<CleanEntries>, Memory>
        ensures { IfOk result (λ started. IfSome started (λ clean. clean ≡ record {
          lans = length view.now.domain.topology.lans;
          entries = source_entry (net_in view.now) ∷ [];
        })) }
    {
        let mut clean = CleanEntries {
            entries: Vec::with_capacity(alloc, view.lans() as usize)?,
            by_lan: PerLan::new(alloc, view.lans())?,
        };
        let source = Reached {
            lan: view.source(),
            rank: 0,
            need: 1,
            forwarder: None,
        };
        if clean.put(&source)? {
            Ok(Some(clean))
        } else {
            Ok(None)
        }
    }

    /// How many entries there are.
    fn len(&self) -> usize
        ensures count { result ≡ length self.now.entries }
        // What holds of all of them.
        ensures rules { first_double [] (map copy_of self.now.entries) ≡ None }
    {
        self.entries.len()
    }

    /// The entry at this place.
    fn entry(&self, place: usize) -> Reached
        requires within { place < length self.now.entries }
        ensures copy { slice_get (map copy_of self.now.entries) place ≡ Some (copy_of result) }
        ensures first { entry_on self.now.entries result.lan ≡ Some result }
    {
        self.entries[place]
    }

    /// Puts an entry on its LAN, if that has none. Whether it had none.
    #[inline(always)]
    fn put(&mut self, entry: &Reached) -> Result<bool, Memory>
        requires listed_lan { entry.now.lan < self.old.lans }
        ensures { IfOk result (λ is_first. is_first ≡ true → self.new ≡ with_entry entry.now self.old) }
    {
        self.entries.reserve(1)?;
        if !self.by_lan.put_first(entry.lan, *entry) {
            return Ok(false);
        }
        self.entries.push_reserved(*entry);
        Ok(true)
    }

    /// Sends the copy of an entry on by an outgoing vif of a router that takes it from the entry's LAN, if it
    /// exceeds the threshold. Whether it then came to a LAN that had carried none.
    #[inline(always)]
    fn send(
        &mut self,
        view: &FlowView<'_>,
        base: &Reached,
        router: RouterNo,
        oif: &Oif,
    ) -> Result<bool, Memory>
        requires lans { self.old.lans ≡ length view.now.domain.topology.lans }
        requires taken { taken_from (net_in view.now) router ((net_in view.now).row router)
            ≡ Some base.now.lan }
        requires first { entry_on self.old.entries base.now.lan ≡ Some base.now }
        requires threshold { threshold_of oif.now.vif (row_pairs ((net_in view.now).row router))
            ≡ oif.now.threshold }
        ensures run { IfOk result (λ is_clean. is_clean ≡ true → Leads (net_in view.now)
            (send (net_in view.now) router (copy_of base.now).ttl (oif.now.vif, oif.now.threshold))
            (copies_so_far self.old) (copies_so_far self.new)) }
        ensures entries { IfOk result (λ is_clean. is_clean ≡ true →
            GrowsTo (net_in view.now) self.old self.new) }
    {
        if 255 - base.rank <= oif.threshold {
            return Ok(true);
        }
        match view.placed(router, oif.vif) {
            Some(lan) => Ok(self.put(&entry_over(base, router, oif, lan))?),
            None => Ok(false),
        }
    }

    /// Sends the copy of an entry on by each outgoing vif of a router that takes it from the entry's LAN.
    /// Whether all came to LANs that had carried none.
    #[inline(always)]
    fn send_all(
        &mut self,
        view: &FlowView<'_>,
        base: &Reached,
        router: RouterNo,
        oifs: &[Oif],
    ) -> Result<bool, Memory>
        requires lans { self.old.lans ≡ length view.now.domain.topology.lans }
        requires taken { taken_from (net_in view.now) router ((net_in view.now).row router)
            ≡ Some base.now.lan }
        requires first { entry_on self.old.entries base.now.lan ≡ Some base.now }
        requires thresholds { All (λ oif. threshold_of oif.vif (row_pairs ((net_in view.now).row router))
            ≡ oif.threshold) oifs.now }
        ensures run { IfOk result (λ is_clean. is_clean ≡ true → Leads (net_in view.now)
            (sends (net_in view.now) router (copy_of base.now).ttl (oif_pairs oifs.now))
            (copies_so_far self.old) (copies_so_far self.new)) }
        ensures entries { IfOk result (λ is_clean. is_clean ≡ true →
            GrowsTo (net_in view.now) self.old self.new) }
    {
        for oif in oifs {
            if !self.send(view, base, router, oif)? {
                return Ok(false);
            }
        }
        Ok(true)
    }

    /// Handles the copy of an entry at a router's vif on its LAN. Whether it met no fault.
    #[inline(always)]
    fn forward(
        &mut self,
        view: &FlowView<'_>,
        base: &Reached,
        router: RouterNo,
        vif: u8,
    ) -> Result<bool, Memory>
        requires lans { self.old.lans ≡ length view.now.domain.topology.lans }
        requires at { (net_in view.now).placed router vif ≡ Some base.now.lan }
        requires first { entry_on self.old.entries base.now.lan ≡ Some base.now }
        ensures run { IfOk result (λ is_clean. is_clean ≡ true → Leads (net_in view.now)
            (handle (net_in view.now) (Some (waits_at (copy_of base.now).ttl (router, vif))))
            (copies_so_far self.old) (copies_so_far self.new)) }
        ensures entries { IfOk result (λ is_clean. is_clean ≡ true →
            GrowsTo (net_in view.now) self.old self.new) }
    {
        // This brings the domain's rules into the proof.
        let _rules = view.topology();
        match view.row(router) {
            RowFor::Exact(entry) => {
                if entry.iif == vif {
                    self.send_all(view, base, router, entry.oifs)
                } else {
                    Ok(true)
                }
            }
            RowFor::Open => Ok(false),
            RowFor::NoRow => Ok(true),
        }
    }

    /// Handles the copy of an entry at an interface of its LAN, unless that sent it. Whether it met no fault.
    #[inline(always)]
    fn forward_at(
        &mut self,
        view: &FlowView<'_>,
        base: &Reached,
        interface: (RouterNo, u8),
    ) -> Result<bool, Memory>
        requires lans { self.old.lans ≡ length view.now.domain.topology.lans }
        requires at { (net_in view.now).placed interface.0 interface.1 ≡ Some base.now.lan }
        requires first { entry_on self.old.entries base.now.lan ≡ Some base.now }
        ensures run { IfOk result (λ is_clean. is_clean ≡ true → GoesPastInterface (net_in view.now)
            (copy_of base.now) interface (copies_so_far self.old) (copies_so_far self.new)) }
        ensures entries { IfOk result (λ is_clean. is_clean ≡ true →
            GrowsTo (net_in view.now) self.old self.new) }
    {
        // This brings what holds of the entries into the proof.
        let _count = self.len();
        let (router, vif) = interface;
        if copy_of(base).is_sent_by(router, vif) {
            return Ok(true);
        }
        Ok(self.forward(view, base, router, vif)?)
    }

    /// Handles the copy of an entry at each interface that hears it. Whether it met no fault.
    fn forward_by_hearers(&mut self, view: &FlowView<'_>, base: &Reached) -> Result<bool, Memory>
        requires lans { self.old.lans ≡ length view.now.domain.topology.lans }
        requires listed_lan { base.now.lan < length view.now.domain.topology.lans }
        requires first { entry_on self.old.entries base.now.lan ≡ Some base.now }
        ensures run { IfOk result (λ is_clean. is_clean ≡ true → GoesPast (net_in view.now)
            (waiting_at (copy_of base.now) (interfaces (net_in view.now) base.now.lan))
            (copies_so_far self.old) (copies_so_far self.new)) }
        ensures entries { IfOk result (λ is_clean. is_clean ≡ true →
            GrowsTo (net_in view.now) self.old self.new) }
    {
        for interface in view.interfaces(base.lan) {
            if !self.forward_at(view, base, interface)? {
                return Ok(false);
            }
        }
        Ok(true)
    }

    /// Handles the copies of all entries, in order, and of those that come of them. Whether none met a fault.
    fn forward_all(&mut self, view: &FlowView<'_>) -> Result<bool, Memory>
        requires lans { self.old.lans ≡ length view.now.domain.topology.lans }
        ensures run { IfOk result (λ is_clean. is_clean ≡ true → GoesToEnd (net_in view.now)
            (copies_so_far self.old) (copies_so_far self.new)) }
        ensures entries { IfOk result (λ is_clean. is_clean ≡ true →
            GrowsTo (net_in view.now) self.old self.new) }
    {
        for place in 0..view.lans() as usize {
            if place >= self.len() {
                return Ok(true);
            }
            let base = self.entry(place);
            if base.lan.0 >= view.lans() || !self.forward_by_hearers(view, &base)? {
                return Ok(false);
            }
        }
        Ok(self.len() <= view.lans() as usize)
    }
}

/// The entries of the copies of a flow's packet with TTL 255, in the order of their LANs, if it meets no
/// fault where the first waiting copy is handled each time. There may be none also where it meets none.
///
/// # Errors
///
/// `Memory` where a growth was refused.
pub(crate) fn clean_entries(
    alloc: Global,
    view: &FlowView<'_>,
) -> Result<Option<Vec<Reached>>, Memory>
    ensures { IfOk result (λ found. IfSome found (λ entries. AreEntriesOfCleanRun (net_in view.now)
        (length view.now.domain.topology.lans) entries.items)) }
{
    let Some(mut clean) = CleanEntries::start(alloc, view)? else {
        return Ok(None);
    };
    if !clean.forward_all(view)? || misses_any_lan(view, &clean.by_lan) {
        return Ok(None);
    }
    let entries = entries_in_lan_order(alloc, &clean.by_lan, clean.len())?;
    Ok(Some(entries))
}
