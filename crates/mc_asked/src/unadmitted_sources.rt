//! The sources that the filter of none of a want's LANs admits, found LAN by LAN.

ghost use Rattle.std.specs.Prelude.{◌≡◌, ℕ, List, Some, IfOk, OnOk, false, map, slice_get};
ghost use Rattle.std.specs.List.{list_any};
ghost use Rattle.std.specs.List.Sorted.{IsStrictlyIncreasing, IsStrictlySortedBy};
ghost use Rattle.mc_igmp.specs.declared.record.Record.{Record};
ghost use Rattle.mc_tables.specs.CacheTable.{key_cmp};
ghost use Rattle.mc_asked.specs.GroupRun.{seconds_of};
ghost use Rattle.mc_asked.specs.UnadmittedSoFar.{AddsLan, AreAskedAfterLast, AreBeforeFirstLan};
ghost use Rattle.mc_asked.specs.WantSources.{groups_from_any, is_shared_any, with_lan_at, with_unadmitted_of};
ghost use Rattle.mc_asked.specs.WantSources.{without_sources};

use crate::group_run::seconds_of;
use crate::lan_wants::LanWants;
use crate::shared_pairs::SharedPair;
use crate::unadmitted::unadmitted_in;
use crate::want_sources::WantSources;
use crate::want_states::AskedWant;
use mc_igmp::ReportList;
use mc_text::{Addr, Memory};
use std::alloc::{AllocError, Global};
use std::marker::Model;

/// Wants, ascending and each once, and of each that is of any source the sources that the filter of none of
/// its LANs so far admits. Its value in contracts is the list of these.
#[derive(Debug, Drop)]
pub struct UnadmittedSources {
    // the wants, in the order of `sources`
    keys: Vec<(Addr, Addr)>,
    sources: Vec<WantSources>,
}

impl Model for UnadmittedSources {
    ghost use Rattle.std.specs.Prelude.{◌≡◌, List, map};
    ghost use Rattle.std.specs.List.Sorted.{IsStrictlySortedBy};
    ghost use Rattle.mc_tables.specs.CacheTable.{key_cmp};
    ghost use Rattle.mc_asked.specs.WantSources.{WantSourcesValue};

    ghost Value = { List WantSourcesValue };

    ghost view = { λ s. s.sources.items };

    ghost invariant = { λ s. (s.keys.items ≡ map (λ own. own.want) s.sources.items)
        × IsStrictlySortedBy key_cmp s.keys.items };
}

/// The wants of lines.
fn wants_of(alloc: Global, lines: &[SharedPair]) -> Result<Vec<(Addr, Addr)>, Memory>
    ensures { IfOk result (λ wants. wants.items ≡ map (λ line. line.0) lines.now) }
{
    let mut wants = Vec::with_capacity(alloc, lines.len())?;
    for line in lines {
        wants.push(*line.pair())?;
    }
    Ok(wants)
}

/// Wants before the first LAN.
fn without_sources(alloc: Global, wants: &[(Addr, Addr)]) -> Result<Vec<WantSources>, Memory>
    ensures { IfOk result (λ sources. sources.items ≡ map without_sources wants.now) }
{
    let mut sources = Vec::with_capacity(alloc, wants.len())?;
    for want in wants {
        sources.push(WantSources::new(alloc, *want))?;
    }
    Ok(sources)
}

/// Whether a want of a LAN is of any source and among these ascending ones.
fn is_shared_any(wants: &[(Addr, Addr)], want: &(Addr, Addr)) -> bool
    requires sorted { IsStrictlySortedBy key_cmp wants.now }
    ensures { result ≡ is_shared_any wants.now want.now }
{
    want.1.is_unspecified() && wants.binary_search(want).is_ok()
}

impl UnadmittedSources {
    /// The wants of these lines before the first LAN.
    ///
    /// # Errors
    ///
    /// `Memory` if an allocation is refused.
    pub fn of_lines(alloc: Global, lines: &[SharedPair]) -> Result<UnadmittedSources, Memory>
        requires sorted { IsStrictlySortedBy key_cmp (map (λ line. line.0) lines.now) }
        ensures { IfOk result (AreBeforeFirstLan (map (λ line. line.0) lines.now)) }
    {
        let keys = wants_of(alloc, lines)?;
        let sources = without_sources(alloc, &keys)?;
        Ok(UnadmittedSources { keys, sources })
    }

    /// Whether the next LAN's list has to be read. If not, the sources already are what `add_list` would
    /// make them.
    pub fn needs_list(&self, own: &LanWants) -> bool
        ensures value { result
            ≡ list_any (is_shared_any (map (λ stated. stated.want) self.now)) own.now.lowest }
        ensures skipped { result ≡ false → (lists : List (List Record)) (lan : ℕ) →
            AddsLan own.now self.now self.now lists lan }
    {
        for want in own.lowest() {
            if is_shared_any(&self.keys, want) {
                return true;
            }
        }
        false
    }

    /// The groups of those of a LAN's wants that are of any source and among these.
    fn groups_from_any(&self, alloc: Global, own: &LanWants) -> Result<Vec<Addr>, AllocError>
        ensures groups { IfOk result (λ groups.
            groups.items ≡ groups_from_any (map (λ stated. stated.want) self.now) own.now.lowest) }
        ensures ascending { IfOk result (λ groups. IsStrictlyIncreasing groups.items) }
    {
        let mut groups = Vec::new(alloc);
        for want in own.lowest() {
            if is_shared_any(&self.keys, want) {
                groups.push(want.0)?;
            }
        }
        Ok(groups)
    }

    /// Takes the ascending sources of a group that one more LAN doesn't admit, which wants it from any.
    fn add_lan(&mut self, alloc: Global, group: Addr, own: Vec<Addr>) -> Result<(), AllocError>
        requires ascending { IsStrictlyIncreasing own.items }
        ensures { OnOk result (self.new ≡ map (with_lan_at group own.items) self.old) }
    {
        let any_source = Addr::unspecified();
        if let Ok(place) = self.keys.binary_search(&(group, any_source)) {
            self.sources[place].add_lan(alloc, own)?;
        }
        Ok(())
    }

    /// The same by the sources that the LAN doesn't admit, each behind its group.
    fn add_group(
        &mut self,
        alloc: Global,
        group: Addr,
        unadmitted: &[(Addr, Addr)],
    ) -> Result<(), AllocError>
        requires sorted { IsStrictlySortedBy key_cmp unadmitted.now }
        ensures { OnOk result
            (self.new ≡ map (with_lan_at group (seconds_of group unadmitted.now)) self.old) }
    {
        let own = seconds_of(alloc, unadmitted, group)?;
        self.add_lan(alloc, group, own)
    }

    /// Takes the sources that one more LAN doesn't admit, each behind its group, of some groups.
    fn add_unadmitted(
        &mut self,
        alloc: Global,
        groups: &[Addr],
        unadmitted: &[(Addr, Addr)],
    ) -> Result<(), AllocError>
        requires groups { IsStrictlyIncreasing groups.now }
        requires sorted { IsStrictlySortedBy key_cmp unadmitted.now }
        ensures { OnOk result (self.new ≡ map (with_unadmitted_of groups.now unadmitted.now) self.old) }
    {
        for group in groups {
            self.add_group(alloc, *group, unadmitted)?;
        }
        Ok(())
    }

    /// Takes the list of the next LAN, with that LAN's wants. The list is read twice, in time in proportion
    /// to n log n.
    ///
    /// # Errors
    ///
    /// `Memory` if an allocation is refused.
    pub fn add_list(
        &mut self,
        alloc: Global,
        own: &LanWants,
        list: &ReportList,
    ) -> Result<(), Memory>
        ensures { OnOk result ((lists : List (List Record)) (lan : ℕ) →
            slice_get lists lan ≡ Some list.now → AddsLan own.now self.old self.new lists lan) }
    {
        let groups = self.groups_from_any(alloc, own)?;
        let unadmitted = unadmitted_in(alloc, list, &groups)?;
        self.add_unadmitted(alloc, &groups, &unadmitted)?;
        Ok(())
    }

    /// The wants with the sources.
    ///
    /// # Errors
    ///
    /// `Memory` if an allocation is refused.
    pub fn into_wants(self, alloc: Global) -> Result<Vec<AskedWant>, Memory>
        // With all LANs these are the sources that are unadmitted.
        ensures asked { IfOk result (λ wants. AreAskedAfterLast self wants.items) }
        ensures sorted { IfOk result (λ wants. IsStrictlySortedBy key_cmp
            (map (λ words. words.0) wants.items)) }
    {
        let UnadmittedSources { sources, .. } = self;
        let mut wants = Vec::with_capacity(alloc, sources.len())?;
        for own in sources {
            wants.push(own.into_asked())?;
        }
        Ok(wants)
    }
}
