//! What answers wants: the flows of a topology, its sources, and the ignored ranges.

ghost use Rattle.std.specs.Prelude.{◌≡◌, ℕ, ◌<◌, List, IfOk, IsTrue, length, slice_get, Some, Bool};
ghost use Rattle.mc_igmp.specs.declared.record.Record.{Record};
ghost use Rattle.mc_text.specs.Pair.{pair_number, pair_of};
ghost use Rattle.mc_asked.specs.Answers.{class_of, is_answered, is_group_of_flow, is_ignored};
ghost use Rattle.mc_asked.specs.Answers.{is_of_service, is_on_lan, source_pairs};
ghost use Rattle.mc_asked.specs.Indexes.{IsIndexOfPairs, IsIndexOfGroups, IsIndexOfWantedGroups};

use crate::services::service_name;
use crate::want_class::WantClass;
use crate::wants::{group_number, has_number};
use mc_text::{Addr, GroupRange, Index, Memory, index_of_groups, pair_number, pair_numbers};
use mc_topology::{LanNo, Topology};
use std::alloc::Global;
use std::marker::Model;

/// What answers wants. Its value in contracts is the source and the group of each flow, the address and
/// the LAN of each source, and the ignored ranges.
#[derive(Debug, Drop)]
pub struct WantAnswers {
    flows: Vec<(Addr, Addr)>,
    sources: Vec<(Addr, LanNo)>,
    ignored: Vec<GroupRange>,
    // the flows, and their groups
    channels: Index,
    groups: Index,
    // the sources with their LANs
    places: Index,
}

impl Model for WantAnswers {
    ghost use Rattle.mc_asked.specs.Answers.{AnswersValue};
    ghost use Rattle.mc_asked.specs.Indexes.{IsIndexOfPairs, IsIndexOfGroups};

    ghost Value = { AnswersValue };

    ghost view = { λ s. record {
      flows = s.flows.items;
      sources = s.sources.items;
      ignored = s.ignored.items;
    } };

    ghost invariant = { λ s. IsIndexOfPairs s.flows.items s.channels
        × IsIndexOfGroups s.flows.items s.groups
        × IsIndexOfPairs s.sources.items s.places };
}

/// The number of an address and a LAN, as that of an address and a group.
fn source_number(address: Addr, lan: LanNo) -> u64
    ensures number { result ≡ pair_number (address, lan) }
    ensures pair { pair_of result ≡ (address, lan) }
{
    u64::from(address.to_bits()) * (1 << 32) + u64::from(lan.0)
}

/// An index of pairs of addresses.
pub(crate) fn index_of_pairs(alloc: Global, pairs: &[(Addr, Addr)]) -> Result<Index, Memory>
    ensures { IfOk result (IsIndexOfPairs pairs.now) }
{
    let numbers = pair_numbers(alloc, pairs)?;
    Index::of(alloc, numbers)
}

/// An index of the groups of flows.
fn index_of_flow_groups(alloc: Global, flows: &[(Addr, Addr)]) -> Result<Index, Memory>
    ensures { IfOk result (IsIndexOfGroups flows.now) }
{
    index_of_groups(alloc, flows)
}

/// An index of sources with their LANs.
fn index_of_sources(alloc: Global, sources: &[(Addr, LanNo)]) -> Result<Index, Memory>
    ensures { IfOk result (IsIndexOfPairs sources.now) }
{
    let mut numbers = Vec::with_capacity(alloc, sources.len())?;
    for source in sources {
        numbers.push(source_number(source.0, source.1))?;
    }
    Index::of(alloc, numbers)
}

/// The address and the LAN of each source of a topology.
fn sources_of(alloc: Global, topology: &Topology) -> Result<Vec<(Addr, LanNo)>, Memory>
    ensures { IfOk result (λ sources. sources.items ≡ source_pairs topology.now.sources) }
{
    let mut sources = Vec::with_capacity(alloc, topology.sources() as usize)?;
    for number in 0..topology.sources() {
        let source = topology.source(number);
        sources.push((source.address, source.lan))?;
    }
    Ok(sources)
}

impl WantAnswers {
    /// The answers of these flows, each a source and a group, of a topology's sources and of ignored
    /// ranges.
    ///
    /// # Errors
    ///
    /// `Memory` if an allocation is refused.
    pub fn of(
        alloc: Global,
        topology: &Topology,
        flows: Vec<(Addr, Addr)>,
        ignored: Vec<GroupRange>,
    ) -> Result<WantAnswers, Memory>
        ensures { IfOk result (λ answers. answers ≡ record {
          flows = flows.items;
          sources = source_pairs topology.now.sources;
          ignored = ignored.items;
        }) }
    {
        let channels = index_of_pairs(alloc, &flows)?;
        let groups = index_of_flow_groups(alloc, &flows)?;
        let sources = sources_of(alloc, topology)?;
        let places = index_of_sources(alloc, &sources)?;
        Ok(WantAnswers {
            flows,
            sources,
            ignored,
            channels,
            groups,
            places,
        })
    }

    /// The flows, each a source and a group.
    pub(crate) fn flows(&self) -> &[(Addr, Addr)]
        ensures { result.now ≡ self.now.flows }
    {
        &self.flows
    }

    /// Whether a flow answers the want, by the groups of the flows that the LAN wants.
    pub(crate) fn is_answered(&self, wanted_groups: &Index, want: &(Addr, Addr)) -> bool
        ensures { (records : List Record) → IsIndexOfWantedGroups self.now.flows records wanted_groups.now
            → result ≡ is_answered self.now records want.now }
    {
        let (group, source) = *want;
        if source.is_unspecified() {
            has_number(wanted_groups, group_number(group))
        } else {
            has_number(&self.channels, pair_number(source, group))
        }
    }

    /// Whether the want's source is on the LAN itself.
    fn is_on_lan(&self, lan: LanNo, want: &(Addr, Addr)) -> bool
        ensures { result ≡ is_on_lan self.now lan want.now }
    {
        has_number(&self.places, source_number(want.1, lan))
    }

    /// Whether the want's group is in an ignored range.
    fn is_ignored(&self, want: &(Addr, Addr)) -> bool
        ensures { result ≡ is_ignored self.now want.now }
    {
        self.ignored.iter().any(|range| range.contains(want.0))
    }

    /// Whether the want's group is a service's, and no flow's.
    fn is_of_service(&self, want: &(Addr, Addr)) -> bool
        ensures { result ≡ is_of_service self.now want.now }
    {
        service_name(want.0).is_some() && !has_number(&self.groups, group_number(want.0))
    }

    /// The class of a want of a LAN's list, by the groups of the flows that the LAN wants.
    pub(crate) fn class_of(
        &self,
        lan: LanNo,
        wanted_groups: &Index,
        want: &(Addr, Addr),
    ) -> WantClass
        ensures { (records : List Record) → IsIndexOfWantedGroups self.now.flows records wanted_groups.now
            → result ≡ class_of self.now lan records want.now }
    {
        if self.is_answered(wanted_groups, want) {
            WantClass::Answered
        } else if self.is_on_lan(lan, want) {
            WantClass::OnLan
        } else if self.is_ignored(want) {
            WantClass::Ignored
        } else if self.is_of_service(want) {
            WantClass::Service
        } else {
            WantClass::Asked
        }
    }
}
