//! What is kept of the wants of a LAN's list: those that are shown, how many there are, and the services.

ghost use Rattle.std.specs.Prelude.{◌≡◌, IfOk, false, length, nat_eq};
ghost use Rattle.std.specs.List.{dedup};
ghost use Rattle.std.specs.List.Sorted.{IsStrictlySortedBy};
ghost use Rattle.mc_filter.specs.ChannelWants.{AreAllAskedFor};
ghost use Rattle.mc_tables.specs.CacheTable.{key_cmp};
ghost use Rattle.mc_tables.specs.Summary.{shown_pairs};
ghost use Rattle.mc_asked.specs.Indexes.{AreFlowsWanted};
ghost use Rattle.mc_asked.specs.LanWants.{kept_wants, lan_wants};

use crate::answers::WantAnswers;
use crate::classified_wants::ClassifiedWants;
use mc_filter::ChannelWants;
use mc_igmp::ReportList;
use mc_text::{Addr, Memory};
use mc_topology::LanNo;
use std::alloc::Global;
use std::marker::Model;

/// The greatest number of wants that are kept, unless all are.
const MAX_WANTS: usize = 20;

/// What is kept of the wants of a LAN's list. Its value in contracts is the record of its fields.
#[derive(Debug, Drop)]
pub struct LanWants {
    /// The group and the source of each want that nothing answers, ascending: all, or the 20 lowest.
    lowest: Vec<(Addr, Addr)>,
    /// How many such wants there are.
    count: u64,
    /// The groups of the wants that are a service's, ascending.
    services: Vec<Addr>,
}

impl Model for LanWants {
    ghost use Rattle.std.specs.List.Sorted.{IsStrictlySortedBy};
    ghost use Rattle.mc_tables.specs.CacheTable.{key_cmp};
    ghost use Rattle.mc_asked.specs.LanWants.{LanWantsValue};

    ghost Value = { LanWantsValue };

    ghost view = { λ s. record {
      lowest = s.lowest.items;
      count = s.count;
      services = s.services.items;
    } };

    ghost invariant = { λ s. IsStrictlySortedBy key_cmp s.lowest.items };
}

impl LanWants {
    /// The wants that nothing answers, all or the 20 lowest, each a group and a source, which is 0.0.0.0
    /// for any.
    pub fn lowest(&self) -> &[(Addr, Addr)]
        ensures value { result.now ≡ self.now.lowest }
        ensures ascending { IsStrictlySortedBy key_cmp result.now }
    {
        &self.lowest
    }

    /// How many wants nothing answers.
    pub fn count(&self) -> u64
        ensures { result ≡ self.now.count }
    {
        self.count
    }

    /// The groups of the wants that are a service's.
    pub fn services(&self) -> &[Addr]
        ensures { result.now ≡ self.now.services }
    {
        &self.services
    }
}

/// All of the wants, or the first. Nothing is kept of the others.
pub(crate) fn shown_wants(mut wants: Vec<(Addr, Addr)>, all: bool) -> Vec<(Addr, Addr)>
    ensures { result.items ≡ shown_pairs all wants.items }
{
    if all {
        return wants;
    }
    wants.truncate(MAX_WANTS);
    wants.shrink_to_fit();
    wants
}

/// Groups without those that repeat the one before.
fn without_repeats(mut groups: Vec<Addr>) -> Vec<Addr>
    ensures { result.items ≡ dedup nat_eq groups.items }
{
    groups.dedup();
    groups.shrink_to_fit();
    groups
}

impl ClassifiedWants {
    /// What is kept of them: all, or the first.
    fn into_kept(self, all: bool) -> LanWants
        requires ascending { IsStrictlySortedBy key_cmp self.asked.items }
        ensures { result ≡ kept_wants all self.asked.items self.services.items }
    {
        let ClassifiedWants { asked, services } = self;
        let count = asked.len() as u64;
        LanWants {
            lowest: shown_wants(asked, all),
            count,
            services: without_repeats(services),
        }
    }
}

impl WantAnswers {
    /// What is kept of the wants of a LAN's list, all or the lowest. `wants` says of each flow whether the
    /// list wants it, and whether it may ask for something else; if not, the list isn't read. The time is
    /// in proportion to the records and sources, and to n log n for n of them that no flow answers.
    ///
    /// # Errors
    ///
    /// `Memory` if an allocation is refused.
    pub fn lan_wants(
        &self,
        alloc: Global,
        lan: LanNo,
        list: &ReportList,
        wants: &ChannelWants,
        all: bool,
    ) -> Result<LanWants, Memory>
        requires count { length wants.now.wanted.items ≡ length self.now.flows }
        requires each { AreFlowsWanted self.now.flows list.now wants.now.wanted.items }
        requires all { wants.now.asks_more ≡ false → AreAllAskedFor self.now.flows list.now }
        ensures { IfOk result (λ kept. kept ≡ lan_wants all self.now lan list.now) }
    {
        if !wants.asks_more {
            return Ok(ClassifiedWants::none(alloc).into_kept(all));
        }
        let classified = self.classified_wants(alloc, lan, list, &wants.wanted)?;
        Ok(classified.into_kept(all))
    }
}
