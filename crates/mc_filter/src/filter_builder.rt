//! Merging the records for one group into a filter, in one pass over a list.

ghost use Rattle.std.specs.Prelude.{ℕ, List, [], ◌∷◌, IfOk, OnOk};
ghost use Rattle.mc_igmp.specs.declared.record.Record.{Record};
ghost use Rattle.mc_filter.specs.FilterBuilding.{BuildsFilter};
ghost use Rattle.mc_filter.specs.Merged.{IsMergedValue};

use crate::addresses::append_sources;
use crate::filter::{Filter, Mode};
use mc_igmp::{Kind, Record};
use mc_text::{Addr, Memory};
use std::alloc::Global;

/// The records for one group so far. An EXCLUDE list shrinks the merged list, but INCLUDE lists make it
/// grow: they are merged together at the end, so that no record takes a pass over all earlier sources.
#[derive(Debug, Drop)]
pub(crate) struct FilterBuilder {
    /// The filter that all records but those of type INCLUDE merge to.
    filter: Filter,
    /// The sources of all INCLUDE lists.
    included: Vec<Addr>,
}

impl FilterBuilder {
    /// The builder before any record.
    pub(crate) fn none(alloc: Global) -> FilterBuilder
        ensures { (records : List Record) (group : ℕ) → BuildsFilter records group result records }
    {
        FilterBuilder {
            filter: Filter::none(alloc),
            included: Vec::new(alloc),
        }
    }

    /// Adds a record for the group.
    pub(crate) fn add(&mut self, group_record: &Record<'_>) -> Result<(), Memory>
        ensures { OnOk result ((records left : List Record) →
            BuildsFilter records group_record.now.group self.old (group_record.now ∷ left) →
            BuildsFilter records group_record.now.group self.new left) }
    {
        match group_record.kind {
            Kind::Include => Ok(append_sources(&mut self.included, &group_record.sources)?),
            _ => Ok(self.filter.merge(group_record)?),
        }
    }

    /// The filter that the records for the group merge to.
    pub(crate) fn into_filter(self) -> Result<Filter, Memory>
        ensures { IfOk result (λ filter. (records : List Record) (group : ℕ) →
            BuildsFilter records group self [] → IsMergedValue records group filter) }
    {
        let FilterBuilder {
            mut filter,
            included,
        } = self;
        filter.merge_list(Mode::Include, included)?;
        Ok(filter)
    }
}
