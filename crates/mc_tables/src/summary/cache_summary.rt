//! The summary of a forwarding cache: what is kept of its rows besides the table.

ghost use Rattle.std.specs.Prelude.{◌≡◌, IfSome};
ghost use Rattle.std.specs.FinMap as map;
ghost use Rattle.std.specs.FinSet as set;
ghost use Rattle.mc_tables.specs.CacheTable.{IsValidEntry};
ghost use Rattle.mc_tables.specs.Summary.{HasValidEntries, every_source_row};
ghost use Rattle.mc_tables.specs.SummarySoFar.{finished_summary};

use crate::cache::cache_rows::CacheRows;
use crate::cache::entry::Entry;
use crate::listed::listed_entry_numbers::ListedEntryNumbers;
use crate::summary::summary_so_far::SummarySoFar;
use mc_text::Addr;
use std::marker::Model;

/// Which listed sources and groups have an unresolved row, the first row for every source of each
/// group, and which sources and groups that aren't listed have a resolved row.
#[derive(Debug, Drop)]
pub struct CacheSummary {
    // those that have a number have an unresolved row
    unresolved: ListedEntryNumbers,
    first: CacheRows,
    unlisted: u32,
    lowest: Vec<(Addr, Addr)>,
}

impl Model for CacheSummary {
    ghost use Rattle.std.specs.Coded.{codes};
    ghost use Rattle.mc_tables.specs.CacheTable.{cache_code};
    ghost use Rattle.mc_tables.specs.ListedRows.{key_set_code};
    ghost use Rattle.mc_tables.specs.Summary.{HasValidEntries, SummaryValue, entry_map_code};
    ghost use Rattle.mc_tables.specs.SummarySoFar.{summary_of_parts};

    ghost Value = { SummaryValue };

    ghost coded = { Prim.hlevel (codes, key_set_code, entry_map_code, cache_code) };

    ghost view = { λ s. summary_of_parts s.unresolved.numbers s.first s.unlisted s.lowest.items };

    ghost invariant = { λ s. HasValidEntries
        (summary_of_parts s.unresolved.numbers s.first s.unlisted s.lowest.items) };
}

impl CacheSummary {
    /// The summary when all rows have been read.
    pub(crate) fn of(summary: SummarySoFar) -> CacheSummary
        requires valid { HasValidEntries (finished_summary summary) }
        ensures value { result ≡ finished_summary summary }
    {
        let (unresolved, first, unlisted, lowest) = summary.into_parts();
        CacheSummary {
            unresolved,
            first,
            unlisted,
            lowest,
        }
    }

    /// Whether a source and a group are listed and have an unresolved row: packets came for which the
    /// router had no route.
    pub fn is_unresolved(&self, source: Addr, group: Addr) -> bool
        ensures { result ≡ set.contains self.now.unresolved (source, group) }
    {
        self.unresolved
            .number_with_hint(&(source, group), &mut 0)
            .is_some()
    }

    /// The first resolved row for every source (origin 0.0.0.0) of this group, if a listed pair has
    /// the group, or else that of the group 0.0.0.0; with the one of the two groups that it has.
    pub fn row_for_every_source(&self, group: Addr) -> Option<(Addr, Entry<'_>)>
        ensures row { result ≡ every_source_row self.now group }
        ensures is_valid { IfSome result (λ row. IsValidEntry row.1) }
        ensures rules { HasValidEntries self.now }
    {
        if let Some(entry) = first_for_every_source(&self.first, group) {
            return Some((group, entry));
        }
        let every_group = Addr::unspecified();
        match first_for_every_source(&self.first, every_group) {
            Some(entry) => Some((every_group, entry)),
            None => None,
        }
    }

    /// How many resolved rows, other than those for every source, have a source and a group that
    /// aren't listed.
    pub fn unlisted_count(&self) -> u32
        ensures { result ≡ self.now.unlisted }
    {
        self.unlisted
    }

    /// The groups and sources of those rows, each pair once, by group and then by source: all of them
    /// if the reader was to keep all, or else the lowest 20.
    pub fn lowest_unlisted(&self) -> &[(Addr, Addr)]
        ensures { result.now ≡ self.now.lowest }
    {
        self.lowest.as_slice()
    }
}

/// The first row for every source of this group, if the group is a listed one.
fn first_for_every_source(first: &CacheRows, group: Addr) -> Option<Entry<'_>>
    ensures { result ≡ map.get first.now.table.entries (0, group) }
{
    let every_source = Addr::unspecified();
    match first.number_with_hint(every_source, group, &mut 0) {
        Some(number) => Some(first.entry_at(number)),
        None => None,
    }
}
