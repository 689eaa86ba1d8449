//! What a list of reports asks for.

ghost use Rattle.std.specs.Prelude.{◌≡◌, ◌↔◌, Contains, IfOk, IsTrue, filter, map};
ghost use Rattle.mc_text.specs.Pair.{pair_of};
ghost use Rattle.mc_filter.specs.SourceFilter.{has};
ghost use Rattle.mc_filter.specs.FilterBuilding.{is_exclude};
ghost use Rattle.mc_asked.specs.Indexes.{IsIndexOfExcludes, is_of_merged_filter_by};
ghost use Rattle.mc_tables.specs.Summary.{in_order};
ghost use Rattle.mc_asked.specs.ListWants.{is_of_merged_filter};

use mc_igmp::{Kind, ListRecords, ReportList};
use mc_tables::pairs_in_order;
use mc_text::{Addr, Index, Memory};
use std::alloc::Global;

/// The number of a group in an index.
pub(crate) fn group_number(group: Addr) -> u64
    ensures { result ≡ group }
{
    u64::from(group.to_bits())
}

/// Whether the index has the number.
pub(crate) fn has_number(index: &Index, number: u64) -> bool
    ensures means { IsTrue result ↔ Contains index.now number }
    ensures value { result ≡ has index.now number }
{
    index.place_of(number).is_some()
}

fn is_exclude(kind: Kind) -> bool
    ensures { result ≡ is_exclude kind }
{
    matches!(kind, Kind::Exclude)
}

/// The groups for which some record is an EXCLUDE record.
fn excluded_groups_of(alloc: Global, records: ListRecords<'_>) -> Result<Index, Memory>
    ensures { IfOk result (IsIndexOfExcludes records.entry) }
{
    let mut numbers = Vec::new(alloc);
    for group_record in records {
        if is_exclude(group_record.kind) {
            numbers.push(group_number(group_record.group))?;
        }
    }
    Index::of(alloc, numbers)
}

/// The groups for which the list has an EXCLUDE record.
fn excluded_groups(alloc: Global, list: &ReportList) -> Result<Index, Memory>
    ensures { IfOk result (IsIndexOfExcludes list.now) }
{
    excluded_groups_of(alloc, list.distinct_records())
}

/// Whether the merged filter of the want's group asks for it, by the groups that have an EXCLUDE record.
fn is_of_merged_filter(excluded: &Index, want: &(Addr, Addr)) -> bool
    ensures { result ≡ is_of_merged_filter_by excluded.now want.now }
{
    let (group, source) = *want;
    group.is_forwarded_group()
        && (source.is_unspecified() || !has_number(excluded, group_number(group)))
}

/// Those of the pairs of these numbers that the list wants, by group and then by source, each once.
pub(crate) fn wants_among(
    alloc: Global,
    list: &ReportList,
    numbers: Vec<u64>,
) -> Result<Vec<(Addr, Addr)>, Memory>
    ensures { IfOk result (λ wants.
        wants.items ≡ filter (is_of_merged_filter list.now) (in_order (map pair_of numbers.items))) }
{
    let excluded = excluded_groups(alloc, list)?;
    let mut wants = pairs_in_order(numbers)?;
    wants.retain(|want| is_of_merged_filter(&excluded, want));
    Ok(wants)
}
