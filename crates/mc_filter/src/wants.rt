//! The sources of a group that the hosts of a LAN want.

ghost use Rattle.std.specs.Prelude.{◌↔◌, ℕ, IfOk, IsTrue};
ghost use Rattle.mc_igmp.specs.Wants.{Admits, Wants};
ghost use Rattle.mc_filter.specs.SourceFilter.{FilterAdmits};
ghost use Rattle.mc_filter.specs.Merged.{IsMergedValue};

use crate::filter::Filter;
use crate::filter_builder::FilterBuilder;
use mc_igmp::{Kind, ListRecords, Record, ReportList};
use mc_text::{Addr, Memory};
use std::alloc::Global;

/// The filter that all records for a group merge to (RFC 3376, section 3.2). It admits a source exactly
/// if one of them does.
///
/// # Errors
///
/// `Memory` if an allocation is refused.
#[tactic(auto, using(crate::proofs::MergedLemmas::merged_admits_wanted))]
pub fn wants_of(alloc: Global, reports: &ReportList, group: Addr) -> Result<Filter, Memory>
    ensures merged { IfOk result (IsMergedValue reports.now group) }
    ensures wants { IfOk result (λ filter. (source : ℕ) →
        FilterAdmits filter source ↔ Wants reports.now group source) }
{
    let mut filter_builder = FilterBuilder::none(alloc);
    for group_record in reports.records() {
        if group_record.group == group {
            filter_builder.add(&group_record)?;
        }
    }
    filter_builder.into_filter()
}

/// Whether a record admits a source.
fn admits(group_record: &Record<'_>, source: Addr) -> bool
    ensures { IsTrue result ↔ Admits group_record.now source }
{
    let is_listed = group_record.sources.iter().any(|listed| listed == source);
    match group_record.kind {
        Kind::Include => is_listed,
        Kind::Exclude => !is_listed,
        Kind::Change(_) | Kind::Unknown(_) => false,
    }
}

/// Whether some record is for the group and admits the source. The records are read up to the first
/// that does. Nothing is merged, and no memory is allocated.
pub fn is_wanted(mut records: ListRecords<'_>, group: Addr, source: Addr) -> bool
    ensures { IsTrue result ↔ Wants records.entry group source }
{
    records.any(|group_record| group_record.group == group && admits(&group_record, source))
}
