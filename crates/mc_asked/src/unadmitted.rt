//! The sources that a LAN doesn't want of groups that it wants from any source.

ghost use Rattle.std.specs.Prelude.{◌≡◌, ℕ, ◌++◌, Bool, not, IfOk, OnOk, filter, flat_map, length, map};
ghost use Rattle.std.specs.List.Sorted.{IsStrictlyIncreasing, IsStrictlySortedBy};
ghost use Rattle.mc_asked.specs.Unadmitted.{AreMarksOf, listed_by, unadmitted_in};
ghost use Rattle.mc_filter.specs.SourceFilter.{has};
ghost use Rattle.mc_tables.specs.CacheTable.{key_cmp};

use mc_filter::Channels;
use mc_igmp::{Record, ReportList};
use mc_tables::sorted_without_repeats;
use mc_text::{Addr, Memory};
use std::alloc::{AllocError, Global};

/// Adds the group of a record with each source of its list.
fn push_sources(pairs: &mut Vec<(Addr, Addr)>, group_record: &Record<'_>) -> Result<(), AllocError>
    ensures { OnOk result (pairs.new.items ≡ pairs.old.items
        ++ map (λ s. (group_record.now.group, s)) group_record.now.sources) }
{
    for source in group_record.sources.iter() {
        pairs.push((group_record.group, source))?;
    }
    Ok(())
}

/// Whether the address is one of these ascending ones.
pub(crate) fn has_address(addresses: &[Addr], address: Addr) -> bool
    requires ascending { IsStrictlyIncreasing addresses.now }
    ensures { result ≡ has addresses.now address }
{
    addresses.binary_search(&address).is_ok()
}

/// Adds the group of a record with each source of its list, if it is one of these groups.
fn push_listed(
    pairs: &mut Vec<(Addr, Addr)>,
    groups: &[Addr],
    group_record: &Record<'_>,
) -> Result<(), AllocError>
    requires ascending { IsStrictlyIncreasing groups.now }
    ensures { OnOk result (pairs.new.items ≡ pairs.old.items
        ++ listed_by groups.now group_record.now) }
{
    if has_address(groups, group_record.group) {
        push_sources(pairs, group_record)?;
    }
    Ok(())
}

/// Of these ascending groups, each with each source that the list names for it.
fn listed_in(
    alloc: Global,
    list: &ReportList,
    groups: &[Addr],
) -> Result<Vec<(Addr, Addr)>, AllocError>
    requires ascending { IsStrictlyIncreasing groups.now }
    ensures { IfOk result (λ pairs. pairs.items ≡ flat_map (listed_by groups.now) list.now) }
{
    let mut pairs = Vec::new(alloc);
    for group_record in list.records() {
        push_listed(&mut pairs, groups, &group_record)?;
    }
    Ok(pairs)
}

/// The pairs with their parts swapped.
fn swapped(alloc: Global, pairs: &[(Addr, Addr)]) -> Result<Vec<(Addr, Addr)>, AllocError>
    ensures { IfOk result (λ swapped. swapped.items ≡ map (λ pair. (pair.1, pair.0)) pairs.now) }
{
    let mut swapped = Vec::with_capacity(alloc, pairs.len())?;
    for pair in pairs {
        swapped.push((pair.1, pair.0))?;
    }
    Ok(swapped)
}

/// The pairs whose marks aren't set.
fn unmarked(
    alloc: Global,
    pairs: &[(Addr, Addr)],
    marks: &[bool],
) -> Result<Vec<(Addr, Addr)>, AllocError>
    requires count { length marks.now ≡ length pairs.now }
    ensures { IfOk result (λ kept. (test : ℕ × ℕ → Bool) → AreMarksOf test pairs.now marks.now →
        kept.items ≡ filter (λ p. not (test p)) pairs.now) }
{
    let mut kept = Vec::new(alloc);
    for place in 0..pairs.len() {
        if !marks[place] {
            kept.push(pairs[place])?;
        }
    }
    Ok(kept)
}

/// Of these ascending groups, each with each source that the list names and doesn't want, ascending. The
/// list is read twice, in time in proportion to n log n.
///
/// # Errors
///
/// `Memory` if an allocation is refused.
pub(crate) fn unadmitted_in(
    alloc: Global,
    list: &ReportList,
    groups: &[Addr],
) -> Result<Vec<(Addr, Addr)>, Memory>
    requires ascending { IsStrictlyIncreasing groups.now }
    ensures value { IfOk result (λ pairs. pairs.items ≡ unadmitted_in list.now groups.now) }
    ensures sorted { IfOk result (λ pairs. IsStrictlySortedBy key_cmp pairs.items) }
{
    let pairs = sorted_without_repeats(listed_in(alloc, list, groups)?);
    let wants = Channels::of(alloc, &swapped(alloc, &pairs)?)?.wanted(alloc, list)?;
    Ok(unmarked(alloc, &pairs, &wants.wanted)?)
}
