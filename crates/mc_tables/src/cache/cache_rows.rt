//! The rows of a cache that are kept, by source and group.

ghost use Rattle.std.specs.Prelude.{◌≡◌, ◌≢◌, ◌<◌, ◌≤◌, ◌+◌, ◌||◌, [], length, OnOk, OnErr, IfErr};
ghost use Rattle.std.specs.Prelude.{IfOk};
ghost use Rattle.std.specs.Prelude.{IfSome, Ok, Err, Some, false, true, slice_get, option_and_then};
ghost use Rattle.std.specs.FinMap as map;
ghost use Rattle.std.specs.FinSet as set;
ghost use Rattle.std.specs.List.Sorted.{IsSorted};
ghost use Rattle.std.specs.Ordering.{nat_cmp};
ghost use Rattle.mc_tables.specs.declared.fault.TableFaultKind.TheVariants.{Memory};
ghost use Rattle.mc_tables.specs.CacheTable.{table_of};
ghost use Rattle.mc_tables.specs.CacheSteps.{row_added, entry_added, group_added};
ghost use Rattle.mc_tables.specs.FlatRows.{row_with_oifs};
ghost use Rattle.mc_tables.specs.ListedRows.{listed_set, set_has_key, is_kept_by_set};
ghost use Rattle.mc_tables.specs.SummarySoFar.{IsEntryInserted, with_entry_if_new};

use crate::cache::cache_row::CacheRow;
use crate::cache::entry::{Entry, Oif};
use crate::cache::flat_oifs::FlatOifs;
use crate::fault::TableFaultKind;
use crate::listed::digit_sort::sort_by_digits;
use crate::listed::listed_entry_numbers::{Inserted, ListedEntryNumbers};
use crate::listed::listed_pairs::ListedPairs;
use mc_text::Addr;
use std::alloc::Global;
use std::marker::Model;

/// The entries of resolved rows in the order of their lines, the number of each source and group,
/// and the groups of the rows for every source. Rows of sources and groups that aren't listed aren't
/// kept.
#[derive(Debug)]
pub struct CacheRows {
    // the head of each list is the incoming vif
    entries: FlatOifs<u8>,
    numbers: ListedEntryNumbers,
    // in the order of their lines, until they are sorted
    groups: Vec<Addr>,
}

// Written out, so that dropping rows takes one step in a proof, and not one for each part.
impl Drop for CacheRows {
    fn drop(self) {
        let Self {
            entries,
            numbers,
            groups,
        } = self;
    }
}

impl Model for CacheRows {
    ghost use Rattle.std.specs.Coded.{codes};
    ghost use Rattle.std.specs.FinMap as map;
    ghost use Rattle.std.specs.FinSet as set;
    ghost use Rattle.mc_tables.specs.CacheTable.{cache_code};
    ghost use Rattle.mc_tables.specs.CacheNumbers.{entries_by_key, AreEntryNumbers, KeptRowsValue};
    ghost use Rattle.mc_tables.specs.FlatRows.{entries_of};
    ghost use Rattle.mc_tables.specs.ListedRows.{key_set_code};

    ghost Value = { KeptRowsValue };

    ghost coded = { Prim.hlevel (codes, key_set_code, cache_code) };

    ghost view = { λ rows. record {
      table = record {
        entries = map.from_entries
            (entries_by_key rows.numbers.numbers (entries_of rows.entries.lists));
        numbered = entries_of rows.entries.lists;
        wildcards = set.from_list rows.groups.items;
      };
      listed = rows.numbers.listed;
      groups = rows.groups.items;
    } };

    ghost invariant = { λ rows. AreEntryNumbers rows.numbers.numbers (entries_of rows.entries.lists) };
}

impl CacheRows {
    /// No rows. Those of these sources and groups will be kept.
    pub fn new(alloc: Global, listed: ListedPairs) -> CacheRows
        ensures { result ≡
            record { table = table_of []; listed = listed_set (Some listed); groups = [] } }
    {
        CacheRows {
            entries: FlatOifs::new(alloc),
            numbers: ListedEntryNumbers::of(alloc, listed),
            groups: Vec::new(alloc),
        }
    }

    /// Adds a row with its outgoing vifs if it is to be kept, and returns whether it is. After an
    /// error the rows are of no use.
    #[inline(always)]
    pub fn add(&mut self, row: &CacheRow, oifs: &[Oif]) -> Result<bool, TableFaultKind>
        requires room { length self.old.table.numbered < 65536 }
        requires at_most_32 { length oifs.now ≤ 32 }
        ensures kept { IfOk result (λ kept.
            kept ≡ is_kept_by_set self.old.listed (row_with_oifs row.now oifs.now)) }
        ensures added { IfOk result (λ kept. kept ≡ true →
            row_added self.old.table (row_with_oifs row.now oifs.now) ≡ Ok self.new.table) }
        ensures other { IfOk result (λ kept. kept ≡ false → self.new.table ≡ self.old.table) }
        ensures fault { IfErr result (λ fault. fault ≢ Memory →
            (is_kept_by_set self.old.listed (row_with_oifs row.now oifs.now) ≡ true)
            × (row_added self.old.table (row_with_oifs row.now oifs.now) ≡ Err fault)) }
        ensures listed { self.new.listed ≡ self.old.listed }
        ensures room { length self.new.table.numbered ≤ length self.old.table.numbered + 1 }
        ensures refused { OnErr result (self.new.table.numbered ≡ self.old.table.numbered) }
    {
        match row.iif {
            Some(_) if row.origin.is_unspecified() => {
                self.add_group(row.group)?;
                Ok(true)
            }
            Some(iif) => self.add_entry(&(row.origin, row.group), iif, oifs),
            None => Ok(true),
        }
    }

    fn add_group(&mut self, group: Addr) -> Result<(), TableFaultKind>
        ensures added { OnOk result (self.new.table ≡ group_added self.old.table group) }
        ensures fault { IfErr result (λ fault. fault ≡ Memory) }
        ensures listed { self.new.listed ≡ self.old.listed }
        ensures numbered { self.new.table.numbered ≡ self.old.table.numbered }
    {
        self.groups.push(group)?;
        Ok(())
    }

    /// Adds an entry if its source and group can have a number, and returns whether they can.
    #[inline(always)]
    fn add_entry(
        &mut self,
        key: &(Addr, Addr),
        iif: u8,
        oifs: &[Oif],
    ) -> Result<bool, TableFaultKind>
        requires room { length self.old.table.numbered < 65536 }
        requires at_most_32 { length oifs.now ≤ 32 }
        ensures kept { IfOk result (λ kept. kept ≡ set_has_key self.old.listed key.now) }
        ensures added { IfOk result (λ kept. kept ≡ true →
            entry_added self.old.table key.now (record { iif = iif; oifs = oifs.now })
            ≡ Ok self.new.table) }
        ensures other { IfOk result (λ kept. kept ≡ false → self.new.table ≡ self.old.table) }
        ensures fault { IfErr result (λ fault. fault ≢ Memory →
            (set_has_key self.old.listed key.now ≡ true)
            × (entry_added self.old.table key.now (record { iif = iif; oifs = oifs.now })
            ≡ Err fault)) }
        ensures listed { self.new.listed ≡ self.old.listed }
        ensures refused { OnErr result (self.new.table.numbered ≡ self.old.table.numbered) }
    {
        match self.insert_entry(key, iif, oifs)? {
            Inserted::New => Ok(true),
            Inserted::Repeated => Err(TableFaultKind::RepeatedEntry),
            Inserted::Unlisted => Ok(false),
        }
    }

    /// Adds an entry if its source and group can have a number and don't have one.
    pub fn add_first_entry(
        &mut self,
        key: &(Addr, Addr),
        iif: u8,
        oifs: &[Oif],
    ) -> Result<(), TableFaultKind>
        requires room { length self.old.table.numbered < 65536 }
        requires at_most_32 { length oifs.now ≤ 32 }
        ensures added { OnOk result (self.new
            ≡ with_entry_if_new self.old key.now (record { iif = iif; oifs = oifs.now })) }
        ensures fault { IfErr result (λ fault. fault ≡ Memory) }
        ensures listed { self.new.listed ≡ self.old.listed }
        ensures room { length self.new.table.numbered ≤ length self.old.table.numbered + 1 }
    {
        self.insert_entry(key, iif, oifs)?;
        Ok(())
    }

    /// Adds an entry if its source and group can have a number and don't have one, and returns
    /// whether it was added, or why not.
    #[inline(always)]
    fn insert_entry(
        &mut self,
        key: &(Addr, Addr),
        iif: u8,
        oifs: &[Oif],
    ) -> Result<Inserted, TableFaultKind>
        requires room { length self.old.table.numbered < 65536 }
        requires at_most_32 { length oifs.now ≤ 32 }
        ensures inserted { IfOk result
            (IsEntryInserted key.now (record { iif = iif; oifs = oifs.now }) self.old self.new) }
        ensures fault { IfErr result (λ fault. fault ≡ Memory) }
        ensures listed { self.new.listed ≡ self.old.listed }
        ensures refused { OnErr result (self.new.table.numbered ≡ self.old.table.numbered) }
    {
        let inserted = self.numbers.add_entry(key, &mut self.entries, iif, oifs)?;
        Ok(inserted)
    }

    /// The same rows, with their groups sorted.
    pub fn with_sorted_groups(mut self) -> CacheRows
        ensures table { result.table ≡ self.table }
        ensures order { IsSorted nat_cmp result.groups }
    {
        let alloc = *self.groups.allocator();
        sort_by_digits(alloc, &mut self.groups);
        self
    }

    /// The number of the entry of a source and a group, whose place `hint` may give.
    pub fn number_with_hint(&self, source: Addr, group: Addr, hint: &mut usize) -> Option<u32>
        ensures within { IfSome result (λ number. number < length self.now.table.numbered) }
        ensures entry { option_and_then (slice_get self.now.table.numbered) result
            ≡ map.get self.now.table.entries (source, group) }
    {
        self.numbers.number_with_hint(&(source, group), hint)
    }

    /// The entry with this number.
    pub fn entry_at(&self, number: u32) -> Entry<'_>
        requires known { number < length self.now.table.numbered }
        ensures item { slice_get self.now.table.numbered number ≡ Some result }
    {
        let (iif, oifs) = self.entries.at(number);
        Entry { iif, oifs }
    }

    /// Whether a row for every source has this group or the group 0.0.0.0.
    pub fn has_wildcard(&self, group: Addr) -> bool
        requires sorted { IsSorted nat_cmp self.now.groups }
        ensures value { result ≡
            (set.contains self.now.table.wildcards group || set.contains self.now.table.wildcards 0) }
    {
        self.has_group(group) || self.has_group(Addr::unspecified())
    }

    fn has_group(&self, group: Addr) -> bool
        requires sorted { IsSorted nat_cmp self.now.groups }
        ensures value { result ≡ set.contains self.now.table.wildcards group }
    {
        self.groups.binary_search(&group).is_ok()
    }
}
