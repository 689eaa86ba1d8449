//! The forwarding cache, `/proc/net/ip_mr_cache`.

ghost use Rattle.std.specs.Prelude.{◌≡◌, ◌≢◌, ◌<◌, ◌||◌, IfOk, IfSome, Ok, Err, None, Some};
ghost use Rattle.std.specs.Prelude.{length, slice_get, option_and_then};
ghost use Rattle.std.specs.FinMap as map;
ghost use Rattle.std.specs.FinSet as set;
ghost use Rattle.mc_tables.specs.Steps.{out_of_memory};
ghost use Rattle.mc_tables.specs.CacheTable.{CacheValue, IsValidEntry, IsValidCache, DenotesCache};
ghost use Rattle.mc_tables.specs.CacheReading.{cache_in};

use crate::cache::cache_reader::CacheReader;
use crate::cache::cache_rows::CacheRows;
use crate::cache::entry::Entry;
use crate::cache::text_pairs::pairs_of_text;
use crate::fault::TableFault;
use mc_text::{Addr, Order};
use std::alloc::Global;
use std::marker::Model;

/// Where a router forwards the packets of each source to each group.
#[derive(Debug, Drop)]
pub struct CacheTable {
    rows: CacheRows,
}

impl Model for CacheTable {
    ghost use Rattle.std.specs.List.Sorted.{IsSorted};
    ghost use Rattle.std.specs.Ordering.{nat_cmp};
    ghost use Rattle.mc_tables.specs.CacheTable.{CacheValue, IsValidCache, cache_code};

    ghost Value = { CacheValue };

    ghost coded = { cache_code };

    ghost view = { λ table. table.rows.table };

    ghost invariant = { λ table. IsValidCache table.rows.table × IsSorted nat_cmp table.rows.groups };
}

impl CacheTable {
    /// Reads the text of `/proc/net/ip_mr_cache` (`ipmr_mfc_seq_show` in net/ipv4/ipmr.c) of a
    /// router whose machine has this byte order: at most 16,777,216 bytes and 65,536 rows.
    ///
    /// # Errors
    ///
    /// `TooLarge` at line 0 for a text of more bytes. Else the first fault from the front: of a
    /// line first `Unended`, then `TooLarge` where it is a row too many, then its words from the
    /// left, then `RepeatedEntry`. Or `Memory`, at line 0.
    pub fn read(alloc: Global, text: &[u8], order: Order) -> Result<CacheTable, TableFault>
        // A table that is read is the one that the text denotes.
        ensures found { IfOk result (DenotesCache order text.now) }
        // A table that the text denotes is read, unless memory runs out.
        ensures only { (table : CacheValue) → DenotesCache order text.now table →
            result ≢ Err out_of_memory → result ≡ Ok table }
        // The fault is the first one of the text, unless memory runs out.
        ensures fault { result ≢ Err out_of_memory → result ≡ cache_in order text.now }
    {
        CacheTable::from_text(alloc, text, order)
    }

    /// Like `read`, with the one clause from which those of `read` follow.
    fn from_text(alloc: Global, text: &[u8], order: Order) -> Result<CacheTable, TableFault>
        ensures { result ≢ Err out_of_memory → result ≡ cache_in order text.now }
    {
        let pairs = pairs_of_text(alloc, text, order)?;
        CacheReader::new(alloc, order, pairs).read_whole(text)
    }

    /// The table of rows that were read.
    pub(crate) fn from_rows(rows: CacheRows) -> CacheTable
        requires valid { IsValidCache rows.table }
        ensures value { result ≡ rows.table }
    {
        CacheTable {
            rows: rows.with_sorted_groups(),
        }
    }

    /// The entry of the resolved row of this source and this group. There is none for 0.0.0.0.
    pub fn exact(&self, source: Addr, group: Addr) -> Option<Entry<'_>>
        ensures entry { result ≡ map.get self.now.entries (source, group) }
        ensures is_valid { IfSome result IsValidEntry }
        ensures unspecified { source ≡ 0 → result ≡ None }
        ensures rules { IsValidCache self.now }
    {
        match self.number_of(source, group) {
            Some(number) => Some(self.entry_at(number)),
            None => None,
        }
    }

    /// The number of the entry of this source and this group: entries are numbered from 0 in the
    /// order of their lines.
    pub fn number_of(&self, source: Addr, group: Addr) -> Option<u32>
        ensures within { IfSome result (λ number. number < length self.now.numbered) }
        ensures entry { option_and_then (slice_get self.now.numbered) result
            ≡ map.get self.now.entries (source, group) }
        ensures rules { IsValidCache self.now }
    {
        self.rows.number_with_hint(source, group, &mut 0)
    }

    /// Like `number_of`, for a caller that asks many tables for one source and group, where the
    /// tables keep the rows of the same sources and groups. `hint` is any number at first, and is
    /// set to the place that was found. A right hint saves a search.
    pub fn number_with_hint(&self, source: Addr, group: Addr, hint: &mut usize) -> Option<u32>
        ensures within { IfSome result (λ number. number < length self.now.numbered) }
        ensures entry { option_and_then (slice_get self.now.numbered) result
            ≡ map.get self.now.entries (source, group) }
        ensures rules { IsValidCache self.now }
    {
        self.rows.number_with_hint(source, group, hint)
    }

    /// The entry with this number.
    pub fn entry_at(&self, number: u32) -> Entry<'_>
        requires known { number < length self.now.numbered }
        ensures entry { slice_get self.now.numbered number ≡ Some result }
        ensures rules { IsValidCache self.now }
    {
        self.rows.entry_at(number)
    }

    /// Whether a resolved row for every source (origin 0.0.0.0) has this group or the group 0.0.0.0.
    pub fn has_wildcard(&self, group: Addr) -> bool
        ensures found { result ≡
            (set.contains self.now.wildcards group || set.contains self.now.wildcards 0) }
        ensures rules { IsValidCache self.now }
    {
        self.rows.has_wildcard(group)
    }
}
