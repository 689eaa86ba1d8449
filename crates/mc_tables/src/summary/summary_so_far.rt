//! The summary of a cache's rows while they are read.

ghost use Rattle.std.specs.Prelude.{◌≡◌, ◌<◌, ◌≤◌, ◌+◌, [], length, OnOk, IfErr, IfOk, None, Some};
ghost use Rattle.std.specs.Prelude.{if◌then◌else◌, is_some, map, slice_get};
ghost use Rattle.std.specs.FinSet as set;
ghost use Rattle.mc_tables.specs.declared.fault.TableFaultKind.TheVariants.{Memory};
ghost use Rattle.mc_tables.specs.FlatRows.{row_with_oifs};
ghost use Rattle.mc_tables.specs.ListedRows.{set_has_key, is_kept_by_set};
ghost use Rattle.mc_tables.specs.SummarySoFar.{empty_summary, summary_with_row};
ghost use Rattle.mc_tables.specs.SummarySoFar.{summary_with_unresolved, summary_with_every_source};
ghost use Rattle.mc_tables.specs.SummarySoFar.{summary_with_unlisted};

use crate::cache::cache_row::CacheRow;
use crate::cache::cache_rows::CacheRows;
use crate::cache::entry::{Entry, Oif};
use crate::fault::TableFaultKind;
use crate::listed::listed_entry_numbers::ListedEntryNumbers;
use crate::listed::listed_pairs::ListedPairs;
use crate::summary::shown_pairs::ShownPairs;
use crate::summary::summary_pairs::SummaryPairs;
use mc_text::Addr;
use std::alloc::Global;
use std::marker::Model;

/// The listed sources and groups of unresolved rows, the first rows for every source, how many
/// resolved rows have other sources and groups, and all of those or the lowest.
#[derive(Debug, Drop)]
pub struct SummarySoFar {
    // those that have a number have an unresolved row
    unresolved: ListedEntryNumbers,
    first: CacheRows,
    unlisted: u32,
    lowest: ShownPairs,
}

impl Model for SummarySoFar {
    ghost use Rattle.std.specs.Prelude.{map as map_list};
    ghost use Rattle.std.specs.Coded.{codes};
    ghost use Rattle.std.specs.FinSet as set;
    ghost use Rattle.mc_tables.specs.CacheTable.{cache_code};
    ghost use Rattle.mc_tables.specs.ListedRows.{key_set_code};
    ghost use Rattle.mc_tables.specs.SummarySoFar.{SummarySoFar};

    ghost Value = { SummarySoFar };

    ghost coded = { Prim.hlevel (codes, key_set_code, cache_code) };

    ghost view = { λ s. record {
      listed = s.unresolved.listed;
      unresolved = set.from_list (map_list (λ p. p.0) s.unresolved.numbers);
      first = s.first;
      unlisted = s.unlisted;
      lowest = s.lowest;
    } };
}

impl SummarySoFar {
    /// The summary of no rows, with the listed sources and groups. It will have their unresolved rows,
    /// the rows for every source that concern them, and all other sources and groups if `all`, or else
    /// the lowest.
    pub fn begin(alloc: Global, listed: SummaryPairs, all: bool) -> (SummarySoFar, ListedPairs)
        ensures summary { result.0 ≡ empty_summary all listed }
        ensures pairs { result.1 ≡ listed }
    {
        let (pairs, pairs_copy, for_every_source) = listed.into_lists();
        let summary = SummarySoFar {
            unresolved: ListedEntryNumbers::of(alloc, pairs),
            first: CacheRows::new(alloc, for_every_source),
            unlisted: 0,
            lowest: ShownPairs::new(alloc, all),
        };
        (summary, pairs_copy)
    }

    /// Adds a row with its outgoing vifs. `kept` is whether the table keeps the row.
    #[inline(always)]
    pub fn add(&mut self, row: &CacheRow, oifs: &[Oif], kept: bool) -> Result<(), TableFaultKind>
        requires kept { kept ≡ is_kept_by_set self.old.listed (row_with_oifs row.now oifs.now) }
        requires room { length self.old.first.table.numbered < 65536 }
        requires unlisted { self.old.unlisted < 65536 }
        requires at_most_32 { length oifs.now ≤ 32 }
        ensures summarized { OnOk result
            (self.new ≡ summary_with_row self.old (row_with_oifs row.now oifs.now)) }
        ensures fault { IfErr result (λ fault. fault ≡ Memory) }
        ensures listed { self.new.listed ≡ self.old.listed }
        ensures first { length self.new.first.table.numbered
            ≤ length self.old.first.table.numbered + 1 }
        ensures unlisted { self.new.unlisted ≤ self.old.unlisted + 1 }
    {
        let key = (row.origin, row.group);
        match row.iif {
            None => self.add_unresolved(&key),
            Some(iif) if row.origin.is_unspecified() => self.add_for_every_source(&key, iif, oifs),
            Some(_) if kept => Ok(()),
            Some(_) => self.add_unlisted(&key),
        }
    }

    fn add_unresolved(&mut self, key: &(Addr, Addr)) -> Result<(), TableFaultKind>
        ensures summarized { OnOk result (self.new ≡ summary_with_unresolved self.old (Some key.now)) }
        ensures fault { IfErr result (λ fault. fault ≡ Memory) }
        ensures listed { self.new.listed ≡ self.old.listed }
        ensures first { self.new.first ≡ self.old.first }
        ensures unlisted { self.new.unlisted ≡ self.old.unlisted }
    {
        self.unresolved.add(key)?;
        Ok(())
    }

    fn add_for_every_source(
        &mut self,
        key: &(Addr, Addr),
        iif: u8,
        oifs: &[Oif],
    ) -> Result<(), TableFaultKind>
        requires room { length self.old.first.table.numbered < 65536 }
        requires at_most_32 { length oifs.now ≤ 32 }
        ensures summarized { OnOk result (self.new ≡ summary_with_every_source self.old
            (Some (key.now, record { iif = iif; oifs = oifs.now }))) }
        ensures fault { IfErr result (λ fault. fault ≡ Memory) }
        ensures listed { self.new.listed ≡ self.old.listed }
        ensures first { length self.new.first.table.numbered
            ≤ length self.old.first.table.numbered + 1 }
        ensures unlisted { self.new.unlisted ≡ self.old.unlisted }
    {
        self.first.add_first_entry(key, iif, oifs)
    }

    fn add_unlisted(&mut self, key: &(Addr, Addr)) -> Result<(), TableFaultKind>
        requires bounded { self.old.unlisted < 65536 }
        ensures summarized { OnOk result (self.new ≡ summary_with_unlisted self.old key.now) }
        ensures fault { IfErr result (λ fault. fault ≡ Memory) }
        ensures listed { self.new.listed ≡ self.old.listed }
        ensures first { self.new.first ≡ self.old.first }
        ensures unlisted { self.new.unlisted ≤ self.old.unlisted + 1 }
    {
        self.lowest.add((key.1, key.0))?;
        self.unlisted += 1;
        Ok(())
    }

    /// The sources and groups of unresolved rows, which have a number; the first rows for every
    /// source; how many rows are of others, and the pairs that are kept of these.
    pub fn into_parts(self) -> (ListedEntryNumbers, CacheRows, u32, Vec<(Addr, Addr)>)
        ensures unresolved { set.from_list (map (λ pair. pair.0) result.0.numbers) ≡ self.unresolved }
        ensures first { result.1 ≡ self.first }
        ensures unlisted { result.2 ≡ self.unlisted }
        ensures lowest { result.3.items ≡ self.lowest.pairs }
    {
        let SummarySoFar {
            unresolved,
            first,
            unlisted,
            lowest,
        } = self;
        (unresolved, first, unlisted, lowest.into_vec())
    }
}
