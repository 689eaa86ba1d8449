//! Reads the rows of a cache line by line, keeps the listed ones, and summarizes all.

ghost use Rattle.std.specs.Prelude.{◌≡◌};
ghost use Rattle.mc_tables.specs.SummaryReading.{summary_rows_start};

use crate::cache::cache_row_reader::CacheRowReader;
use crate::fault::{TableFault, TableFaultKind};
use crate::lines::header::check_header;
use crate::lines::rows::TableRows;
use crate::summary::cache_summary::CacheSummary;
use crate::summary::summarized_cache::SummarizedCache;
use crate::summary::summary_pairs::SummaryPairs;
use crate::summary::summary_so_far::SummarySoFar;
use mc_text::{Line, Order};
use std::alloc::Global;
use std::marker::Model;

/// The rows so far, and their summary.
#[derive(Debug, Drop)]
pub struct SummarizedRows {
    rows: CacheRowReader,
    summary: SummarySoFar,
}

impl Model for SummarizedRows {
    ghost use Rattle.std.specs.Prelude.{◌≡◌, ◌≤◌, length};
    ghost use Rattle.std.specs.Coded.{codes};
    ghost use Rattle.mc_text.specs.contracts.text.addr.Order as orders;
    ghost use Rattle.mc_tables.specs.CacheTable.{cache_code};
    ghost use Rattle.mc_tables.specs.ListedRows.{key_set_code};
    ghost use Rattle.mc_tables.specs.RowsSoFar.{rows_code};
    ghost use Rattle.mc_tables.specs.SummaryReading.{SummarizedRowsSoFar};

    ghost Value = { SummarizedRowsSoFar };

    ghost coded = { Prim.hlevel
        (codes, key_set_code, cache_code, rows_code, orders.the_row.coded) };

    ghost view = { λ s. record { rows = s.rows; summary = s.summary } };

    ghost invariant = { λ s. (s.summary.listed ≡ s.rows.listed)
        × (length s.summary.first.table.numbered ≤ s.rows.rows.count)
        × (s.summary.unlisted ≤ s.rows.rows.count) };
}

impl SummarizedRows {
    /// No rows. Those of these sources and groups will be kept. Of the others the summary will have
    /// all sources and groups if `all`, or else the lowest.
    pub fn new(alloc: Global, order: Order, listed: SummaryPairs, all: bool) -> SummarizedRows
        ensures { result ≡ summary_rows_start all order listed }
    {
        let (summary, pairs) = SummarySoFar::begin(alloc, listed, all);
        SummarizedRows {
            rows: CacheRowReader::new(alloc, order, pairs),
            summary,
        }
    }
}

impl TableRows for SummarizedRows {
    ghost use Rattle.std.specs.Prelude.{codes};
    ghost use Rattle.mc_tables.specs.CacheTable.{IsValidCache};
    ghost use Rattle.mc_tables.specs.Summary.{HasValidEntries};
    ghost use Rattle.mc_tables.specs.SummarySoFar.{finished_summary};
    ghost use Rattle.mc_tables.specs.SummaryReading.{summary_step, summary_from};

    type Table = SummarizedCache;

    ghost header = { codes "Group" };

    ghost step = { summary_step };

    ghost table = { summary_from };

    ghost is_valid = { λ so_far. IsValidCache so_far.rows.rows.table
        × HasValidEntries (finished_summary so_far.summary) };

    #[inline(always)]
    fn add_line(&mut self, ended: u32, line: &Line<'_>) -> Result<(), TableFault> {
        if ended == 0 {
            return check_header(line, b"Group");
        }
        match self.rows.add_summarized(line, &mut self.summary) {
            Ok(()) => Ok(()),
            Err(kind) => Err(self.rows.earliest_fault(line.number, kind)),
        }
    }

    fn unended_fault(&mut self, number: u32) -> TableFault {
        self.rows.earliest_fault(number, TableFaultKind::Unended)
    }

    fn into_table(self) -> Result<SummarizedCache, TableFault> {
        let SummarizedRows { rows, summary } = self;
        Ok(SummarizedCache {
            table: rows.into_table()?,
            summary: CacheSummary::of(summary),
        })
    }
}
