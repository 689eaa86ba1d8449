//! Reads the rows of a cache line by line, and keeps those of listed sources and groups.

ghost use Rattle.std.specs.Prelude.{◌≡◌, ◌≢◌, Some, ◌+◌, ◌<◌, ◌≤◌, length, OnOk, OnErr, IfErr, IfOk, Ok};
ghost use Rattle.std.specs.Prelude.{Err};
ghost use Rattle.mc_text.specs.LineView.{line_text};
ghost use Rattle.mc_tables.specs.declared.fault.TableFaultKind.TheVariants.{Memory};
ghost use Rattle.mc_tables.specs.CacheTable.{IsValidCache};
ghost use Rattle.mc_tables.specs.UnlistedRows.{without_repeat};
ghost use Rattle.mc_tables.specs.CacheSteps.{row_with_room};
ghost use Rattle.mc_tables.specs.FlatRows.{row_with_oifs};
ghost use Rattle.mc_tables.specs.ListedRows.{listed_set, is_kept_by_set};
ghost use Rattle.mc_tables.specs.RowsSoFar.{rows_start, rows_of_parts, any_row_added, line_added};
ghost use Rattle.mc_tables.specs.RowsSoFar.{refusal_at};
ghost use Rattle.mc_tables.specs.SummarySoFar.{summary_with_line};
ghost use Rattle.mc_tables.specs.Steps.{out_of_memory};

use crate::cache::cache_line::read_row;
use crate::cache::cache_row::CacheRow;
use crate::cache::cache_rows::CacheRows;
use crate::cache::cache_table::CacheTable;
use crate::cache::entry::Oif;
use crate::fault::{TableFault, TableFaultKind};
use crate::lines::header::check_header;
use crate::lines::rows::TableRows;
use crate::listed::listed_pairs::ListedPairs;
use crate::summary::summary_so_far::SummarySoFar;
use crate::summary::unlisted_rows::UnlistedRows;
use mc_text::{Addr, Line, Order};
use std::alloc::Global;
use std::marker::Model;

/// The greatest number of rows.
const MAX_ROWS: usize = 65_536;

/// The rows that are kept, the keys of the others, by which a repeated one is found, and how many rows
/// there are, of a router whose machine has this byte order.
#[derive(Debug, Drop)]
pub struct CacheRowReader {
    order: Order,
    // the row that was read last, and its outgoing vifs
    row: CacheRow,
    oifs: Vec<Oif>,
    kept: CacheRows,
    others: UnlistedRows,
    count: usize,
}

impl Model for CacheRowReader {
    ghost use Rattle.std.specs.Prelude.{◌≤◌, length};
    ghost use Rattle.std.specs.Coded.{codes};
    ghost use Rattle.mc_text.specs.contracts.text.addr.Order as orders;
    ghost use Rattle.mc_tables.specs.ListedRows.{key_set_code};
    ghost use Rattle.mc_tables.specs.RowsSoFar.{ListedRowsSoFar, rows_code};

    ghost Value = { ListedRowsSoFar };

    ghost coded = { Prim.hlevel (codes, key_set_code, rows_code, orders.the_row.coded) };

    ghost view = { λ s. record {
      order = s.order;
      listed = s.kept.listed;
      rows = record { table = s.kept.table; others = s.others; count = s.count };
    } };

    ghost invariant = { λ s. (length s.kept.table.numbered ≤ s.count) × (s.count ≤ 65536) };
}

impl CacheRowReader {
    /// No rows. Those of these sources and groups will be kept.
    pub fn new(alloc: Global, order: Order, listed: ListedPairs) -> CacheRowReader
        ensures { result ≡ rows_start order (listed_set (Some listed)) }
    {
        // Overwritten by the first row.
        let none = Addr::unspecified();
        let row = CacheRow {
            group: none,
            origin: none,
            iif: None,
        };
        CacheRowReader {
            order,
            row,
            oifs: Vec::new(alloc),
            kept: CacheRows::new(alloc, listed),
            others: UnlistedRows::new(alloc),
            count: 0,
        }
    }

    /// The rows that are kept.
    pub fn into_kept(self) -> CacheRows
        ensures { result.table ≡ self.rows.table }
    {
        let CacheRowReader { kept, .. } = self;
        kept
    }

    /// Reads the row of a line and adds it.
    #[inline(always)]
    fn add_row(&mut self, line: &Line<'_>) -> Result<(), TableFaultKind>
        ensures added { OnOk result (line_added self.old (line_text line.now) ≡ Ok self.new) }
        ensures fault { IfErr result (λ fault. fault ≢ Memory →
            line_added self.old (line_text line.now) ≡ Err fault) }
        ensures others { OnErr result (self.new.rows.others ≡ self.old.rows.others) }
    {
        let (count, order) = (self.count, self.order);
        read_row_with_room(count, line, order, &mut self.row, &mut self.oifs)?;
        let (kept, others, count) = (&mut self.kept, &mut self.others, &mut self.count);
        add_read_row(kept, others, count, &self.row, &self.oifs, line.number)?;
        Ok(())
    }

    /// Reads the row of a line, adds it, and adds it to the summary.
    #[inline(always)]
    pub fn add_summarized(
        &mut self,
        line: &Line<'_>,
        summary: &mut SummarySoFar,
    ) -> Result<(), TableFaultKind>
        requires listed { summary.old.listed ≡ self.old.listed }
        requires first { length summary.old.first.table.numbered ≤ self.old.rows.count }
        requires unlisted { summary.old.unlisted ≤ self.old.rows.count }
        ensures added { OnOk result (line_added self.old (line_text line.now) ≡ Ok self.new) }
        ensures summarized { OnOk result
            (summary.new ≡ summary_with_line self.old.order summary.old (line_text line.now)) }
        ensures fault { IfErr result (λ fault. fault ≢ Memory →
            line_added self.old (line_text line.now) ≡ Err fault) }
        ensures others { IfErr result (λ fault. fault ≢ Memory →
            self.new.rows.others ≡ self.old.rows.others) }
        ensures listed { summary.new.listed ≡ self.new.listed }
        ensures first { length summary.new.first.table.numbered ≤ self.new.rows.count }
        ensures unlisted { summary.new.unlisted ≤ self.new.rows.count }
    {
        let (count, order) = (self.count, self.order);
        read_row_with_room(count, line, order, &mut self.row, &mut self.oifs)?;
        let (kept, others, count) = (&mut self.kept, &mut self.others, &mut self.count);
        let is_kept = add_read_row(kept, others, count, &self.row, &self.oifs, line.number)?;
        summary.add(&self.row, &self.oifs, is_kept)
    }

    /// The fault of the text whose line has this fault: an earlier row that repeats another one is
    /// reported first.
    #[cold]
    pub fn earliest_fault(&mut self, line: u32, kind: TableFaultKind) -> TableFault
        ensures memory { kind ≡ Memory → result ≡ out_of_memory }
        ensures first { kind ≢ Memory →
            refusal_at self.old.rows.others line kind ≡ result }
        ensures listed { self.new.listed ≡ self.old.listed }
        ensures count { self.new.rows.count ≡ self.old.rows.count }
    {
        if kind == TableFaultKind::Memory {
            return kind.at(0);
        }
        match self.check_repeats() {
            Ok(()) => kind.at(line),
            Err(first) => first,
        }
    }

    /// Refuses rows of which one that isn't kept has the source and the group of an earlier one.
    pub fn check_repeats(&mut self) -> Result<(), TableFault>
        ensures repeats { result ≡ without_repeat self.old.rows.others }
        ensures table { self.new.rows.table ≡ self.old.rows.table }
        ensures listed { self.new.listed ≡ self.old.listed }
        ensures count { self.new.rows.count ≡ self.old.rows.count }
    {
        self.others.check_repeats()
    }
}

/// Adds a row that was read, with its outgoing vifs, and returns whether it is kept.
#[inline(always)]
fn add_read_row(
    kept: &mut CacheRows,
    others: &mut UnlistedRows,
    count: &mut usize,
    row: &CacheRow,
    oifs: &[Oif],
    line: u32,
) -> Result<bool, TableFaultKind>
    requires room { count.old < 65536 }
    requires at_most_32 { length oifs.now ≤ 32 }
    requires numbered { length kept.old.table.numbered ≤ count.old }
    ensures kept { IfOk result (λ is_kept.
        is_kept ≡ is_kept_by_set kept.old.listed (row_with_oifs row.now oifs.now)) }
    ensures added { OnOk result (any_row_added kept.old.listed
        (rows_of_parts kept.old others.old count.old) (row_with_oifs row.now oifs.now) line
        ≡ Ok (rows_of_parts kept.new others.new count.new)) }
    ensures fault { IfErr result (λ fault. fault ≢ Memory → any_row_added kept.old.listed
        (rows_of_parts kept.old others.old count.old) (row_with_oifs row.now oifs.now) line
        ≡ Err fault) }
    ensures others { OnErr result (others.new ≡ others.old) }
    ensures listed { kept.new.listed ≡ kept.old.listed }
    ensures numbered { length kept.new.table.numbered ≤ count.new }
    ensures count { OnOk result (count.new ≡ count.old + 1) }
    ensures same { OnErr result (count.new ≡ count.old) }
{
    let is_kept = kept.add(row, oifs)?;
    if !is_kept {
        others.add(row.origin, row.group, line)?;
    }
    *count += 1;
    Ok(is_kept)
}

/// Reads the row of a line that comes after `count` others, if that isn't too many.
#[inline(always)]
fn read_row_with_room(
    count: usize,
    line: &Line<'_>,
    order: Order,
    row: &mut CacheRow,
    oifs: &mut Vec<Oif>,
) -> Result<(), TableFaultKind>
    ensures room { OnOk result (count < 65536) }
    ensures at_most_32 { OnOk result (length oifs.new.items ≤ 32) }
    ensures read { OnOk result
        (row_with_room order count (line_text line.now) ≡ Ok (row_with_oifs row.new oifs.new.items)) }
    ensures fault { IfErr result (λ fault. fault ≢ Memory →
        row_with_room order count (line_text line.now) ≡ Err fault) }
{
    if !line.ended {
        return Err(TableFaultKind::Unended);
    }
    if count >= MAX_ROWS {
        return Err(TableFaultKind::TooLarge);
    }
    read_row(line.bytes, order, row, oifs)
}

impl TableRows for CacheRowReader {
    ghost use Rattle.std.specs.Prelude.{codes};
    ghost use Rattle.mc_tables.specs.CacheTable.{IsValidCache};
    ghost use Rattle.mc_tables.specs.RowsSoFar.{row_step, table_from};

    type Table = CacheTable;

    ghost header = { codes "Group" };

    ghost step = { row_step };

    ghost table = { table_from };

    ghost is_valid = { λ so_far. IsValidCache so_far.rows.table };

    #[inline(always)]
    #[tactic(auto, using(crate::proofs::RowRuleLemmas::line_added_keeps_valid_cache))]
    fn add_line(&mut self, ended: u32, line: &Line<'_>) -> Result<(), TableFault> {
        if ended == 0 {
            return check_header(line, b"Group");
        }
        match self.add_row(line) {
            Ok(()) => Ok(()),
            Err(kind) => Err(self.earliest_fault(line.number, kind)),
        }
    }

    fn unended_fault(&mut self, number: u32) -> TableFault {
        self.earliest_fault(number, TableFaultKind::Unended)
    }

    fn into_table(mut self) -> Result<CacheTable, TableFault> {
        self.check_repeats()?;
        Ok(CacheTable::from_rows(self.into_kept()))
    }
}
