//! Reads a cache line by line and hands each resolved row on that concerns whoever asks.

ghost use Rattle.std.specs.Prelude.{◌≡◌, ◌≢◌, ℕ, Bool, List, Ok, Err, IfErr, OnOk};
ghost use Rattle.mc_text.specs.LineView.{line_text};
ghost use Rattle.mc_tables.specs.CacheReading.{cache_rows_in};
ghost use Rattle.mc_tables.specs.CacheTable.{EntryValue, RowValue};
ghost use Rattle.mc_tables.specs.EachRow.{PassesOverOthers, each_row_added, each_row_if};
ghost use Rattle.mc_tables.specs.EachRow.{with_row, with_rows};
ghost use Rattle.mc_tables.specs.FlatRows.{row_with_oifs};
ghost use Rattle.mc_tables.specs.Steps.{fault_at};
ghost use Rattle.mc_tables.specs.TableSoFar.{table_start};
ghost use Rattle.mc_tables.specs.declared.fault.TableFaultKind.TheVariants.{Memory};

use crate::cache::cache_line::{read_row, read_row_key};
use crate::cache::cache_row::CacheRow;
use crate::cache::entry::{Entry, Oif};
use crate::fault::{TableFault, TableFaultKind};
use crate::lines::header::check_header;
use crate::lines::rows::TableRows;
use crate::lines::table_reader::TableReader;
use mc_text::{Addr, Line, Order};
use std::alloc::{AllocError, Global};
use std::marker::Model;

/// What is made of a cache's resolved rows, one after another.
pub trait RowFold: Drop {
    // what is made of one more row, by its source and group and its entry
    ghost after: { Self → ℕ × ℕ → EntryValue → Self };

    // whether a row of this source and group may change it
    ghost concerns: { Self → ℕ × ℕ → Bool };

    /// Whether a resolved row of this source, or 0.0.0.0 for every source, and this group may change what is
    /// made. Of one that doesn't nothing more is read, and it isn't taken.
    fn concerns(&self, key: &(Addr, Addr)) -> bool
        ensures { result ≡ concerns self.now key.now };

    /// Takes one more resolved row: its source, or 0.0.0.0 for every source, and its group, and its entry.
    fn add(&mut self, key: &(Addr, Addr), entry: &Entry<'_>) -> Result<(), AllocError>
        ensures { OnOk result (self.new ≡ after self.old key.now entry.now) };
}

/// What is made of the rows so far, of a router whose machine has this byte order.
#[derive(Debug, Drop)]
pub struct EachRow<V: RowFold> {
    order: Order,
    // the row that was read last, and its outgoing vifs
    row: CacheRow,
    oifs: Vec<Oif>,
    made: V,
}

impl<V: RowFold> Model for EachRow<V> {
    ghost use Rattle.mc_tables.specs.EachRow.{EachRowSoFar};

    ghost Value = { EachRowSoFar V };

    ghost view = { λ s. record { order = s.order; made = s.made } };
}

impl<V: RowFold> EachRow<V> {
    /// Before the first row.
    fn new(alloc: Global, order: Order, made: V) -> EachRow<V>
        ensures { result ≡ record { order = order; made = made } }
    {
        // Overwritten by the first row.
        let none = Addr::unspecified();
        let row = CacheRow {
            group: none,
            origin: none,
            iif: None,
        };
        EachRow {
            order,
            row,
            oifs: Vec::new(alloc),
            made,
        }
    }

    /// Reads the row of a line and hands it on, or passes over it.
    #[inline(always)]
    fn add_row(&mut self, line: &Line<'_>) -> Result<(), TableFaultKind>
        ensures added { OnOk result
            (each_row_added V.concerns V.after self.old (line_text line.now) ≡ Ok self.new) }
        ensures fault { IfErr result (λ fault. fault ≢ Memory →
            each_row_added V.concerns V.after self.old (line_text line.now) ≡ Err fault) }
    {
        if !line.ended {
            return Err(TableFaultKind::Unended);
        }
        if let Some(key) = read_row_key(line.bytes, self.order) {
            if !self.made.concerns(&key) {
                return Ok(());
            }
        }
        read_row(line.bytes, self.order, &mut self.row, &mut self.oifs)?;
        hand_on(&mut self.made, &self.row, &self.oifs)?;
        Ok(())
    }
}

/// Hands a row on that was read, with its outgoing vifs, if it is resolved.
fn hand_on<V: RowFold>(made: &mut V, row: &CacheRow, oifs: &[Oif]) -> Result<(), AllocError>
    ensures { OnOk result (made.new ≡ with_row V.after made.old (row_with_oifs row.now oifs.now)) }
{
    if let Some(iif) = row.iif {
        let entry = Entry { iif, oifs };
        made.add(&(row.origin, row.group), &entry)?;
    }
    Ok(())
}

/// The fault of a line. Lack of memory has no line.
fn fault_of_line(line: u32, kind: TableFaultKind) -> TableFault
    ensures { result ≡ fault_at line kind }
{
    match kind {
        TableFaultKind::Memory => kind.at(0),
        kind => kind.at(line),
    }
}

impl<V: RowFold> TableRows for EachRow<V> {
    ghost use Rattle.std.specs.Prelude.{codes, ⊤};
    ghost use Rattle.mc_tables.specs.EachRow.{each_row_from, each_row_step};

    type Table = V;

    ghost header = { codes "Group" };

    ghost step = { each_row_step V.concerns V.after };

    ghost table = { each_row_from V.concerns V.after };

    ghost is_valid = { λ _. ⊤ };

    #[inline(always)]
    fn add_line(&mut self, ended: u32, line: &Line<'_>) -> Result<(), TableFault> {
        if ended == 0 {
            return check_header(line, b"Group");
        }
        match self.add_row(line) {
            Ok(()) => Ok(()),
            Err(kind) => Err(fault_of_line(line.number, kind)),
        }
    }

    fn unended_fault(&mut self, number: u32) -> TableFault {
        TableFaultKind::Unended.at(number)
    }

    fn into_table(self) -> Result<V, TableFault> {
        let EachRow { made, .. } = self;
        Ok(made)
    }
}

/// A reader of a cache that hands each resolved row on that concerns whoever asks.
pub type EachRowReader<V> = TableReader<EachRow<V>>;

impl<V: RowFold> EachRowReader<V> {
    /// A reader that has been fed nothing, for a router whose machine has this byte order.
    pub fn handing_on(alloc: Global, order: Order, made: V) -> EachRowReader<V>
        // No row that is passed over would change what is made.
        requires others { PassesOverOthers V.concerns V.after }
        ensures start { result ≡ table_start (record { order = order; made = made }) }
        // Whatever text it is fed, of which all rows can be read, what is made is as if each was handed on.
        ensures reads { (text : List ℕ) (rows : List RowValue) → cache_rows_in order text ≡ Ok rows →
            each_row_if V.concerns V.after result text ≡ Ok (with_rows V.after made rows) }
    {
        TableReader::with_rows(alloc, EachRow::new(alloc, order, made))
    }
}
