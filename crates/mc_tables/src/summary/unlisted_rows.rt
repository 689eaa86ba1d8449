//! The rows of a cache that aren't kept: the key and the line of each, by which a repeated one is found.

ghost use Rattle.std.specs.Prelude.{◌≡◌, [], ◌∷◌, ◌++◌, true, OnOk, OnErr, IfErr};
ghost use Rattle.std.specs.List.Sorted.{IsSorted};
ghost use Rattle.mc_tables.specs.declared.fault.TableFaultKind.TheVariants.{Memory};
ghost use Rattle.mc_tables.specs.UnlistedRows.{row_cmp, repeats, lesser_or, first_repeat};
ghost use Rattle.mc_tables.specs.UnlistedRows.{without_repeat};

use crate::fault::{TableFault, TableFaultKind};
use crate::summary::distinct::are_keys_distinct;
use mc_text::Addr;
use std::alloc::Global;
use std::marker::Model;

/// A row's source and group, and its line.
pub type UnlistedRow = ((Addr, Addr), u32);

/// The source, the group and the line of each row, in the order of their lines until they are
/// searched for a repeated one.
#[derive(Debug, Drop)]
pub struct UnlistedRows {
    rows: Vec<UnlistedRow>,
}

impl Model for UnlistedRows {
    ghost use Rattle.std.specs.Prelude.{List};
    ghost use Rattle.mc_tables.specs.UnlistedRows.{UnlistedRow};

    ghost Value = { List UnlistedRow };

    ghost view = { λ s. s.rows.items };
}

impl UnlistedRows {
    /// No rows.
    pub fn new(alloc: Global) -> UnlistedRows
        ensures { result ≡ [] }
    {
        UnlistedRows {
            rows: Vec::new(alloc),
        }
    }

    /// Adds a row.
    ///
    /// # Errors
    ///
    /// `Memory` if an allocation is refused. The rows are then as before.
    pub fn add(&mut self, source: Addr, group: Addr, line: u32) -> Result<(), TableFaultKind>
        ensures added { OnOk result (self.new ≡ self.old ++ ((source, group), line) ∷ []) }
        ensures fault { IfErr result (λ fault. fault ≡ Memory) }
        ensures err { OnErr result (self.new ≡ self.old) }
    {
        self.rows.push(((source, group), line))?;
        Ok(())
    }

    /// Refuses rows of which one has the source and the group of an earlier one.
    ///
    /// # Errors
    ///
    /// `RepeatedEntry` at the first line whose row repeats an earlier one.
    pub fn check_repeats(&mut self) -> Result<(), TableFault>
        ensures { result ≡ without_repeat self.old }
    {
        let alloc = *self.rows.allocator();
        if are_keys_distinct(alloc, &self.rows).unwrap_or(false) {
            return Ok(());
        }
        // The order of lines isn't needed any more: sorted by key, a repeated row is beside the earlier one.
        self.rows.sort_unstable();
        match first_repeat_of_sorted(self.rows.as_slice()) {
            Some(line) => Err(TableFaultKind::RepeatedEntry.at(line)),
            None => Ok(()),
        }
    }
}

/// The first line whose row repeats an earlier one. The rows are sorted by source and group, and then
/// by line.
fn first_repeat_of_sorted(rows: &[UnlistedRow]) -> Option<u32>
    requires sorted { IsSorted row_cmp rows.now }
    ensures value { result ≡ first_repeat rows.now }
{
    let mut first = None;
    for i in 1..rows.len() {
        if repeats(&rows[i], &rows[i - 1]) {
            first = Some(lesser_or(rows[i].1, first));
        }
    }
    first
}

/// Whether a row has the source and the group of another one whose line is earlier.
fn repeats(row: &UnlistedRow, earlier: &UnlistedRow) -> bool
    ensures { result ≡ repeats row.now earlier.now }
{
    earlier.0 == row.0 && earlier.1 < row.1
}

/// The lesser of a line and of another one, if there is one.
fn lesser_or(line: u32, other: Option<u32>) -> u32
    ensures { result ≡ lesser_or line other }
{
    match other {
        Some(other) if other < line => other,
        _ => line,
    }
}
