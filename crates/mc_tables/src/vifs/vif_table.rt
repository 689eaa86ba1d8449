//! The table of virtual interfaces, `/proc/net/ip_mr_vif`.

ghost use Rattle.std.specs.Prelude.{◌≡◌, ◌≢◌, ◌≤◌, ◌↔◌, ℕ, nat_eq, [], IfOk, IfErr, IsSome};
ghost use Rattle.std.specs.Prelude.{Ok, Err, Some, find};
ghost use Rattle.std.specs.Option.{option_copied, option_map};
ghost use Rattle.std.specs.List.{list_any};
ghost use Rattle.std.specs.Ordering.{nat_cmp};
ghost use Rattle.std.specs.Str.{bytes_eq};
ghost use Rattle.std.specs.FinMap as map;
ghost use Rattle.mc_text.specs.LineView.{line_text};
ghost use Rattle.mc_tables.specs.Steps.{out_of_memory};
ghost use Rattle.mc_tables.specs.TableLines.{rows_after};
ghost use Rattle.mc_tables.specs.VifTable.{VifValue, no_device, AreValidVifRows, DenotesVifs};
ghost use Rattle.mc_tables.specs.VifReading.{index_repeats, device_repeats, vif_in_line};
ghost use Rattle.mc_tables.specs.VifReading.{vifs_in};
ghost use Rattle.mc_tables.specs.VifLookups.{HasDevice, IsValidVifTable, first_index_with, index_of};

use crate::fault::{TableFault, TableFaultKind};
use crate::vifs::vif::{NO_DEVICE, Vif};
use crate::vifs::vif_line::vif_of_line;
use crate::vifs::vif_reader::VifReader;
use crate::vifs::vif_row::VifRow;
use crate::vifs::vif_rows::VifRows;
use mc_text::Line;
use std::alloc::Global;
use std::marker::Model;

/// The vifs of a router, each with its index.
#[derive(Debug, Drop)]
pub struct VifTable {
    vifs: Vec<VifRow>,
}

impl Model for VifTable {
    ghost use Rattle.std.specs.Ordering.{nat_cmp};
    ghost use Rattle.std.specs.Coded.{coded_ℕ};
    ghost use Rattle.std.specs.FinMap as map;
    ghost use Rattle.mc_tables.specs.VifTable.{VifValue, AreValidVifRows, vif_code};

    ghost Value = { map.FinMap nat_cmp VifValue };

    ghost coded = { map.code coded_ℕ vif_code };

    ghost view = { λ table. map.from_entries table.vifs.items };

    ghost invariant = { λ table. AreValidVifRows table.vifs.items };
}

impl VifTable {
    /// Reads the text of `/proc/net/ip_mr_vif` (`ipmr_vif_seq_show` in net/ipv4/ipmr.c), at most
    /// 16,777,216 bytes. Its lines may come in any order of indexes.
    ///
    /// # Errors
    ///
    /// `TooLarge` at line 0 for a text of more bytes. Else the first fault from the front: of a
    /// line first `Unended`, then its words from the left, then `RepeatedIndex`, then
    /// `RepeatedDevice`. Or `Memory`, at line 0.
    pub fn read(alloc: Global, text: &[u8]) -> Result<VifTable, TableFault>
        // A table that is read is the one that the text denotes.
        ensures found { IfOk result (DenotesVifs text.now) }
        // A table that the text denotes is read, unless memory runs out.
        ensures only { (vifs : map.FinMap nat_cmp VifValue) → DenotesVifs text.now vifs →
            result ≢ Err out_of_memory → result ≡ Ok vifs }
        // The fault is the first one of the text, unless memory runs out.
        ensures fault { result ≢ Err out_of_memory → result ≡ vifs_in text.now }
    {
        VifTable::from_text(alloc, text)
    }

    /// Like `read`, with the one clause from which those of `read` follow.
    fn from_text(alloc: Global, text: &[u8]) -> Result<VifTable, TableFault>
        ensures { result ≢ Err out_of_memory → result ≡ vifs_in text.now }
    {
        VifReader::new(alloc).read_whole(text)
    }

    /// The table of rows that were read.
    pub(crate) fn from_rows(rows: VifRows) -> VifTable
        requires valid { AreValidVifRows rows }
        ensures value { result ≡ map.from_entries rows }
    {
        VifTable {
            vifs: rows.into_vec(),
        }
    }

    /// The vif with this index.
    pub fn vif(&self, index: u8) -> Option<&Vif>
        ensures found { option_copied result ≡ map.get self.now index }
        // The indexes of the table's vifs are 0 to 31.
        ensures numbered { (index : ℕ) → IsSome (map.get self.now index) → index ≤ 31 }
        ensures rules { IsValidVifTable self.now }
    {
        vif_with_index(self.vifs.as_slice(), index)
    }

    /// The index of the vif that has this device. There is none for `none`.
    pub fn index_of(&self, device: &[u8]) -> Option<u8>
        ensures exact { (index : ℕ) → (result ≡ Some index) ↔
            ((device.now ≢ no_device) × HasDevice self.now index device.now) }
        ensures value { result ≡ index_of self.now device.now }
        ensures rules { IsValidVifTable self.now }
    {
        let vifs = self.vifs.as_slice();
        if device == NO_DEVICE {
            return None;
        }
        index_with_device(vifs, device)
    }
}

/// Reads a line that comes after those of the `earlier` vifs.
#[tactic(auto, unfolding(crate::specs::VifReading::vif_in_line))]
pub(crate) fn read_new_vif(earlier: &[VifRow], line: &Line<'_>) -> Result<VifRow, TableFaultKind>
    ensures { result ≡ vif_in_line earlier.now (line_text line.now) }
{
    if !line.ended {
        return Err(TableFaultKind::Unended);
    }
    let row = vif_of_line(line.bytes)?;
    if repeats_index(earlier, &row) {
        return Err(TableFaultKind::RepeatedIndex);
    }
    if repeats_device(earlier, &row) {
        return Err(TableFaultKind::RepeatedDevice);
    }
    Ok(row)
}

fn repeats_index(earlier: &[VifRow], row: &VifRow) -> bool
    ensures { result ≡ index_repeats earlier.now row.now }
{
    any_has_index(earlier, row.index)
}

fn any_has_index(vifs: &[VifRow], index: u8) -> bool
    ensures { result ≡ list_any (λ row. nat_eq index row.0) vifs.now }
{
    vifs.iter().any(|row| index == row.index)
}

fn repeats_device(earlier: &[VifRow], row: &VifRow) -> bool
    ensures { result ≡ device_repeats earlier.now row.now }
{
    let device = row.vif.device();
    if device == NO_DEVICE {
        return false;
    }
    any_has_device(earlier, device)
}

fn any_has_device(vifs: &[VifRow], device: &[u8]) -> bool
    ensures { result ≡ list_any (λ row. bytes_eq row.1.device device.now) vifs.now }
{
    vifs.iter().any(|row| row.vif.device() == device)
}

fn vif_with_index(vifs: &[VifRow], index: u8) -> Option<&Vif>
    ensures { option_copied result ≡
        option_map (λ row. row.1) (find (λ row. nat_eq row.0 index) vifs.now) }
{
    vifs.iter()
        .find(|row| row.index == index)
        .map(|row| &row.vif)
}

fn index_with_device(vifs: &[VifRow], device: &[u8]) -> Option<u8>
    ensures { result ≡ first_index_with device.now vifs.now }
{
    vifs.iter()
        .find(|row| row.vif.device() == device)
        .map(|row| row.index)
}
