//! The rows of a table of vifs while its lines are read.

ghost use Rattle.std.specs.Prelude.{◌≡◌, ◌≢◌, [], OnOk, IfErr, Ok, Err};
ghost use Rattle.mc_text.specs.LineView.{line_text};
ghost use Rattle.mc_tables.specs.declared.fault.TableFaultKind.TheVariants.{Memory};
ghost use Rattle.mc_tables.specs.VifTable.{AreValidVifRows};
ghost use Rattle.mc_tables.specs.VifsSoFar.{vif_added};

use crate::fault::{TableFault, TableFaultKind};
use crate::lines::header::check_header;
use crate::lines::rows::TableRows;
use crate::vifs::vif_row::VifRow;
use crate::vifs::vif_table::{VifTable, read_new_vif};
use mc_text::Line;
use std::alloc::Global;
use std::marker::Model;

/// The vifs of a router with their indexes, in the order of the lines.
#[derive(Debug, Drop)]
pub struct VifRows {
    vifs: Vec<VifRow>,
}

impl Model for VifRows {
    ghost use Rattle.std.specs.Prelude.{ℕ, List};
    ghost use Rattle.mc_tables.specs.VifTable.{VifValue};

    ghost Value = { List (ℕ × VifValue) };

    ghost view = { λ rows. rows.vifs.items };
}

impl VifRows {
    /// No rows.
    pub fn new(alloc: Global) -> VifRows
        ensures { result ≡ [] }
    {
        VifRows {
            vifs: Vec::new(alloc),
        }
    }

    /// Reads the row of a line and adds it.
    fn add_row(&mut self, line: &Line<'_>) -> Result<(), TableFaultKind>
        ensures added { OnOk result (vif_added self.old (line_text line.now) ≡ Ok self.new) }
        ensures fault { IfErr result (λ fault. fault ≢ Memory →
            vif_added self.old (line_text line.now) ≡ Err fault) }
        ensures is_valid { OnOk result (AreValidVifRows self.old → AreValidVifRows self.new) }
    {
        let row = read_new_vif(self.vifs.as_slice(), line)?;
        self.vifs.push(row)?;
        Ok(())
    }

    /// The rows.
    pub fn into_vec(self) -> Vec<VifRow>
        ensures { result.items ≡ self }
    {
        let VifRows { vifs } = self;
        vifs
    }
}

impl TableRows for VifRows {
    ghost use Rattle.std.specs.Prelude.{codes};
    ghost use Rattle.mc_tables.specs.VifTable.{AreValidVifRows};
    ghost use Rattle.mc_tables.specs.VifsSoFar.{vif_step, vifs_from_lines};

    type Table = VifTable;

    ghost header = { codes "Interface" };

    ghost step = { vif_step };

    ghost table = { vifs_from_lines };

    ghost is_valid = { AreValidVifRows };

    fn add_line(&mut self, ended: u32, line: &Line<'_>) -> Result<(), TableFault> {
        if ended == 0 {
            return check_header(line, b"Interface");
        }
        match self.add_row(line) {
            Ok(()) => Ok(()),
            Err(kind) => Err(kind.at(line.number)),
        }
    }

    fn unended_fault(&mut self, number: u32) -> TableFault {
        TableFaultKind::Unended.at(number)
    }

    fn into_table(self) -> Result<VifTable, TableFault> {
        Ok(VifTable::from_rows(self))
    }
}
