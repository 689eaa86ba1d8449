//! A row of the table of virtual interfaces.

use crate::vifs::vif::Vif;
use std::marker::Model;

/// A row: a vif and its index.
#[derive(Debug, Drop)]
pub struct VifRow {
    /// Its index, 0 to 31.
    pub index: u8,
    /// The vif.
    pub vif: Vif,
}

impl Model for VifRow {
    ghost use Rattle.std.specs.Prelude.{ℕ};
    ghost use Rattle.mc_tables.specs.VifTable.{VifValue};

    ghost Value = { ℕ × VifValue };

    ghost view = { λ row. (row.index, row.vif) };
}
