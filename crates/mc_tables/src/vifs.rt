//! The table of virtual interfaces: its lines, its reader and its lookups.

mod vif;
mod vif_line;
mod vif_reader;
mod vif_row;
mod vif_rows;
mod vif_table;

pub use vif::Vif;
pub use vif_reader::VifReader;
pub use vif_table::VifTable;
