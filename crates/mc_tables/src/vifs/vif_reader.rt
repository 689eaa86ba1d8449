//! Reads the table of virtual interfaces from pieces of its text.

ghost use Rattle.std.specs.Prelude.{◌≡◌, ◌≤◌, ℕ, List, length};
ghost use Rattle.mc_text.specs.Lines.{max_text};
ghost use Rattle.mc_tables.specs.VifReading.{vifs_in};
ghost use Rattle.mc_tables.specs.VifsSoFar.{vifs_start, vifs_if};

use crate::lines::table_reader::TableReader;
use crate::vifs::vif_rows::VifRows;
use std::alloc::Global;

/// A reader of `/proc/net/ip_mr_vif` that is fed the text in pieces of any size.
pub type VifReader = TableReader<VifRows>;

impl VifReader {
    /// A reader that has been fed nothing.
    pub fn new(alloc: Global) -> VifReader
        ensures start { result ≡ vifs_start }
        // Whatever text it is fed, reading ends with what the whole text is read as.
        ensures reads { (text : List ℕ) → length text ≤ max_text →
            vifs_if result text ≡ vifs_in text }
    {
        TableReader::with_rows(alloc, VifRows::new(alloc))
    }
}
