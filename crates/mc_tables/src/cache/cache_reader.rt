//! Reads the forwarding cache from pieces of its text.

ghost use Rattle.std.specs.Prelude.{◌≡◌, ◌≤◌, ℕ, List, length, Some};
ghost use Rattle.mc_text.specs.Lines.{max_text};
ghost use Rattle.mc_tables.specs.ListedRows.{listed_in};
ghost use Rattle.mc_tables.specs.RowsSoFar.{cache_start, cache_if};

use crate::cache::cache_row_reader::CacheRowReader;
use crate::lines::table_reader::TableReader;
use crate::listed::listed_pairs::ListedPairs;
use mc_text::Order;
use std::alloc::Global;

/// A reader of `/proc/net/ip_mr_cache` that is fed the text in pieces of any size. It keeps the
/// rows of listed sources and groups, the groups of rows for every source, and the source, the
/// group and the line of each other resolved row. It searches these once for a repeated one: before
/// it returns another fault, or at the end of the text.
pub type CacheReader = TableReader<CacheRowReader>;

impl CacheReader {
    /// A reader that has been fed nothing, for a router whose machine has this byte order. It keeps
    /// the rows of these sources and groups.
    pub fn new(alloc: Global, order: Order, listed: ListedPairs) -> CacheReader
        ensures start { result ≡ cache_start order (Some listed) }
        // Whatever text it is fed, reading ends with what the whole text is read as.
        ensures reads { (text : List ℕ) → length text ≤ max_text →
            cache_if result text ≡ listed_in order (Some listed) text }
    {
        TableReader::with_rows(alloc, CacheRowReader::new(alloc, order, listed))
    }
}
