//! Reads the forwarding cache and a summary of its rows from pieces of its text.

ghost use Rattle.std.specs.Prelude.{◌≡◌, ◌≤◌, ℕ, List, length};
ghost use Rattle.mc_text.specs.Lines.{max_text};
ghost use Rattle.mc_tables.specs.SummaryReading.{summary_start, summary_in, summary_if};

use crate::lines::table_reader::TableReader;
use crate::summary::summarized_rows::SummarizedRows;
use crate::summary::summary_pairs::SummaryPairs;
use mc_text::Order;
use std::alloc::Global;

/// A reader of `/proc/net/ip_mr_cache` that reads like `CacheReader`, and besides summarizes what
/// explains how packets of the listed sources and groups are forwarded.
pub type SummaryReader = TableReader<SummarizedRows>;

impl SummaryReader {
    /// A reader that has been fed nothing, for a router whose machine has this byte order. It keeps
    /// the rows of these sources and groups and summarizes what concerns them. Of the rows of others
    /// the summary has all sources and groups if `all`, or else the lowest 20.
    pub fn new(alloc: Global, order: Order, listed: SummaryPairs, all: bool) -> SummaryReader
        ensures start { result ≡ summary_start all order listed }
        // Whatever text it is fed, reading ends with what the whole text is read as.
        ensures reads { (text : List ℕ) → length text ≤ max_text →
            summary_if result text ≡ summary_in all order listed text }
    {
        TableReader::with_rows(alloc, SummarizedRows::new(alloc, order, listed, all))
    }
}
