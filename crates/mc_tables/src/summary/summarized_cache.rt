//! A forwarding cache with its summary.

use crate::cache::cache_table::CacheTable;
use crate::summary::cache_summary::CacheSummary;

/// The table of the rows that are kept, and the summary of all rows.
#[derive(Debug, Drop)]
pub struct SummarizedCache {
    /// The table.
    pub table: CacheTable,
    /// The summary.
    pub summary: CacheSummary,
}
