//! Reads the multicast forwarding tables of a Linux router as its kernel prints them: the texts of
//! `/proc/net/ip_mr_vif` and `/proc/net/ip_mr_cache`.
#![tactic(auto)]

mod cache;
mod fault;
mod fed_tables;
pub mod laws;
mod lines;
mod listed;
mod summary;
mod vifs;

pub use cache::{CacheReader, CacheTable, EachRow, EachRowReader, Entry, FlatOifs, Oif, RowFold};
pub use fault::{TableFault, TableFaultKind};
pub use lines::{MAX_VIFS, TableReader, TableRows};
pub use listed::ListedPairs;
pub use summary::{
    CacheSummary, SummarizedCache, SummaryPairs, SummaryReader, drop_repeats, pairs_in_order,
    sorted_without_repeats,
};
pub use vifs::{Vif, VifReader, VifTable};
