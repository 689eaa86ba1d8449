//! What is kept of a cache's rows beside those that are listed.

mod cache_summary;
mod distinct;
mod lowest_pairs;
mod pair_order;
mod shown_pairs;
pub(crate) mod summarized_cache;
mod summarized_rows;
pub(crate) mod summary_pairs;
pub(crate) mod summary_reader;
pub(crate) mod summary_so_far;
pub(crate) mod unlisted_rows;

pub use cache_summary::CacheSummary;
pub use pair_order::{drop_repeats, pairs_in_order, sorted_without_repeats};
pub use summarized_cache::SummarizedCache;
pub use summary_pairs::SummaryPairs;
pub use summary_reader::SummaryReader;
