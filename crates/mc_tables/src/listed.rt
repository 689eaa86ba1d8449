//! Which rows of a cache are of the flows that a topology lists, and their order.

pub(crate) mod digit_sort;
pub(crate) mod listed_entry_numbers;
pub(crate) mod listed_pairs;

pub use listed_pairs::ListedPairs;
