//! The sentences of an explanation, a kind of line at a time.

pub(crate) mod cause_lines;
mod lan_lines;
pub(crate) mod reach_lines;
mod row_lines;
pub(crate) mod search_lines;

pub use cause_lines::add_causes;
pub use search_lines::add_search;
