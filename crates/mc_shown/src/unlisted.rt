//! The sources and groups that routers forward and no flow lists.

mod unlisted_pairs;
mod unlisted_text;

pub use unlisted_pairs::{UnlistedPair, UnlistedPairs};
pub use unlisted_text::push_unlisted;
