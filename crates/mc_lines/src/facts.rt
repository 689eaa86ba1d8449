//! The facts that fill a sentence, and their text.

pub(crate) mod fact;
mod fact_text;
pub(crate) mod fill;

pub use fact::Fact;
