//! The sentences of an explanation. Each kind of line is described once, by its sentences and its facts,
//! and is written as text here and as JSON above.
#![tactic(auto)]

mod behind;
mod context;
mod deeper_text;
mod explanation_text;
mod facts;
pub mod laws;
mod line_sink;
mod sentences;
mod text_sink;

pub use behind::push_leaks_behind;
pub use context::LineContext;
pub use explanation_text::{push_causes, push_deeper_causes, push_search};
pub use facts::Fact;
pub use line_sink::LineSink;
pub use sentences::{add_causes, add_search};
pub use text_sink::push_sentences;
