//! How findings, travels and verdicts are shown in a text.

pub(crate) mod found_text;
pub(crate) mod travel_text;
pub(crate) mod verdict_text;

pub use travel_text::push_events;
pub use verdict_text::{FlowWords, push_flow_verdict, push_overall_verdict};
