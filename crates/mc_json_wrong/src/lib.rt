//! The line of a flow with a finding as JSON: the finding, and what explains it.
#![tactic(auto)]

mod behind_value;
mod fact_value;
pub mod laws;
mod line_values;
mod wrong_line;

pub use wrong_line::{FoundTravel, push_wrong_line};
