//! The audit, and the run of the task that the command line asks for.
#![tactic(auto)]

mod audit;
mod excluded;
pub mod laws;
mod task;

pub use audit::{AuditAnswer, AuditCounts, LeftOut, run_audit};
pub use task::run_task;
