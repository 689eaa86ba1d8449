//! What each command but `audit` does with what it reads, and what it writes and answers; the fault of a
//! run, and how a refusal is said.
#![tactic(auto)]

mod check;
mod domain_input;
mod fault;
pub mod laws;
mod make;
mod pack;
mod refusals;
mod replay;
mod run_output;
mod shown;
mod wants;

pub use check::run_check;
pub use fault::RunFault;
pub use make::run_make;
pub use pack::run_pack;
pub use refusals::{print_refused_files, refusal_lines};
pub use replay::run_replay;
pub use run_output::{RunOutput, write_output};
pub use shown::{FlowWords, push_events, push_flow_verdict, push_overall_verdict};
pub use wants::run_wants;
