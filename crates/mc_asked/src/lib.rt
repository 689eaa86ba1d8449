//! What hosts ask for and no flow answers: the wants of each LAN's list of reports, which of them a listed
//! flow or the LAN itself answers, which are ignored or a service's, and what a router has for the
//! others. Nothing here decides a verdict.
#![tactic(auto)]

mod answers;
mod asked_lines;
mod classified_wants;
mod few_repeats;
mod forwarding;
mod group_run;
mod lan_wants;
pub mod laws;
mod services;
mod shared_pairs;
mod unadmitted;
mod unadmitted_sources;
mod unanswered;
mod want_class;
mod want_sources;
mod want_states;
mod wants;

pub use answers::WantAnswers;
pub use asked_lines::{AskedLines, count_wants, service_lines};
pub use forwarding::{RouterState, state_with_row};
pub use lan_wants::LanWants;
pub use services::service_name;
pub use shared_pairs::SharedPair;
pub use unadmitted_sources::UnadmittedSources;
pub use want_class::WantClass;
pub use want_states::{AskedWant, StatedWant, WantStates};
