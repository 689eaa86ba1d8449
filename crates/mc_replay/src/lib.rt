//! The replayer: the travel of one packet through a domain, its copies handled in the order that a
//! picker chooses, up to the first flight with a finding.
#![tactic(auto)]

mod finding;
mod flight_finding;
mod past_strays;
mod picker;
mod shown;
mod travel;

pub use finding::Finding;
pub use flight_finding::misses_any_lan;
pub use past_strays::{FlightPastStrays, run_past_strays};
pub use picker::{First, Last, Numbers, Picker};
pub use shown::{ShownEvent, ShownFinding, shown_event};
pub use travel::{FinishedTravel, Travel, replay, replay_to_end};
