//! The search back from a LAN that a packet missed, router by router.
#![tactic(auto)]

mod excluded;
mod first_copies;
mod interfaces_of_lans;
mod lan_lines;
mod lan_probe;
pub mod laws;
mod listed_interface;
mod reach;
mod routers_on_lan;
mod search_line;
mod searching;
mod shown_line;
mod visited_lans;

pub use excluded::is_excluded;
pub use first_copies::FirstCopies;
pub use interfaces_of_lans::{InterfacesOfLans, vif_of_device};
pub use reach::Reach;
pub use search_line::SearchLine;
pub use searching::{LanSearch, search};
pub use shown_line::{ExpectingRouters, ShownLine, ShownLines};
