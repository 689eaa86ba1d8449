//! Source filters: the sources of a group that the hosts of a LAN want, merged from their reports
//! (RFC 3376, section 3.2).
#![tactic(auto)]

mod addresses;
mod channels;
mod filter;
mod filter_builder;
pub mod laws;
mod tally;
mod wants;

pub use channels::{ChannelWants, Channels};
pub use filter::{Filter, Mode};
pub use wants::{is_wanted, wants_of};
