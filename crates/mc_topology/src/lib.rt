//! The operator's topology, in TOML: the LANs and routers of a domain by name, the LAN of each
//! interface and of each source, and the flows.
#![tactic(auto)]

mod fault;
mod flow;
mod flows;
mod interface;
mod interfaces;
mod lans;
pub mod laws;
mod name;
mod number;
mod read;
mod routers;
mod source;
mod sources;
mod topology;
mod word_at;

pub use fault::{Section, TopologyFault, TopologyFaultKind};
pub use flow::Flow;
pub use interface::Interface;
pub use name::is_name;
pub use number::{LanNo, RouterNo};
pub use source::Source;
pub use topology::Topology;
pub use word_at::{WordAtLan, WordAtVif};
