//! A domain, put together from its topology, the kernel tables of its routers and the reports of its
//! hosts, and the flight of one packet's copies through it, one handling at a time.
#![tactic(auto)]

mod assemble;
mod copies;
mod copy;
mod domain;
mod event;
mod first_copies;
mod flight;
mod flow_rows;
mod flow_view;
mod flow_with_rows;
mod interfaces;
mod items;
pub mod laws;
mod outgoing;
mod per_lan;
mod refused;
mod router_tables;
mod row;
mod tables;
mod unplaced;
mod vif_lans;
mod wants;

pub use copy::{CarriedCopy, Stray};
pub use domain::Domain;
pub use event::{Event, Outcome};
pub use first_copies::{record_first_copies, sender_on};
pub use flight::Flight;
pub use flow_view::FlowView;
pub use flow_with_rows::FlowWithRows;
pub use interfaces::Interfaces;
pub use items::Items;
pub use outgoing::{outgoing_from, threshold_of};
pub use per_lan::PerLan;
pub use refused::{DomainFault, Refused};
pub use router_tables::RouterTables;
pub use row::RowFor;
pub use tables::Tables;
pub use unplaced::UnplacedReason;
pub use wants::{FlowChannels, source_group_pairs};
