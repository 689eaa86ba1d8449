//! Why a domain can't be put together.

use crate::tables::Tables;
use mc_igmp::ReportList;
use mc_topology::Topology;
use thiserror::Error;

/// What is wrong with the parts of a domain, the first fault in this order.
/// The number in front of each never changes.
#[derive(Clone, Copy, Debug, PartialEq, Eq, Error)]
pub enum DomainFault {
    /// (1) There is not one `Tables` for each router, or not one report list for each LAN.
    #[error("Count")]
    Count,
    /// (2) Memory ran out.
    #[error("Memory")]
    Memory,
}

/// The parts of which no domain can be put together, unchanged, and why.
#[derive(Debug, Drop)]
pub struct Refused {
    /// The topology.
    pub topology: Topology,
    /// The routers' tables.
    pub tables: Vec<Tables>,
    /// The LANs' reports.
    pub reports: Vec<ReportList>,
    /// What is wrong.
    pub fault: DomainFault,
}
