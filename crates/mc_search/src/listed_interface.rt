//! An interface of the topology, with its router's vif.

use mc_topology::RouterNo;

/// An interface that the topology has on some LAN.
#[derive(Clone, Copy, Debug, PartialEq, Eq)]
pub(crate) struct ListedInterface {
    /// Its router.
    pub(crate) router: RouterNo,
    /// Its number, in the topology's order from 0.
    pub(crate) interface: u32,
    /// The router's vif of its device, if the router has one.
    pub(crate) vif: Option<u8>,
}
