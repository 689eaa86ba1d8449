//! A flow of a topology.

use crate::number::LanNo;
use mc_text::Addr;

/// The greatest number of flows.
pub(crate) const MAX_FLOWS: usize = 4096;

/// A flow: the packets that a source sends to a group.
#[derive(Clone, Copy, Debug, PartialEq, Eq)]
pub struct Flow {
    /// The address of the source.
    pub source: Addr,
    /// The LAN of the source.
    pub lan: LanNo,
    /// The address of the group.
    pub group: Addr,
    /// The least time to live with which the source sends, 1 to 255.
    pub ttl: u8,
}
