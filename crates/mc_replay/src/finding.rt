//! The finding of a replay.

use mc_topology::{LanNo, RouterNo};

/// What the last flight of a travel shows.
#[derive(Clone, Copy, Debug, PartialEq, Eq)]
pub enum Finding {
    /// No copy waits, no LAN carried two copies, no copy left the known domain, and each LAN that
    /// wants the flow carried one.
    Clean,
    /// The LAN carried a second copy.
    Duplicate(LanNo),
    /// The LAN carried a second copy, which stems from its own first one.
    Loop(LanNo),
    /// A copy left the known domain by this router's vif.
    Stray(RouterNo, u8),
    /// No copy waits, and this is the lowest LAN that wants the flow and carried no copy.
    Missed(LanNo),
}
