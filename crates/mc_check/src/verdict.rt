//! The verdict on a flow, and why a list of entries is refused.

use mc_topology::{LanNo, RouterNo};

/// Whether a list of entries certifies a flow.
#[derive(Clone, Copy, Debug, PartialEq, Eq)]
pub enum Verdict {
    /// It does, and no packet of the flow is copied onto more LANs than the list has entries.
    Yes {
        /// The number of the list's entries, at most 4,294,967,295.
        copies: u32,
    },
    /// It doesn't, for the first condition that it breaks.
    No(Reason),
}

/// The first condition that a list of entries breaks, with its place.
/// The number in front of each never changes.
#[derive(Clone, Copy, Debug, PartialEq, Eq)]
pub enum Reason {
    /// (1) Two entries name the LAN.
    TwoEntries(LanNo),
    /// (2) The source's LAN isn't named with rank 0, need 1 and no forwarder, or an entry of
    /// another LAN has no forwarder.
    BadSource,
    /// (3) The router has no entry for the flow's source and group, but one for every source of its
    /// group or of all groups, and the vif, its lowest such, is placed on a named LAN.
    Wildcard(RouterNo, u8),
    /// (4) The router sends copies from a named LAN out of the vif, and the vif isn't placed.
    Stray(RouterNo, u8),
    /// (5) The router sends copies from a named LAN out of the vif onto the LAN, which isn't named with
    /// that forwarder.
    Extra(RouterNo, u8, LanNo),
    /// (6) The LAN's rank isn't one more than that of the LAN that feeds it.
    WrongRank(LanNo),
    /// (7) The LAN's need isn't the least TTL with which packets reach it.
    WrongNeed(LanNo),
    /// (8) The LAN's forwarder doesn't send onto it.
    Unfed(LanNo),
    /// (9) The LAN wants the flow and isn't named.
    Missed(LanNo),
    /// (10) The LAN wants the flow, and its need is above the flow's least TTL.
    Low(LanNo),
}
