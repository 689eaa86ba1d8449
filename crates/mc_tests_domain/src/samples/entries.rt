//! The entries of certificates.

use mc_cert::Reached;
use mc_topology::{LanNo, RouterNo};

/// The entry of the source's LAN, with this need.
pub(crate) fn source_entry(need: u8) -> Reached {
    Reached {
        lan: LanNo(0),
        rank: 0,
        need,
        forwarder: None,
    }
}

/// The entry of another LAN, whose number is its rank.
pub(crate) fn entry_behind(lan: u8, need: u8, router: u32, vif: u8) -> Reached {
    Reached {
        lan: LanNo(lan.into()),
        rank: lan,
        need,
        forwarder: Some((RouterNo(router), vif)),
    }
}

/// The entries that certify a flow along the chain.
pub(crate) fn chain_entries() -> [Reached; 3] {
    [
        source_entry(1),
        entry_behind(1, 2, 0, 1),
        entry_behind(2, 3, 1, 1),
    ]
}
