//! A cause of a flow's fault.

mod behind;
mod explained;
mod explanation;
mod hop;
mod path;
mod second_copy;
mod shown_need;

pub use behind::{Behind, behind_stray};
pub use explained::explain;
pub use explanation::{Certainty, Explanation, ShownBy};
use mc_topology::{LanNo, RouterNo};
pub use shown_need::shown_from;

/// A cause of a flow's fault, with LANs, routers and vifs by their numbers. A router's row is the one that
/// it has for the flow.
#[derive(Clone, Copy, Debug)]
pub enum Cause {
    /// A router's row sent a copy onto the LAN by this vif.
    SentOnto {
        /// The LAN.
        lan: LanNo,
        /// The router.
        router: RouterNo,
        /// Its vif, 0 to 31.
        vif: u8,
    },
    /// A router's row takes copies from a LAN of a circle, and sends them onto the next LAN by this vif.
    Circle {
        /// The LAN that it takes from.
        from: LanNo,
        /// The LAN that it sends onto.
        onto: LanNo,
        /// The router.
        router: RouterNo,
        /// The vif by which it sends, 0 to 31.
        vif: u8,
    },
    /// If this vif is taken out of the router's row, the LAN's second copy isn't sent, and packets with a
    /// TTL of at least `least` still reach each LAN that they reached before.
    TakeOut {
        /// The LAN that carried two copies.
        lan: LanNo,
        /// The router.
        router: RouterNo,
        /// The vif, 0 to 31.
        vif: u8,
        /// The least TTL with which packets reach the LAN by the path of its first copy, 1 to 255.
        least: u8,
    },
    /// A router's row sent a copy by this vif, which is placed on no LAN.
    Unplaced {
        /// The router.
        router: RouterNo,
        /// The vif.
        vif: u8,
    },
    /// A copy came in by this vif of a router whose only resolved row for the flow is for every source.
    OnlyEverySource {
        /// The router.
        router: RouterNo,
        /// The vif, 0 to 31.
        vif: u8,
    },
    /// Packets with this TTL reach the LAN, and packets with a lower one don't.
    LeastTtl {
        /// The LAN.
        lan: LanNo,
        /// The TTL, 1 to 255.
        least: u8,
    },
    /// On the path to that LAN the threshold of this vif stopped the flow's packet.
    StoppedAt {
        /// The router.
        router: RouterNo,
        /// The vif, 0 to 31.
        vif: u8,
        /// Its threshold, 1 to 255.
        threshold: u8,
        /// The packet's TTL when it came to the router.
        ttl: u8,
    },
}
