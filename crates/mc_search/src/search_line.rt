//! A line of the search for why a LAN carried no copy.

use mc_topology::{LanNo, RouterNo};

/// A line of the search for a missed LAN. A router's row is the one that it has for the flow.
#[derive(Clone, Copy, Debug)]
pub enum SearchLine {
    /// The router is excluded, so its tables are not known.
    Excluded {
        /// The LAN.
        lan: LanNo,
        /// The router.
        router: RouterNo,
    },
    /// The router has no vif of the device that the topology has on the LAN.
    NoVif {
        /// The LAN.
        lan: LanNo,
        /// The router.
        router: RouterNo,
        /// The number of the topology's interface, whose device it is.
        interface: u32,
    },
    /// The router has that device as a tunnel or as a register vif.
    NotMulticast {
        /// The LAN.
        lan: LanNo,
        /// The router.
        router: RouterNo,
        /// The number of the topology's interface, whose device it is.
        interface: u32,
    },
    /// The router has no row, and none for every source.
    NoRow {
        /// The LAN.
        lan: LanNo,
        /// The router.
        router: RouterNo,
    },
    /// The router has only an unresolved row, and none for every source.
    Unresolved {
        /// The LAN.
        lan: LanNo,
        /// The router.
        router: RouterNo,
    },
    /// The router's only resolved row for the flow is for every source.
    EverySource {
        /// The LAN.
        lan: LanNo,
        /// The router.
        router: RouterNo,
    },
    /// The incoming vif of the router's row is placed on no LAN.
    FromUnplaced {
        /// The LAN.
        lan: LanNo,
        /// The router.
        router: RouterNo,
    },
    /// The router's row takes from another LAN, and doesn't send by this vif on the LAN.
    DoesNotSend {
        /// The LAN.
        lan: LanNo,
        /// The router.
        router: RouterNo,
        /// The vif, 0 to 31.
        vif: u8,
        /// The LAN that the row takes from.
        from: LanNo,
        /// Whether that LAN carried a copy.
        carried: bool,
    },
    /// The router's row sends by this vif on the LAN, and takes from a LAN that carried a copy, which
    /// the threshold stops.
    Stopped {
        /// The LAN.
        lan: LanNo,
        /// The router.
        router: RouterNo,
        /// The vif, 0 to 31.
        vif: u8,
        /// Its threshold, 1 to 255.
        threshold: u8,
        /// The TTL of the first copy on the LAN that the row takes from.
        ttl: u8,
    },
    /// The router's row sends by this vif on the LAN, and takes from a LAN that carried no copy.
    WaitsFor {
        /// The LAN.
        lan: LanNo,
        /// The router.
        router: RouterNo,
        /// The vif, 0 to 31.
        vif: u8,
        /// The LAN that the row takes from.
        from: LanNo,
    },
    /// The router's row takes from this LAN.
    ExpectedFromHere {
        /// The LAN.
        lan: LanNo,
        /// The router.
        router: RouterNo,
    },
    /// No router has an interface on the LAN.
    NoRouter {
        /// The LAN.
        lan: LanNo,
    },
    /// No router on the LAN has a row that sends onto it, and none of them is excluded.
    NoSender {
        /// The LAN.
        lan: LanNo,
    },
}
