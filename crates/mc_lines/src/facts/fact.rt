//! The facts of a line.

use mc_topology::{LanNo, RouterNo};

/// A fact of a line. A router's row is the one that it has for the flow.
#[derive(Clone, Copy, Debug)]
pub enum Fact<'r> {
    /// The name of a LAN.
    Lan(LanNo),
    /// The name of a router.
    Router(RouterNo),
    /// The device of a router's vif.
    Device(RouterNo, u8),
    /// The device of the topology's interface with this number.
    Interface(u32),
    /// The device of the incoming vif of a router's row.
    IncomingDevice(RouterNo),
    /// The number of that vif.
    IncomingVif(RouterNo),
    /// A router's row.
    Row(RouterNo),
    /// A router's row for every source.
    EverySourceRow(RouterNo),
    /// Whether something holds.
    Flag(bool),
    /// A number.
    Number(u8),
    /// The names of routers. A sentence has the first 8, each after a space, and how many more there are.
    Routers(&'r [RouterNo]),
}
