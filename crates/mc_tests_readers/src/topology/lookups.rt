//! Look-ups in a small network: LANs l0 to l2, r1 between l0 and l1, r2 between l1 and l2, a router with
//! a LAN's name, and one flow.

use mc_text::{Addr, Order};
use mc_topology::*;
use std::alloc::Global;
use std::test::Fail;

pub(super) const NETWORK: &str = r#"version = 1
lans = ["l0", "l1", "l2"]
router = [{name = "r1"}, {name = "r2", order = "big"}, {name = "l0"}]
interface = [
{router = "r1", device = "eth0", lan = "l0"},
{router = "r1", device = "eth1", lan = "l1"},
{router = "r2", device = "eth0", lan = "l1"},
{router = "r2", device = "eth1", lan = "l2"},
]
source = [{address = "10.0.0.5", lan = "l0"}]
flow = [{source = "10.0.0.5", group = "239.1.2.3", ttl = 3}]
"#;

/// Reads the topology of a text, and returns what `query` says of it.
pub(crate) fn with_topology<R, F: FnOnce(&Topology) -> R + Drop>(
    alloc: Global,
    text: &[u8],
    query: F,
) -> Result<R, TopologyFault>
    requires { F.IsAlwaysCallable query }
{
    match Topology::read(alloc, text) {
        Ok(topology) => {
            let answer = query(&topology);
            drop(topology);
            Ok(answer)
        }
        Err(fault) => Err(fault),
    }
}

/// Whether each name has its number. A router and a LAN may have the same name.
fn has_names(topology: &Topology) -> bool {
    topology.router_no("r1") == Some(RouterNo(0))
        && topology.router_no("r2") == Some(RouterNo(1))
        && topology.router_no("l0") == Some(RouterNo(2))
        && topology.router_no("l1").is_none()
        && topology.lan_no("l0") == Some(LanNo(0))
        && topology.lan_no("l1") == Some(LanNo(1))
        && topology.lan_no("r1").is_none()
}

/// Whether each device is on its LAN.
fn has_devices(topology: &Topology) -> bool {
    topology.lan_of_device(RouterNo(0), b"eth0") == Some(LanNo(0))
        && topology.lan_of_device(RouterNo(0), b"eth1") == Some(LanNo(1))
        && topology.lan_of_device(RouterNo(1), b"eth0") == Some(LanNo(1))
        && topology.lan_of_device(RouterNo(1), b"eth1") == Some(LanNo(2))
        && topology.lan_of_device(RouterNo(1), b"eth2").is_none()
        && topology.lan_of_device(RouterNo(2), b"eth0").is_none()
        && topology.lan_of_device(RouterNo(3), b"eth0").is_none()
}

/// Whether the counts are right, and what is found by a number.
fn has_numbers(topology: &Topology) -> bool {
    if topology.routers() != 3
        || topology.lans() != 3
        || topology.interfaces() != 4
        || topology.flows() != 1
    {
        return false;
    }
    let third = topology.interface(2);
    topology.router_name(RouterNo(1)) == "r2"
        && topology.lan_name(LanNo(2)) == "l2"
        && topology.order(RouterNo(0)) == Order::Little
        && topology.order(RouterNo(1)) == Order::Big
        && third.router == RouterNo(1)
        && third.lan == LanNo(1)
        && third.device == b"eth0".as_slice()
}

fn has_flow(topology: &Topology) -> bool {
    let flow = Flow {
        source: Addr::from_octets([10, 0, 0, 5]),
        lan: LanNo(0),
        group: Addr::from_octets([239, 1, 2, 3]),
        ttl: 3,
    };
    topology.flows() == 1 && *topology.flow(0) == flow
}

fn has_all(topology: &Topology) -> bool {
    has_names(topology) && has_devices(topology) && has_numbers(topology) && has_flow(topology)
}

#[test]
fn topology_lookups_answer(rt: HostRuntime) -> Result<(), Fail> {
    let found = with_topology(rt.alloc(), NETWORK.as_bytes(), |topology| has_all(topology))?;
    assert!(rt; found);
    Ok(())
}
