//! Lack of memory: the reader returns it, at `top` 0, in place of a topology. `rt try --test
//! --fail-alloc N` refuses the Nth growth: the text is then read again.

use super::lookups::with_topology;
use mc_topology::*;
use std::alloc::Global;
use std::process::Abort;
use std::test::Fail;

/// Nine of each part.
const NINE: &[u8] = br#"version = 1
lans = ["l0", "l1", "l2", "l3", "l4", "l5", "l6", "l7", "l8"]
router = [
{name = "r0"},
{name = "r1"},
{name = "r2"},
{name = "r3"},
{name = "r4"},
{name = "r5"},
{name = "r6"},
{name = "r7"},
{name = "r8"},
]
interface = [
{router = "r0", device = "eth0", lan = "l0"},
{router = "r1", device = "eth1", lan = "l1"},
{router = "r2", device = "eth2", lan = "l2"},
{router = "r3", device = "eth3", lan = "l3"},
{router = "r4", device = "eth4", lan = "l4"},
{router = "r5", device = "eth5", lan = "l5"},
{router = "r6", device = "eth6", lan = "l6"},
{router = "r7", device = "eth7", lan = "l7"},
{router = "r8", device = "eth8", lan = "l8"},
]
source = [
{address = "10.0.0.1", lan = "l0"},
{address = "10.0.0.2", lan = "l1"},
{address = "10.0.0.3", lan = "l2"},
{address = "10.0.0.4", lan = "l3"},
{address = "10.0.0.5", lan = "l4"},
{address = "10.0.0.6", lan = "l5"},
{address = "10.0.0.7", lan = "l6"},
{address = "10.0.0.8", lan = "l7"},
{address = "10.0.0.9", lan = "l8"},
]
flow = [
{source = "10.0.0.1", group = "239.1.2.0", ttl = 1},
{source = "10.0.0.2", group = "239.1.2.1", ttl = 2},
{source = "10.0.0.3", group = "239.1.2.2", ttl = 3},
{source = "10.0.0.4", group = "239.1.2.3", ttl = 4},
{source = "10.0.0.5", group = "239.1.2.4", ttl = 5},
{source = "10.0.0.6", group = "239.1.2.5", ttl = 6},
{source = "10.0.0.7", group = "239.1.2.6", ttl = 7},
{source = "10.0.0.8", group = "239.1.2.7", ttl = 8},
{source = "10.0.0.9", group = "239.1.2.8", ttl = 9},
]
"#;

/// Whether memory ran out. Such a fault has the place `top` 0.
fn is_out_of_memory(rt: &impl Abort, fault: TopologyFault) -> bool {
    if fault.kind == TopologyFaultKind::Memory {
        assert!(rt; fault.section == Section::Top);
        assert_eq!(rt; fault.number, 0);
        return true;
    }
    false
}

/// There are nine of each part but the sources and the flows.
fn check_counts(rt: &impl Abort, topology: &Topology) {
    assert!(rt; topology.lans() == 9);
    assert!(rt; topology.routers() == 9);
    assert!(rt; topology.interfaces() == 9);
}

/// There are nine sources and nine flows, and the ninth of each part is found.
fn check_ninth(rt: &impl Abort, topology: &Topology) {
    assert!(rt; topology.sources() == 9);
    assert!(rt; topology.flows() == 9);
    assert!(rt; topology.lan_no("l8") == Some(LanNo(8)));
    assert!(rt; topology.router_no("r8") == Some(RouterNo(8)));
    assert!(rt; topology.lan_of_device(RouterNo(8), b"eth8") == Some(LanNo(8)));
    assert!(rt; topology.source(8).lan == LanNo(8));
    assert!(rt; topology.flow(8).ttl == 9);
}

fn check_nine(rt: &impl Abort, topology: &Topology) {
    check_counts(rt, topology);
    check_ninth(rt, topology);
}

/// Reads the topology and checks it.
fn check_read(rt: &impl Abort, alloc: Global) -> Result<(), TopologyFault> {
    with_topology(alloc, NINE, |topology| check_nine(rt, topology))
}

/// The same, a second time if memory runs out.
fn check_read_with_retry(rt: &impl Abort, alloc: Global) -> Result<(), TopologyFault> {
    match check_read(rt, alloc) {
        Err(fault) if is_out_of_memory(rt, fault) => check_read(rt, alloc),
        answer => answer,
    }
}

#[test]
fn topology_is_read_after_a_refused_growth(rt: HostRuntime) -> Result<(), Fail> {
    check_read_with_retry(&rt, rt.alloc())?;
    Ok(())
}
