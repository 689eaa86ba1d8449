//! Travels by pickers that no command has. The others are cases and rows of the command line.

use crate::samples::{CHAIN, FORWARDS, LAST_WANTS, Network, with_domain};
use mc_forward::Domain;
use mc_replay::{First, Numbers, Picker, Travel, replay, shown_event};
use mc_topology::Topology;
use std::alloc::Global;
use std::fmt::Write;
use std::process::Abort;
use std::test::Fail;

/// The events of a travel, a line each, and what it finds.
fn travel_text(alloc: Global, topology: &Topology, travel: &Travel) -> Result<String, Fail> {
    let mut text = String::new(alloc);
    for event in &travel.events {
        writeln!(text, "{}", shown_event(*event, topology))?;
    }
    write!(text, "{}", travel.finding.shown(topology))?;
    Ok(text)
}

/// With this picker the packet of the first flow with this TTL has this travel.
fn assert_travel<P: Picker>(
    rt: &impl Abort,
    alloc: Global,
    domain: &Domain,
    ttl: u8,
    picker: &mut P,
    wanted: &str,
) -> Result<(), Fail> {
    assert!(rt; 0 < domain.topology().flows());
    assert!(rt; ttl > 0);
    let travel = replay(alloc, domain, 0, ttl, picker)?;
    let text = travel_text(alloc, domain.topology(), &travel)?;
    assert!(rt; text.as_str() == wanted, "{text}");
    Ok(())
}

/// `Numbers`, where 7 picks the same as 1 of two waiting copies, and a reference to `First`.
fn assert_picks(rt: &impl Abort, alloc: Global, domain: &Domain) -> Result<(), Fail> {
    for number in [1, 7] {
        let mut picker = Numbers::new(vec![in alloc; number]?);
        assert_travel(
            rt,
            alloc,
            domain,
            3,
            &mut picker,
            "r3 0 ttl 3 sent 1 strayed 0
r1 0 ttl 3 sent 1 strayed 0
r2 1 ttl 2 other vif
r2 0 ttl 2 sent 1 strayed 0
Duplicate l2",
        )?;
    }
    assert_travel(
        rt,
        alloc,
        domain,
        2,
        &mut &mut First,
        "r1 0 ttl 2 sent 1 strayed 0
r3 0 ttl 2 sent 1 strayed 0
r2 0 ttl 1 sent 0 strayed 0
r2 1 ttl 1 other vif
Clean",
    )
}

/// r3 from l0 to l2, beside the chain of r1 and r2, and two flows.
const TWO_PATHS: Network<'static> = Network {
    routers: "r1; r2; r3",
    interfaces: "r1 eth0 l0; r1 eth1 l1; r2 eth0 l1; r2 eth1 l2; r3 eth0 l0; r3 eth1 l2",
    flows: "10.0.0.5 239.1.2.3 3; 10.0.0.5 239.1.2.4 3",
    ..CHAIN
};

/// Each router forwards the first flow.
const ROUTERS: &[(&str, &str)] = &[FORWARDS, FORWARDS, FORWARDS];

#[test]
fn numbers_picker_and_borrowed_picker(rt: HostRuntime) -> Result<(), Fail> {
    let alloc = rt.alloc();
    with_domain(alloc, &TWO_PATHS, ROUTERS, LAST_WANTS, |domain| {
        assert_picks(&rt, alloc, domain)
    })
}
