//! Lost copies, and orders of handling, in three networks of one domain.

use super::network::*;
use crate::samples::{Network, VIFS, WANTED, with_domain};
use mc_forward::{Domain, Flight};
use std::alloc::Global;
use std::process::Abort;
use std::test::Fail;

/// The chain of r1 and r2 from l0 over l1 to l2; branches, of r3 and r4 from l3 over l4 to l5, and
/// of r5 from l3 to l6; and two paths, of r6 and r7 from l7 over l8 to l9, and of r8 from l7 to l9.
/// Each network has one flow.
const NETWORK: Network<'static> = Network {
    lans: "l0; l1; l2; l3; l4; l5; l6; l7; l8; l9",
    routers: "r1; r2; r3; r4; r5; r6; r7; r8",
    interfaces: "r1 eth0 l0; r1 eth1 l1; r2 eth0 l1; r2 eth1 l2; r3 eth0 l3; r3 eth1 l4; \
                 r4 eth0 l4; r4 eth1 l5; r5 eth0 l3; r5 eth1 l6; r6 eth0 l7; r6 eth1 l8; \
                 r7 eth0 l8; r7 eth1 l9; r8 eth0 l7; r8 eth1 l9",
    sources: "10.0.0.5 l0; 10.0.0.6 l3; 10.0.0.7 l7",
    flows: "10.0.0.5 239.1.2.3 3; 10.0.0.6 239.1.2.3 3; 10.0.0.7 239.1.2.3 3",
};

/// Each router forwards all three flows from vif 0 to vif 1.
const ROUTERS: &[(&str, &str)] = &[(
    VIFS,
    "030201EF 0500000A 0 0 0 0 1:1
030201EF 0600000A 0 0 0 0 1:1
030201EF 0700000A 0 0 0 0 1:1
",
); 8];

/// The last LAN of each path wants them.
const LANS: &[&str] = &["", "", WANTED, "", "", WANTED, WANTED, "", "", WANTED];

/// The waiting copies with these indexes are handled, one after the other.
fn handle_in_order(
    rt: &impl Abort,
    flight: &mut Flight<'_>,
    indexes: &[usize],
) -> Result<(), Fail> {
    for index in indexes {
        let _event = handle_copy(rt, flight, *index)?;
    }
    Ok(())
}

/// Loses a copy if an index of one is given, and handles copies in this order. Then these LANs carried
/// so many copies, and there is no stray.
fn assert_carried(
    rt: &impl Abort,
    flight: &mut Flight<'_>,
    steps: (Option<usize>, &[usize]),
    carried: &[(u32, u32)],
) -> Result<(), Fail> {
    if let Some(loss) = steps.0 {
        assert!(rt; loss < flight.waiting());
        flight.lose(loss);
    }
    handle_in_order(rt, flight, steps.1)?;
    assert!(rt; flight.strays().is_empty());
    assert_ends_with(rt, flight, carried);
    Ok(())
}

/// The same for a new packet.
fn assert_carried_by_new_flight(
    rt: &impl Abort,
    alloc: Global,
    domain: &Domain,
    packet: (u32, u8),
    steps: (Option<usize>, &[usize]),
    carried: &[(u32, u32)],
) -> Result<(), Fail> {
    let mut flight = start_flight(rt, alloc, domain, packet)?;
    let answer = assert_carried(rt, &mut flight, steps, carried);
    drop(flight);
    answer
}

/// A TTL of 2 is below the need of l5.
fn assert_branches_in_every_order(
    rt: &impl Abort,
    alloc: Global,
    domain: &Domain,
) -> Result<(), Fail> {
    let once = [(3, 1), (4, 1), (5, 1), (6, 1)];
    let low = [(3, 1), (4, 1), (5, 0), (6, 1)];
    for indexes in [[0, 0, 0], [0, 1, 0], [1, 0, 0]] {
        assert_carried_by_new_flight(rt, alloc, domain, (1, 3), (None, &indexes), &once)?;
        assert_carried_by_new_flight(rt, alloc, domain, (1, 2), (None, &indexes), &low)?;
    }
    Ok(())
}

/// The first copy of the chain is lost, one of a branch, and one of two paths.
fn assert_losses(rt: &impl Abort, alloc: Global, domain: &Domain) -> Result<(), Fail> {
    let first = [(0, 1), (1, 0), (2, 0)];
    assert_carried_by_new_flight(rt, alloc, domain, (0, 3), (Some(0), &[]), &first)?;
    let branch = [(3, 1), (4, 0), (5, 0), (6, 1)];
    assert_carried_by_new_flight(rt, alloc, domain, (1, 3), (Some(0), &[0]), &branch)?;
    let second = [(7, 1), (8, 1), (9, 1)];
    assert_carried_by_new_flight(rt, alloc, domain, (2, 3), (Some(1), &[0, 0, 0]), &second)
}

fn assert_orders_and_losses(rt: &impl Abort, alloc: Global, domain: &Domain) -> Result<(), Fail> {
    assert_branches_in_every_order(rt, alloc, domain)?;
    assert_losses(rt, alloc, domain)?;
    // with TTL 2 the chain's r2 sends no copy
    let low = [(0, 1), (1, 1), (2, 0)];
    assert_carried_by_new_flight(rt, alloc, domain, (0, 2), (None, &[0, 0]), &low)
}

#[test]
fn orders_and_losses(rt: HostRuntime) -> Result<(), Fail> {
    let alloc = rt.alloc();
    with_domain(alloc, &NETWORK, ROUTERS, LANS, |domain| {
        assert_orders_and_losses(&rt, alloc, domain)
    })
}
