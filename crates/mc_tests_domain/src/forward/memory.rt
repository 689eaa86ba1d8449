//! Failed allocations: the parts that `assemble` hands back, and the flight that `handle` leaves.
//! Without a failure these tests compare the calls' answers. `rt try --test --fail-alloc N`, for N
//! from 1 on, makes the Nth allocation fail: the call is then retried with what the failed one left.

use super::network::*;
use crate::samples::{CHAIN, Network, Parts, VIFS, WANTED, assemble_domain, parts_of, topology_of};
use mc_forward::{CarriedCopy, Domain, DomainFault, Event, Flight, Outcome, Refused, Stray};
use mc_topology::{LanNo, Topology};
use std::alloc::{AllocError, Global};
use std::process::Abort;
use std::test::Fail;

/// r1 from l0 to l1 and l2, and five routers from l1 to l2.
const WIDE: Network<'static> = Network {
    routers: "r1; r2; r3; r4; r5; r6",
    interfaces: "r1 eth0 l0; r1 eth1 l1; r1 eth2 l2; r2 eth0 l1; r2 eth1 l2; r3 eth0 l1; \
                 r3 eth1 l2; r4 eth0 l1; r4 eth1 l2; r5 eth0 l1; r5 eth1 l2; r6 eth0 l1; \
                 r6 eth1 l2",
    flows: "10.0.0.5 239.1.2.3 5",
    ..CHAIN
};

/// r1's vifs and its row, which also forwards to a vif that doesn't exist.
const FIRST_ROUTER: (&str, &str) = (
    "Interface BytesIn PktsIn BytesOut PktsOut Flags Local Remote
0 eth0 0 0 0 0 00000 00000000 00000000
1 eth1 0 0 0 0 00000 00000000 00000000
2 eth2 0 0 0 0 00000 00000000 00000000
",
    "Group Origin Iif Pkts Bytes Wrong Oifs
030201EF 0500000A 0 0 0 0 1:1 2:1 7:1
",
);

/// A router that forwards from vif 0 to vif 1 and to a vif that doesn't exist.
const OTHER_ROUTER: (&str, &str) = (
    VIFS,
    "Group Origin Iif Pkts Bytes Wrong Oifs
030201EF 0500000A 0 0 0 0 1:1 9:1
",
);

const ROUTERS: &[(&str, &str)] = &[
    FIRST_ROUTER,
    OTHER_ROUTER,
    OTHER_ROUTER,
    OTHER_ROUTER,
    OTHER_ROUTER,
    OTHER_ROUTER,
];

/// The domain of the parts that a failed call handed back.
fn assemble_handed_back_parts(
    rt: &impl Abort,
    alloc: Global,
    refused: Refused,
) -> Result<Domain, Fail> {
    assert_eq!(rt; refused.fault, DomainFault::Memory);
    assemble_domain(alloc, refused.topology, (refused.tables, refused.reports))
}

/// The domain of these parts, retried with those that a failed call handed back.
fn assemble_with_retry(
    rt: &impl Abort,
    alloc: Global,
    topology: Topology,
    parts: Parts,
) -> Result<Domain, Fail> {
    match Domain::assemble(alloc, topology, parts.0, parts.1) {
        Ok(domain) => Ok(domain),
        Err(refused) => assemble_handed_back_parts(rt, alloc, refused),
    }
}

/// The domain of a network and these parts, retried after a failed allocation.
fn assemble_network_with_retry(
    rt: &impl Abort,
    alloc: Global,
    network: &Network<'_>,
    parts: Parts,
) -> Result<Domain, Fail> {
    let topology = topology_of(alloc, network)?;
    assemble_with_retry(rt, alloc, topology, parts)
}

/// The wide domain, where only l1 wants the flow.
fn wide_domain(rt: &impl Abort, alloc: Global) -> Result<Domain, Fail> {
    let parts = parts_of(alloc, ROUTERS, &["", WANTED, ""])?;
    assemble_network_with_retry(rt, alloc, &WIDE, parts)
}

/// Whether a LAN wants the flow, and how many interfaces it has.
fn wants_and_interfaces(rt: &impl Abort, domain: &Domain, lan: u32) -> (bool, usize) {
    assert!(rt; domain.topology().flows() > 0);
    assert!(rt; lan < domain.topology().lans());
    (
        domain.wants(LanNo(lan), 0),
        domain.interfaces(LanNo(lan)).count(),
    )
}

/// The state of a flight.
#[derive(Drop)]
struct FlightSnapshot {
    waiting: usize,
    copies: Vec<CarriedCopy>,
    strays: Vec<Stray>,
}

fn snapshot_of(alloc: Global, flight: &Flight<'_>) -> Result<FlightSnapshot, AllocError> {
    let copies = flight.copies().to_vec(alloc)?;
    let strays = flight.strays().to_vec(alloc)?;
    let waiting = flight.waiting();
    Ok(FlightSnapshot {
        waiting,
        copies,
        strays,
    })
}

/// The flight has this state.
fn assert_unchanged(rt: &impl Abort, flight: &Flight<'_>, snapshot: &FlightSnapshot) {
    assert!(rt; flight.waiting() == snapshot.waiting);
    assert!(rt; flight.copies() == snapshot.copies.as_slice());
    assert!(rt; flight.strays() == snapshot.strays.as_slice());
}

/// Handles the first waiting copy. After a failed allocation the flight is unchanged, and the call is
/// retried.
fn handle_or_leave_unchanged(
    rt: &impl Abort,
    flight: &mut Flight<'_>,
    snapshot: &FlightSnapshot,
) -> Result<Event, Fail> {
    assert!(rt; flight.waiting() > 0);
    if let Ok(event) = flight.handle(0) {
        return Ok(event);
    }
    assert_unchanged(rt, flight, snapshot);
    handle_copy(rt, flight, 0)
}

fn handle_with_retry(
    rt: &impl Abort,
    alloc: Global,
    flight: &mut Flight<'_>,
) -> Result<Event, Fail> {
    let snapshot = snapshot_of(alloc, flight)?;
    handle_or_leave_unchanged(rt, flight, &snapshot)
}

/// The outcome of the handling with this number, counted from 0. r1 forwards onto l1 and l2, and each
/// of the others onto l2. Copies on l2 come in at vifs that aren't the rows' incoming interface.
fn expected_outcome(number: u32) -> Outcome {
    match number {
        0 => Outcome::Sent {
            copies: 2,
            strays: 1,
        },
        1..=5 => Outcome::Sent {
            copies: 1,
            strays: 1,
        },
        _ => Outcome::OtherVif,
    }
}

/// Handles all copies of a packet, one after another.
fn handle_all_copies(rt: &impl Abort, alloc: Global, flight: &mut Flight<'_>) -> Result<(), Fail> {
    for number in 0..36 {
        let event = handle_with_retry(rt, alloc, flight)?;
        assert_eq!(rt;
            event.outcome,
            expected_outcome(number),
            "handling {number}"
        );
    }
    Ok(())
}

/// A packet in the wide domain is carried once on l0 and l1, and six times on l2.
fn assert_wide_travel(rt: &impl Abort, alloc: Global, domain: &Domain) -> Result<(), Fail> {
    let mut flight = start_flight(rt, alloc, domain, (0, 5))?;
    handle_all_copies(rt, alloc, &mut flight)?;
    assert_ends_with(rt, &flight, &[(0, 1), (1, 1), (2, 6)]);
    assert_eq!(rt; flight.strays().len(), 6);
    Ok(())
}

/// Only l1 wants the flow; l0 has one interface, and l1 and l2 have six.
fn assert_three_lans(rt: &impl Abort, domain: &Domain) {
    assert!(rt; wants_and_interfaces(rt, domain, 0) == (false, 1));
    assert!(rt; wants_and_interfaces(rt, domain, 1) == (true, 6));
    assert!(rt; wants_and_interfaces(rt, domain, 2) == (false, 6));
}

/// The domain and a packet's flight are as expected, whichever allocation failed.
fn assert_as_expected(rt: &impl Abort, alloc: Global, domain: &Domain) -> Result<(), Fail> {
    assert_three_lans(rt, domain);
    assert_wide_travel(rt, alloc, domain)
}

#[test]
fn domain_and_flight_after_failed_allocation(rt: HostRuntime) -> Result<(), Fail> {
    let domain = wide_domain(&rt, rt.alloc())?;
    let answer = assert_as_expected(&rt, rt.alloc(), &domain);
    drop(domain);
    answer
}
