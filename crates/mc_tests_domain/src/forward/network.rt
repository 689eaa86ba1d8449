//! Flights of packets, and their checks.

use mc_forward::{Domain, Event, Flight};
use mc_topology::LanNo;
use std::alloc::Global;
use std::process::Abort;
use std::test::Fail;

/// The flight of a packet, by the number of its flow and its TTL, before any handling.
pub(super) fn start_flight<'d>(
    rt: &impl Abort,
    alloc: Global,
    domain: &'d Domain,
    packet: (u32, u8),
) -> Result<Flight<'d>, Fail> {
    let (flow, ttl) = packet;
    assert!(rt; flow < domain.topology().flows());
    Ok(Flight::start(alloc, domain, flow, ttl)?)
}

/// Handles a waiting copy.
pub(super) fn handle_copy(
    rt: &impl Abort,
    flight: &mut Flight<'_>,
    index: usize,
) -> Result<Event, Fail> {
    assert!(rt; index < flight.waiting());
    Ok(flight.handle(index)?)
}

/// No copy waits, and exactly these LANs carried copies, each so many.
pub(super) fn assert_ends_with(rt: &impl Abort, flight: &Flight<'_>, carried: &[(u32, u32)]) {
    assert!(rt; flight.waiting() == 0);
    let mut all = 0u32;
    for (lan, count) in carried {
        assert!(rt; flight.carried(LanNo(*lan)) == *count, "on LAN {lan}");
        all = all.saturating_add(*count);
    }
    assert!(rt; flight.copies().len() == all as usize);
}
