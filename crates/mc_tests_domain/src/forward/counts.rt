//! Parts that make no domain, since their counts don't fit the topology.

use crate::samples::{CHAIN, FORWARDS, LAST_WANTS, Parts, parts_of, topology_of};
use mc_forward::{Domain, DomainFault, Refused};
use mc_topology::Topology;
use std::alloc::Global;
use std::test::Fail;

/// The fault of a refused domain, and how many routers, tables and lists are handed back.
fn refused_parts_count(
    answer: &Result<Domain, Refused>,
) -> Option<(DomainFault, u32, usize, usize)> {
    match answer {
        Ok(_) => None,
        Err(refused) => Some((
            refused.fault,
            refused.topology.routers(),
            refused.tables.len(),
            refused.reports.len(),
        )),
    }
}

/// Assembles a domain of these parts, and answers why it is refused and how much is handed back.
fn assemble_refused(
    alloc: Global,
    topology: Topology,
    parts: Parts,
) -> Option<(DomainFault, u32, usize, usize)> {
    let answer = Domain::assemble(alloc, topology, parts.0, parts.1);
    let refusal = refused_parts_count(&answer);
    drop(answer);
    refusal
}

#[test]
fn one_router_too_few(rt: HostRuntime) -> Result<(), Fail> {
    let alloc = rt.alloc();
    let parts = parts_of(alloc, &[FORWARDS], LAST_WANTS)?;
    let topology = topology_of(alloc, &CHAIN)?;
    let refusal = assemble_refused(alloc, topology, parts);
    assert!(rt; refusal == Some((DomainFault::Count, 2, 1, 3)));
    Ok(())
}
