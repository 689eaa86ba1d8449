//! The entries that `make` answers for flows of a small network. The findings for flows that have no
//! entries are shown by the command line's cases and tables.

use crate::samples::{
    CHAIN, LAST_WANTS, Network, VIFS, chain_entries, retry_after_oom, with_domain,
};
use mc_cert::Reached;
use mc_forward::Domain;
use mc_maker::make;
use mc_text::Memory;
use std::alloc::Global;
use std::fmt::Write;
use std::process::Abort;
use std::test::Fail;

/// The chain of r1 and r2 from l0 over l1 to l2, and r3 from l0 to l2. Of the flows
/// - the first goes along the chain;
/// - the second has no row, where nobody wants it;
/// - a packet of the third needs the same TTL for l2 as for l1;
/// - a pair that no packet passes makes no entry of the fourth;
/// - of the fifth r3 sends from l0 to l2, and r2 from there to l1, which carries its copy after l2;
/// - the sixth has the tree of the first;
/// - the seventh has a TTL below the need of l2;
/// - the eighth has two paths to l2;
/// - the ninth has none.
const NETWORK: Network<'static> = Network {
    routers: "r1; r2; r3",
    interfaces: "r1 eth0 l0; r1 eth1 l1; r2 eth0 l1; r2 eth1 l2; r3 eth0 l0; r3 eth1 l2",
    sources: "10.0.0.5 l0; 10.0.0.6 l0; 10.0.0.7 l0; 10.0.0.8 l0; 10.0.0.9 l0; 10.0.0.10 l0",
    flows: "10.0.0.5 239.1.2.3 3; 10.0.0.5 239.1.2.4 3; 10.0.0.6 239.1.2.3 255; \
            10.0.0.6 239.1.2.4 3; 10.0.0.7 239.1.2.3 3; 10.0.0.7 239.1.2.4 3; \
            10.0.0.8 239.1.2.3 2; 10.0.0.9 239.1.2.3 3; 10.0.0.10 239.1.2.3 3",
    ..CHAIN
};

/// The tables of the three routers.
const ROUTERS: &[(&str, &str)] = &[
    (
        VIFS,
        "030201EF 0500000A 0 0 0 0 1:1
030201EF 0600000A 0 0 0 0 1:254
040201EF 0600000A 0 0 0 0 1:1
040201EF 0700000A 0 0 0 0 1:1
030201EF 0800000A 0 0 0 0 1:1
030201EF 0900000A 0 0 0 0 1:1
030201EF 0A00000A 0 0 0 0 1:1
",
    ),
    (
        VIFS,
        "030201EF 0500000A 0 0 0 0 1:1
030201EF 0600000A 0 0 0 0 1:1
040201EF 0600000A 0 0 0 0 1:254
030201EF 0700000A 1 0 0 0 0:1
040201EF 0700000A 0 0 0 0 1:1
030201EF 0800000A 0 0 0 0 1:1
030201EF 0900000A 0 0 0 0 1:1
",
    ),
    (
        VIFS,
        "030201EF 0700000A 0 0 0 0 1:1
030201EF 0900000A 0 0 0 0 1:1
",
    ),
];

/// The entries of each flow: a LAN, its rank and its need, and the router and its vif that forward onto
/// it. A wrong flow has none.
const EXPECTED_ENTRIES: &str = "0/0/1; 1/1/2/0/1; 2/2/3/1/1;
0/0/1;
0/0/1; 1/1/255/0/1; 2/2/255/1/1;
0/0/1; 1/1/2/0/1;
0/0/1; 1/2/3/1/0; 2/1/2/2/1;
0/0/1; 1/1/2/0/1; 2/2/3/1/1;
none
none
none
";

/// Appends a line of entries.
fn push_entries(text: &mut String, entries: &[Reached]) -> Result<(), Fail> {
    for entry in entries {
        let between = if entry.rank == 0 { "" } else { " " };
        write!(
            text,
            "{between}{}/{}/{}",
            entry.lan.0, entry.rank, entry.need
        )?;
        if let Some((router, vif)) = entry.forwarder {
            write!(text, "/{}/{vif}", router.0)?;
        }
        text.push_str(";")?;
    }
    text.push_str("\n")?;
    Ok(())
}

/// Makes the entries of a flow.
fn make_entries(
    rt: &impl Abort,
    alloc: Global,
    domain: &Domain,
    flow: u32,
) -> Result<Option<Vec<Reached>>, Memory> {
    assert!(rt; flow < domain.topology().flows());
    make(alloc, domain, flow)
}

/// Appends a line with the entries made for a flow, or `none`.
fn push_made(
    rt: &impl Abort,
    alloc: Global,
    domain: &Domain,
    flow: u32,
    text: &mut String,
) -> Result<(), Fail> {
    match make_entries(rt, alloc, domain, flow)? {
        Some(entries) => push_entries(text, &entries),
        None => Ok(text.push_str("none\n")?),
    }
}

fn assert_entries_of_each_flow(
    rt: &impl Abort,
    alloc: Global,
    domain: &Domain,
) -> Result<(), Fail> {
    let mut text = String::new(alloc);
    for flow in 0..9 {
        push_made(rt, alloc, domain, flow, &mut text)?;
    }
    assert_eq!(rt; text.as_str(), EXPECTED_ENTRIES);
    Ok(())
}

#[test]
fn entries_of_each_flow(rt: HostRuntime) -> Result<(), Fail> {
    let alloc = rt.alloc();
    with_domain(alloc, &NETWORK, ROUTERS, LAST_WANTS, |domain| {
        assert_entries_of_each_flow(&rt, alloc, domain)
    })
}

/// The entries made for a flow are these, also after a failed allocation.
fn assert_made(
    rt: &(impl Abort + Print),
    alloc: Global,
    domain: &Domain,
    flow: u32,
    wanted: Option<&[Reached]>,
) -> Result<(), Fail> {
    let made = retry_after_oom(rt, || make_entries(rt, alloc, domain, flow))?;
    assert!(rt; made.as_deref() == wanted);
    Ok(())
}

/// The first flow goes along the chain. The seventh is wrong at its own TTL, and the eighth at 255.
fn assert_made_after_retry(
    rt: &(impl Abort + Print),
    alloc: Global,
    domain: &Domain,
) -> Result<(), Fail> {
    assert_made(rt, alloc, domain, 0, Some(&chain_entries()))?;
    assert_made(rt, alloc, domain, 6, None)?;
    assert_made(rt, alloc, domain, 7, None)
}

#[test]
fn entries_after_failed_allocation(rt: HostRuntime) -> Result<(), Fail> {
    let alloc = rt.alloc();
    with_domain(alloc, &NETWORK, ROUTERS, LAST_WANTS, |domain| {
        assert_made_after_retry(&rt, alloc, domain)
    })
}
