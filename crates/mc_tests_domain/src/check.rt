//! The checker's verdicts on entries that no certificate can hold, and texts of numbers without a name.
//! Other entries are rows of the command line's tables `check_*`.

use crate::samples::{
    CHAIN, FORWARDS, LAST_WANTS, Network, VIFS, chain_entries, entry_behind, retry_after_oom,
    source_entry, with_domain,
};
use mc_cert::Reached;
use mc_check::{Reason, Verdict, check_flow};
use mc_forward::Domain;
use mc_text::Memory;
use mc_topology::{LanNo, RouterNo, Topology};
use std::alloc::Global;
use std::fmt::Write;
use std::process::Abort;
use std::test::Fail;

/// The chain of two routers, with two flows.
const NETWORK: Network<'static> = Network {
    sources: "10.0.0.5 l0; 10.0.0.6 l0",
    flows: "10.0.0.5 239.1.2.3 3; 10.0.0.6 239.1.2.3 3",
    ..CHAIN
};

/// r1 forwards both flows. r2 forwards the first one alone.
const ROUTERS: &[(&str, &str)] = &[
    (
        VIFS,
        "030201EF 0500000A 0 0 0 0 1:1\n030201EF 0600000A 0 0 0 0 1:1\n",
    ),
    FORWARDS,
];

/// The verdict on these entries for a flow.
fn verdict_of(
    rt: &impl Abort,
    alloc: Global,
    domain: &Domain,
    flow: u32,
    entries: &[Reached],
) -> Result<Verdict, Memory> {
    let lans = domain.topology().lans();
    assert!(rt; flow < domain.topology().flows());
    assert!(rt; entries.iter().all(|entry| entry.lan.0 < lans));
    check_flow(alloc, domain, flow, entries)
}

/// The verdict on these entries for a flow has this text.
fn assert_verdict(
    rt: &impl Abort,
    alloc: Global,
    domain: &Domain,
    flow: u32,
    entries: &[Reached],
    wanted: &str,
) -> Result<(), Fail> {
    let verdict = verdict_of(rt, alloc, domain, flow, entries)?;
    let shown = verdict.shown(domain.topology()).to_string(alloc)?;
    assert!(rt; shown.as_str() == wanted, "{shown}");
    Ok(())
}

/// The verdict for a flow on the source's LAN with a need, l1's entry and one of l2 has this text.
fn assert_verdict_of_chain(
    rt: &impl Abort,
    alloc: Global,
    domain: &Domain,
    case: (u32, u8, Reached),
    wanted: &str,
) -> Result<(), Fail> {
    let (flow, need, last) = case;
    let entries = [source_entry(need), entry_behind(1, 2, 0, 1), last];
    assert_verdict(rt, alloc, domain, flow, &entries, wanted)
}

/// Needs of 0, routers that the topology doesn't have, and a vif past the greatest.
fn assert_verdicts_of_odd_entries(
    rt: &impl Abort,
    alloc: Global,
    domain: &Domain,
) -> Result<(), Fail> {
    let nowhere = entry_behind(2, 3, 2, 1);
    let beyond = entry_behind(2, 3, u32::MAX, 255);
    assert_verdict_of_chain(
        rt,
        alloc,
        domain,
        (0, 0, entry_behind(2, 3, 1, 1)),
        "no BadSource",
    )?;
    assert_verdict_of_chain(rt, alloc, domain, (0, 1, nowhere), "no Extra r2 1 l2")?;
    assert_verdict_of_chain(
        rt,
        alloc,
        domain,
        (0, 1, entry_behind(2, 0, 1, 1)),
        "no WrongNeed l2",
    )?;
    assert_verdict_of_chain(rt, alloc, domain, (1, 1, nowhere), "no Unfed l2")?;
    assert_verdict_of_chain(rt, alloc, domain, (1, 1, beyond), "no Unfed l2")?;
    assert_verdict_of_chain(
        rt,
        alloc,
        domain,
        (1, 1, entry_behind(2, 3, 0, 255)),
        "no Unfed l2",
    )
}

/// The texts of reasons and of a verdict, a line each.
fn reasons_and_verdict_text(alloc: Global, topology: &Topology) -> Result<String, Fail> {
    let mut text = String::new(alloc);
    for reason in [
        Reason::Missed(LanNo(3)),
        Reason::Stray(RouterNo(2), 255),
        Reason::Extra(RouterNo(2), 1, LanNo(3)),
        Reason::Low(LanNo(u32::MAX)),
        Reason::Low(LanNo(0)),
    ] {
        writeln!(text, "{}", reason.shown(topology))?;
    }
    write!(text, "{}", Verdict::Yes { copies: 1024 }.shown(topology))?;
    Ok(text)
}

fn assert_reason_texts(rt: &impl Abort, alloc: Global, topology: &Topology) -> Result<(), Fail> {
    let lines = reasons_and_verdict_text(alloc, topology)?;
    assert_eq!(rt;
        lines.as_str(),
        "Missed \nStray  255\nExtra  1 \nLow \nLow l0\nyes copies 1024"
    );
    Ok(())
}

/// The entries that certify the first flow are accepted, also after a failed allocation.
fn assert_certified_after_retry(
    rt: &(impl Abort + Print),
    alloc: Global,
    domain: &Domain,
) -> Result<(), Fail> {
    let entries = chain_entries();
    let verdict = retry_after_oom(rt, || verdict_of(rt, alloc, domain, 0, &entries))?;
    assert!(rt; verdict == Verdict::Yes { copies: 3 });
    Ok(())
}

#[test]
fn verdict_after_failed_allocation(rt: HostRuntime) -> Result<(), Fail> {
    let alloc = rt.alloc();
    with_domain(alloc, &NETWORK, ROUTERS, LAST_WANTS, |domain| {
        assert_certified_after_retry(&rt, alloc, domain)
    })
}

#[test]
fn verdicts_of_entries_no_certificate_holds(rt: HostRuntime) -> Result<(), Fail> {
    let alloc = rt.alloc();
    with_domain(alloc, &NETWORK, ROUTERS, LAST_WANTS, |domain| {
        assert_verdicts_of_odd_entries(&rt, alloc, domain)
    })
}

#[test]
fn texts_of_numbers_without_a_name(rt: HostRuntime) -> Result<(), Fail> {
    let alloc = rt.alloc();
    with_domain(alloc, &NETWORK, ROUTERS, LAST_WANTS, |domain| {
        assert_reason_texts(&rt, alloc, domain.topology())
    })
}
