//! Domains assembled from their texts.

use super::network::Network;
use super::tables::tables_of;
use mc_forward::{Domain, Tables};
use mc_igmp::ReportList;
use mc_topology::Topology;
use std::alloc::Global;
use std::test::Fail;

/// The tables of a domain's routers and the reports of its LANs.
pub(crate) type Parts = (Vec<Tables>, Vec<ReportList>);

/// Reads the report list of each LAN.
fn reports_of(alloc: Global, lans: &[&str]) -> Result<Vec<ReportList>, Fail> {
    let mut reports = Vec::new(alloc);
    for text in lans {
        reports.push(ReportList::read(alloc, text.as_bytes())?)?;
    }
    Ok(reports)
}

/// Reads the tables of each router, from the texts of its vifs and its cache, and the report list of
/// each LAN. A cache's text may lack its header.
pub(crate) fn parts_of(
    alloc: Global,
    routers: &[(&str, &str)],
    lans: &[&str],
) -> Result<Parts, Fail> {
    let tables = tables_of(alloc, routers)?;
    let reports = reports_of(alloc, lans)?;
    Ok((tables, reports))
}

/// The domain of these parts. The error is the fault alone: the parts that come back with it would hide it.
pub(crate) fn assemble_domain(
    alloc: Global,
    topology: Topology,
    parts: Parts,
) -> Result<Domain, Fail> {
    match Domain::assemble(alloc, topology, parts.0, parts.1) {
        Ok(domain) => Ok(domain),
        Err(refused) => {
            let fault = refused.fault;
            drop(refused);
            Err(fault.into())
        }
    }
}

/// The topology of a network.
pub(crate) fn topology_of(alloc: Global, network: &Network<'_>) -> Result<Topology, Fail> {
    let text = network.text(alloc)?;
    Ok(Topology::read(alloc, text.as_bytes())?)
}

/// The domain of a network and these parts.
fn assemble_network(alloc: Global, network: &Network<'_>, parts: Parts) -> Result<Domain, Fail> {
    let topology = topology_of(alloc, network)?;
    assemble_domain(alloc, topology, parts)
}

/// The domain of a network and these texts: each router's vifs and cache, which may lack its header,
/// and each LAN's reports.
fn domain_of(
    alloc: Global,
    network: &Network<'_>,
    routers: &[(&str, &str)],
    lans: &[&str],
) -> Result<Domain, Fail> {
    let parts = parts_of(alloc, routers, lans)?;
    assemble_network(alloc, network, parts)
}

/// Runs a check on the domain of a network and these texts. No other function drops a domain.
pub(crate) fn with_domain<F: FnOnce(&Domain) -> Result<(), Fail> + Drop>(
    alloc: Global,
    network: &Network<'_>,
    routers: &[(&str, &str)],
    lans: &[&str],
    check: F,
) -> Result<(), Fail>
    requires { F.IsAlwaysCallable check }
{
    match domain_of(alloc, network, routers, lans) {
        Ok(domain) => {
            let answer = check(&domain);
            drop(domain);
            answer
        }
        Err(fail) => Err(fail),
    }
}
