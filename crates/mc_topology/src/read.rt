//! Reads a topology: the text as TOML, its keys and version, and then its sections in order.

mod address;
mod bounds;
mod document;
mod flows;
mod interfaces;
mod lans;
mod routers;
mod rows;
mod sources;

ghost use Rattle.std.specs.Prelude.{◌≡◌, ◌≢◌, ◌≤◌, length, Ok, Err, IfErr, IfOk};
ghost use Rattle.toml.specs.View.{table_view};
ghost use Rattle.mc_topology.specs.declared.fault.Section.TheVariants as section;
ghost use Rattle.mc_topology.specs.Faults.{locate_fault};
ghost use Rattle.mc_topology.specs.Answer.{out_of_memory};
ghost use Rattle.mc_topology.specs.Document.{has_only};
ghost use Rattle.mc_topology.specs.Lans.{lans_in};
ghost use Rattle.mc_topology.specs.Reading.{top_keys, document_of, check_version, sources_and_flows_in};
ghost use Rattle.mc_topology.specs.Reading.{interfaces_and_flows_in, topology_in, parse_topology};
ghost use Rattle.mc_topology.specs.Routers.{routers_in};

use crate::fault::{Section, TopologyFault, TopologyFaultKind, locate_fault};
use crate::flows::Flows;
use crate::interfaces::Interfaces;
use crate::lans::{Lans, MAX_LANS};
use crate::routers::{MAX_ROUTERS, Routers};
use crate::sources::Sources;
use crate::topology::Topology;
use bounds::is_bounded;
use document::{has_only, number_at};
use flows::flows_in;
use interfaces::interfaces_in;
use lans::lans_in;
use mc_text::MAX_TEXT;
use routers::routers_in;
use sources::sources_in;
use std::alloc::Global;
use toml::Table;

/// Parses a text as TOML, if it is within the bounds.
#[tactic(auto, unfolding(crate::specs::Reading::document_of, crate::specs::Reading::parse_toml))]
fn document_of(alloc: Global, text: &[u8]) -> Result<Table, TopologyFault>
    ensures found { IfOk result (λ table. document_of text.now ≡ Ok (table_view table)) }
    ensures fault { IfErr result (λ fault. fault ≢ out_of_memory →
        locate_fault section.Top 0 (document_of text.now) ≡ Err fault) }
{
    if text.len() > MAX_TEXT || !is_bounded(text) {
        return Err(TopologyFaultKind::TooMany.at(Section::Top, 0));
    }
    match toml::table_from_slice(alloc, text) {
        Ok(table) => Ok(table),
        Err(error) if error.is_memory() => Err(TopologyFaultKind::Memory.at(Section::Top, 0)),
        Err(_) => Err(TopologyFaultKind::NotToml.at(Section::Top, 0)),
    }
}

/// Whether the table has no key but those of a topology.
fn has_only_top_keys(table: &Table) -> bool
    ensures { result ≡ has_only top_keys (table_view table.now) }
{
    has_only(
        table,
        &["version", "lans", "router", "interface", "source", "flow"],
    )
}

/// Checks the keys and the version.
#[tactic(auto, unfolding(crate::specs::Reading::check_version))]
fn check_version(table: &Table) -> Result<(), TopologyFaultKind>
    ensures { result ≡ check_version (table_view table.now) }
{
    if !has_only_top_keys(table) {
        return Err(TopologyFaultKind::UnknownKey);
    }
    let version = number_at(table, "version")?;
    if version != 1 {
        return Err(TopologyFaultKind::BadVersion);
    }
    Ok(())
}

/// Reads the sources, and the flows, each from one of the sources.
#[tactic(auto, unfolding(crate::specs::Reading::sources_and_flows_in))]
fn sources_and_flows_in(
    alloc: Global,
    lans: &Lans,
    table: &Table,
) -> Result<(Sources, Flows), TopologyFault>
    requires bounded { length lans.now ≤ MAX_LANS }
    ensures outcome { result ≢ Err out_of_memory →
        result ≡ sources_and_flows_in lans.now (table_view table.now) }
{
    let sources = sources_in(alloc, lans, table)?;
    let flows = flows_in(alloc, &sources, table)?;
    Ok((sources, flows))
}

/// Reads the interfaces, the sources and the flows.
#[tactic(auto, unfolding(crate::specs::Reading::interfaces_and_flows_in))]
fn interfaces_and_flows_in(
    alloc: Global,
    lans: &Lans,
    routers: &Routers,
    table: &Table,
) -> Result<(Interfaces, Sources, Flows), TopologyFault>
    requires few_lans { length lans.now ≤ MAX_LANS }
    requires few_routers { length routers.now ≤ MAX_ROUTERS }
    ensures outcome { result ≢ Err out_of_memory →
        result ≡ interfaces_and_flows_in lans.now routers.now (table_view table.now) }
{
    let interfaces = interfaces_in(alloc, lans, routers, table)?;
    let (sources, flows) = sources_and_flows_in(alloc, lans, table)?;
    Ok((interfaces, sources, flows))
}

/// The topology of a table whose keys, version, LANs and routers are read.
fn topology_with(
    alloc: Global,
    lans: Lans,
    routers: Routers,
    table: &Table,
) -> Result<Topology, TopologyFault>
    requires version { check_version (table_view table.now) ≡ Ok tt }
    requires lans { lans_in (table_view table.now) ≡ Ok lans }
    requires routers { routers_in (table_view table.now) ≡ Ok routers }
    requires few_lans { length lans ≤ MAX_LANS }
    requires few_routers { length routers ≤ MAX_ROUTERS }
    ensures outcome { result ≢ Err out_of_memory → result ≡ topology_in (table_view table.now) }
{
    let (interfaces, sources, flows) = interfaces_and_flows_in(alloc, &lans, &routers, table)?;
    Ok(Topology::new(lans, routers, interfaces, sources, flows))
}

/// The topology of a table.
#[tactic(auto, unfolding(crate::specs::Reading::topology_in))]
fn topology_in(alloc: Global, table: &Table) -> Result<Topology, TopologyFault>
    ensures { result ≢ Err out_of_memory → result ≡ topology_in (table_view table.now) }
{
    locate_fault(Section::Top, 0, check_version(table))?;
    let lans = lans_in(alloc, table)?;
    let routers = routers_in(alloc, table)?;
    topology_with(alloc, lans, routers, table)
}

/// The topology of a text.
#[tactic(auto, unfolding(crate::specs::Reading::parse_topology))]
pub(crate) fn parse_topology(alloc: Global, text: &[u8]) -> Result<Topology, TopologyFault>
    ensures { result ≢ Err out_of_memory → result ≡ parse_topology text.now }
{
    let table = document_of(alloc, text)?;
    topology_in(alloc, &table)
}
