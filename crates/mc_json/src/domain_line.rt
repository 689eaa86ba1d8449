//! The first line: the domain that was read, and the words of the command line.

ghost use Rattle.std.specs.Prelude.{◌≡◌, ◌<◌, ◌++◌, IfOk, OnOk, length, map};
ghost use Rattle.std.specs.String.{string_bytes};
ghost use Rattle.serde_json.specs.Data.{string};
ghost use Rattle.serde_json.specs.View.{view as data_of};
ghost use Rattle.mc_theory.specs.Lists.{below};
ghost use Rattle.mc_forward.specs.ListedTables.{facts};
ghost use Rattle.mc_json.specs.DomainData.{domain_data, order_word, parts_data, router_with_order};
ghost use Rattle.mc_json.specs.DomainData.{source_data};
ghost use Rattle.mc_json.specs.RowData.{lan_data, line_of};

use crate::fields::Fields;
use crate::interface_list::interface_values;
use crate::line::push_line;
use crate::name_values::lan_names;
use mc_forward::Domain;
use mc_text::{Memory, Order};
use mc_topology::{LanNo, RouterNo, Source, Topology};
use serde_json::Value;
use std::alloc::{AllocError, Global};

/// The numbers of all LANs.
fn all_lans(alloc: Global, topology: &Topology) -> Result<Vec<LanNo>, AllocError>
    ensures { IfOk result (λ lans. lans.items ≡ below (length topology.now.lans)) }
{
    let mut lans = Vec::new(alloc);
    for number in 0..topology.lans() {
        lans.push(LanNo(number))?;
    }
    Ok(lans)
}

/// The names of all LANs.
fn lan_values(alloc: Global, topology: &Topology) -> Result<Vec<Value>, AllocError>
    ensures { IfOk result (λ values. map data_of values.items
        ≡ map (lan_data topology.now) (below (length topology.now.lans))) }
{
    let lans = all_lans(alloc, topology)?;
    lan_names(alloc, topology, &lans)
}

/// The word for an order of bytes.
fn order_word(order: Order) -> &'static str
    ensures { result.now ≡ order_word order }
{
    match order {
        Order::Little => "little",
        Order::Big => "big",
    }
}

/// A router, with the order in which its table shows the bytes of addresses.
fn router_value(alloc: Global, topology: &Topology, router: RouterNo) -> Result<Value, AllocError>
    requires known { router < length topology.now.routers }
    ensures value { IfOk result (λ value. data_of value ≡ router_with_order topology.now router) }
{
    let order = order_word(topology.order(router));
    Fields::new(alloc)
        .router("name", topology, router)
        .text("order", order)
        .object()
}

/// All routers.
fn router_values(alloc: Global, topology: &Topology) -> Result<Vec<Value>, AllocError>
    ensures { IfOk result (λ values. map data_of values.items
        ≡ map (router_with_order topology.now) (below (length topology.now.routers))) }
{
    let mut values = Vec::new(alloc);
    for number in 0..topology.routers() {
        values.push(router_value(alloc, topology, RouterNo(number))?)?;
    }
    Ok(values)
}

/// A source with its LAN.
fn source_value(alloc: Global, topology: &Topology, source: Source) -> Result<Value, AllocError>
    ensures { IfOk result (λ value. data_of value ≡ source_data topology.now source) }
{
    let Source { address, lan } = source;
    Fields::new(alloc)
        .string("address", format!(in alloc; "{address}"))
        .lan("lan", topology, lan)
        .object()
}

/// All sources, each with its LAN.
fn source_values(alloc: Global, topology: &Topology) -> Result<Vec<Value>, AllocError>
    ensures { IfOk result (λ values. map data_of values.items
        ≡ map (source_data topology.now) topology.now.sources) }
{
    let mut values = Vec::new(alloc);
    for number in 0..topology.sources() {
        values.push(source_value(alloc, topology, topology.source(number))?)?;
    }
    Ok(values)
}

/// Words as JSON strings.
fn word_values(alloc: Global, words: &[String]) -> Result<Vec<Value>, AllocError>
    ensures { IfOk result (λ values. map data_of values.items
        ≡ map string (map string_bytes words.now)) }
{
    let mut values = Vec::new(alloc);
    for word in words {
        values.push(Value::try_from_str(alloc, word.as_str())?)?;
    }
    Ok(values)
}

/// A domain: its interfaces, LANs, routers and sources.
fn parts_value(alloc: Global, domain: &Domain) -> Result<Value, AllocError>
    ensures { IfOk result (λ value. data_of value ≡ parts_data (facts domain.now)) }
{
    let topology = domain.topology();
    Fields::new(alloc)
        .list("interfaces", interface_values(alloc, domain))
        .list("lans", lan_values(alloc, topology))
        .list("routers", router_values(alloc, topology))
        .list("sources", source_values(alloc, topology))
        .object()
}

/// The object of the first line.
fn domain_value(alloc: Global, domain: &Domain, words: &[String]) -> Result<Value, AllocError>
    ensures { IfOk result (λ value. data_of value
        ≡ domain_data (facts domain.now) (map string_bytes words.now)) }
{
    Fields::new(alloc)
        .value("domain", parts_value(alloc, domain))
        .count("format", 2)
        .list("words", word_values(alloc, words))
        .object()
}

/// Writes the first line: a domain, and the words of the command line.
///
/// # Errors
///
/// `Memory` if an allocation fails.
pub fn push_domain_line(
    alloc: Global,
    text: &mut String,
    domain: &Domain,
    words: &[String],
) -> Result<(), Memory>
    ensures line { OnOk result (string_bytes text.new ≡ string_bytes text.old
        ++ line_of (domain_data (facts domain.now) (map string_bytes words.now))) }
{
    let value = domain_value(alloc, domain, words)?;
    push_line(alloc, text, &value)?;
    Ok(())
}
