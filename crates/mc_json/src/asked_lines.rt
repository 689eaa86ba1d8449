//! The lines of wants that no flow answers, and of services.

ghost use Rattle.std.specs.Prelude.{◌≡◌, ◌++◌, [], IfOk, OnOk, map, unwrap_or};
ghost use Rattle.mc_asked.specs.Services.{service_name};
ghost use Rattle.std.specs.String.{string_bytes};
ghost use Rattle.serde_json.specs.View.{view as data_of};
ghost use Rattle.mc_json.specs.AskedData.{address_data, asked_data_of, asked_more_line, service_data};
ghost use Rattle.mc_json.specs.AskedData.{asked_services_line, service_object, want_source_data};
ghost use Rattle.mc_json.specs.RowData.{line_of};

use crate::fields::Fields;
use crate::line::{push_line, push_list_line};
use crate::name_values::{lan_names, router_names};
use mc_asked::{SharedPair, service_name};
use mc_shown::AskedLine;
use mc_text::{Addr, Memory};
use mc_topology::{LanNo, Topology};
use serde_json::Value;
use std::alloc::{AllocError, Global};

/// An address as a JSON string.
fn address_value(alloc: Global, address: Addr) -> Result<Value, AllocError>
    ensures { IfOk result (λ value. data_of value ≡ address_data address) }
{
    let text = format!(in alloc; "{address}")?;
    Value::try_from_str(alloc, &text)
}

/// Addresses as JSON strings.
fn address_values(alloc: Global, addresses: &[Addr]) -> Result<Vec<Value>, AllocError>
    ensures { IfOk result (λ values. map data_of values.items ≡ map address_data addresses.now) }
{
    let mut values = Vec::new(alloc);
    for address in addresses {
        values.push(address_value(alloc, *address)?)?;
    }
    Ok(values)
}

/// The source of a want, or null for any.
fn source_value(alloc: Global, source: Addr) -> Result<Value, AllocError>
    ensures { IfOk result (λ value. data_of value ≡ want_source_data source) }
{
    if source.is_unspecified() {
        Ok(Value::Null)
    } else {
        address_value(alloc, source)
    }
}

/// A want that no flow answers, its LANs, the sources of the flows that are listed for its group, and the
/// routers by what they have for it.
fn asked_value(
    alloc: Global,
    topology: &Topology,
    line: &AskedLine<'_>,
) -> Result<Value, AllocError>
    ensures { IfOk result (λ value. data_of value ≡ asked_data_of topology.now line.now) }
{
    let (group, source) = *line.want;
    let inner = Fields::new(alloc)
        .string("group", format!(in alloc; "{group}"))
        .list("lans", lan_names(alloc, topology, line.lans))
        .list("listed", address_values(alloc, line.listed))
        .list(
            "none",
            router_names(alloc, topology, &line.routers.none_out),
        )
        .list(
            "routers",
            router_names(alloc, topology, &line.routers.forwards),
        )
        .value("source", source_value(alloc, source))
        .list(
            "star",
            router_names(alloc, topology, &line.routers.every_source),
        )
        .object();
    Fields::new(alloc).value("asked", inner).object()
}

/// Writes the line of a want that no flow answers.
///
/// # Errors
///
/// `Memory` if an allocation fails.
pub fn push_asked_line(
    alloc: Global,
    text: &mut String,
    topology: &Topology,
    line: &AskedLine<'_>,
) -> Result<(), Memory>
    ensures { OnOk result (string_bytes text.new ≡ string_bytes text.old
        ++ line_of (asked_data_of topology.now line.now)) }
{
    let value = asked_value(alloc, topology, line)?;
    push_line(alloc, text, &value)?;
    Ok(())
}

/// Writes the line that counts the further wants of LANs, or nothing if there are none.
///
/// # Errors
///
/// `Memory` if an allocation fails.
pub fn push_asked_more_line(text: &mut String, wants: u128) -> Result<(), Memory>
    ensures { OnOk result (string_bytes text.new ≡ string_bytes text.old ++ asked_more_line wants) }
{
    if wants == 0 {
        return Ok(());
    }
    writeln!(text, "{{\"asked_more\":{{\"wants\":{wants}}}}}")?;
    Ok(())
}

/// The name of the service of a group, or nothing if it is none's.
fn service_name_or_empty(group: Addr) -> &'static str
    ensures { result.now ≡ unwrap_or (service_name group) [] }
{
    service_name(group).unwrap_or("")
}

/// The group of a service, the LANs whose hosts ask for it, and its name.
fn service_value(
    alloc: Global,
    topology: &Topology,
    group: Addr,
    lans: &[LanNo],
) -> Result<Value, AllocError>
    ensures { IfOk result (λ value. data_of value ≡ service_object topology.now group lans.now) }
{
    Fields::new(alloc)
        .string("group", format!(in alloc; "{group}"))
        .list("lans", lan_names(alloc, topology, lans))
        .text("name", service_name_or_empty(group))
        .object()
}

/// Services, each with its LANs.
fn service_values(
    alloc: Global,
    topology: &Topology,
    services: &[SharedPair],
) -> Result<Vec<Value>, AllocError>
    ensures { IfOk result (λ values.
        map data_of values.items ≡ map (service_data topology.now) services.now) }
{
    let mut values = Vec::new(alloc);
    for service in services {
        let group = service.pair().0;
        values.push(service_value(alloc, topology, group, service.lans())?)?;
    }
    Ok(values)
}

/// Writes the line of the services for whose groups hosts ask, or nothing if there are none.
///
/// # Errors
///
/// `Memory` if an allocation fails.
pub fn push_asked_services_line(
    alloc: Global,
    text: &mut String,
    topology: &Topology,
    services: &[SharedPair],
) -> Result<(), Memory>
    ensures { OnOk result (string_bytes text.new ≡ string_bytes text.old
        ++ asked_services_line topology.now services.now) }
{
    let values = service_values(alloc, topology, services)?;
    push_list_line(alloc, text, "asked_services", values)?;
    Ok(())
}
