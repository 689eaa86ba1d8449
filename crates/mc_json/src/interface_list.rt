//! The interfaces of a domain as JSON values: the vifs of its routers, and the topology's interfaces without
//! one.

ghost use Rattle.std.specs.Prelude.{◌≡◌, ◌<◌, ◌++◌, IfOk, OnOk, flat_map, length, map};
ghost use Rattle.serde_json.specs.View.{view as data_of};
ghost use Rattle.mc_theory.specs.Lists.{below};
ghost use Rattle.mc_forward.specs.Domains.{vif_of};
ghost use Rattle.mc_forward.specs.ListedTables.{facts};
ghost use Rattle.mc_json.specs.DomainData.{interface_data, interfaces_data, lan_or_null, unmatched_data};
ghost use Rattle.mc_json.specs.DomainData.{vif_data, vifs_data};

use crate::device_values::device_name;
use crate::fields::Fields;
use mc_forward::Domain;
use mc_search::vif_of_device;
use mc_topology::{Interface, LanNo, RouterNo, Topology};
use serde_json::Value;
use std::alloc::{AllocError, Global};

/// The name of a LAN, or null.
fn lan_or_null(alloc: Global, topology: &Topology, lan: Option<LanNo>) -> Result<Value, AllocError>
    ensures { IfOk result (λ value. data_of value ≡ lan_or_null topology.now lan) }
{
    match lan {
        Some(lan) => Value::try_from_str(alloc, topology.lan_name_or_empty(lan)),
        None => Ok(Value::Null),
    }
}

/// A device of a router, with its LAN and its vif.
fn interface_value(
    alloc: Global,
    topology: &Topology,
    router: RouterNo,
    device: &[u8],
    lan: Value,
    vif: Value,
) -> Result<Value, AllocError>
    ensures { IfOk result (λ value. data_of value
        ≡ interface_data topology.now router device.now (data_of lan) (data_of vif)) }
{
    Fields::new(alloc)
        .string("device", device_name(alloc, device))
        .value("lan", Ok(lan))
        .router("router", topology, router)
        .value("vif", Ok(vif))
        .object()
}

/// Adds a vif, if its router's table has a line for it.
fn push_vif(
    alloc: Global,
    values: &mut Vec<Value>,
    domain: &Domain,
    router: RouterNo,
    vif: u8,
) -> Result<(), AllocError>
    requires known { router < length domain.now.topology.routers }
    ensures added { OnOk result (map data_of values.new.items ≡ map data_of values.old.items
        ++ vif_data (facts domain.now) router vif (vif_of domain.now.vifs router vif)) }
{
    let topology = domain.topology();
    let Some(line) = domain.vif(router, vif) else {
        return Ok(());
    };
    let lan = lan_or_null(alloc, topology, domain.placed(router, vif))?;
    let number = Value::from(vif);
    let value = interface_value(alloc, topology, router, line.device(), lan, number)?;
    values.push(value)?;
    Ok(())
}

/// Adds the vifs of a router.
fn push_vifs(
    alloc: Global,
    values: &mut Vec<Value>,
    domain: &Domain,
    router: RouterNo,
) -> Result<(), AllocError>
    requires known { router < length domain.now.topology.routers }
    ensures added { OnOk result (map data_of values.new.items ≡ map data_of values.old.items
        ++ vifs_data (facts domain.now) router) }
{
    for vif in 0..32u8 {
        push_vif(alloc, values, domain, router, vif)?;
    }
    Ok(())
}

/// Adds the vifs of all routers.
fn push_all_vifs(alloc: Global, values: &mut Vec<Value>, domain: &Domain) -> Result<(), AllocError>
    ensures { OnOk result (map data_of values.new.items ≡ map data_of values.old.items
        ++ flat_map (vifs_data (facts domain.now)) (below (length domain.now.topology.routers))) }
{
    for number in 0..domain.topology().routers() {
        push_vifs(alloc, values, domain, RouterNo(number))?;
    }
    Ok(())
}

/// Adds an interface of the topology, if its router has no vif of its device.
fn push_interface(
    alloc: Global,
    values: &mut Vec<Value>,
    domain: &Domain,
    interface: &Interface<'_>,
) -> Result<(), AllocError>
    ensures { OnOk result (map data_of values.new.items ≡ map data_of values.old.items
        ++ unmatched_data (facts domain.now) interface.now) }
{
    if let Some(_found) = vif_of_device(domain, interface.router, interface.device) {
        return Ok(());
    }
    let topology = domain.topology();
    let lan = Value::try_from_str(alloc, topology.lan_name_or_empty(interface.lan))?;
    let value = interface_value(
        alloc,
        topology,
        interface.router,
        interface.device,
        lan,
        Value::Null,
    )?;
    values.push(value)?;
    Ok(())
}

/// Adds all interfaces of the topology whose routers have no vif of their devices.
fn push_unmatched(alloc: Global, values: &mut Vec<Value>, domain: &Domain) -> Result<(), AllocError>
    ensures { OnOk result (map data_of values.new.items ≡ map data_of values.old.items
        ++ flat_map (unmatched_data (facts domain.now)) domain.now.topology.interfaces) }
{
    let topology = domain.topology();
    for number in 0..topology.interfaces() {
        push_interface(alloc, values, domain, &topology.interface(number))?;
    }
    Ok(())
}

/// All vifs, and all interfaces of the topology without one.
pub(crate) fn interface_values(alloc: Global, domain: &Domain) -> Result<Vec<Value>, AllocError>
    ensures { IfOk result (λ values. map data_of values.items ≡ interfaces_data (facts domain.now)) }
{
    let mut values = Vec::new(alloc);
    push_all_vifs(alloc, &mut values, domain)?;
    push_unmatched(alloc, &mut values, domain)?;
    Ok(values)
}
