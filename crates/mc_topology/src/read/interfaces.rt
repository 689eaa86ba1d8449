//! Reads the interfaces.

ghost use Rattle.std.specs.Prelude.{◌≡◌, ◌≢◌, ◌≤◌, length, false, Err, IfOk};
ghost use Rattle.toml.specs.View.{view, table_view};
ghost use Rattle.mc_topology.specs.declared.fault.Section.TheVariants as section;
ghost use Rattle.mc_topology.specs.Answer.{ResultsAgree, out_of_memory};
ghost use Rattle.mc_topology.specs.Interfaces.{interface_of_values, interface_of, interfaces_in};
ghost use Rattle.mc_topology.specs.Lookup.{has_interface, interface_row};

use crate::fault::{Section, TopologyFault, TopologyFaultKind, locate_fault};
use crate::interfaces::{InterfaceKey, Interfaces, MAX_INTERFACES};
use crate::lans::{Lans, MAX_LANS};
use crate::name::is_device;
use crate::number::LanNo;
use crate::read::document::{known_table, rows_at, text_at};
use crate::read::rows::{SectionRows, each_row};
use crate::routers::{MAX_ROUTERS, Routers};
use std::alloc::Global;
use toml::{Table, Value};

/// The interface of these values, whose router and device no earlier interface has.
#[tactic(auto, unfolding(crate::specs::Interfaces::interface_of_values))]
fn interface_of_values(
    lans: &Lans,
    routers: &Routers,
    earlier: &Interfaces,
    router_name: &str,
    device: &str,
    lan_name: &str,
) -> Result<(InterfaceKey, LanNo), TopologyFaultKind>
    requires few_lans { length lans.now ≤ MAX_LANS }
    requires few_routers { length routers.now ≤ MAX_ROUTERS }
    ensures interface { ResultsAgree interface_row result
        (interface_of_values lans.now routers.now earlier.now router_name.now device.now lan_name.now) }
    ensures new { IfOk result (λ interface. has_interface interface.0.router interface.0.device.items
        earlier.now ≡ false) }
    ensures short { IfOk result (λ interface. length interface.0.device.items ≤ 15) }
{
    let Some(router) = routers.number_of(router_name) else {
        return Err(TopologyFaultKind::UnknownName);
    };
    if !is_device(device) {
        return Err(TopologyFaultKind::BadName);
    }
    let Some(key) = InterfaceKey::new(router, device.as_bytes()) else {
        return Err(TopologyFaultKind::BadName);
    };
    let Some(lan) = lans.number_of(lan_name) else {
        return Err(TopologyFaultKind::UnknownName);
    };
    if earlier.has(&key) {
        return Err(TopologyFaultKind::RepeatedInterface);
    }
    Ok((key, lan))
}

/// Reads an interface, whose router and device no earlier interface has.
#[tactic(auto, unfolding(crate::specs::Interfaces::interface_of))]
fn interface_of(
    lans: &Lans,
    routers: &Routers,
    earlier: &Interfaces,
    value: &Value,
) -> Result<(InterfaceKey, LanNo), TopologyFaultKind>
    requires few_lans { length lans.now ≤ MAX_LANS }
    requires few_routers { length routers.now ≤ MAX_ROUTERS }
    ensures interface { ResultsAgree interface_row result
        (interface_of lans.now routers.now earlier.now (view value.now)) }
    ensures new { IfOk result (λ interface. has_interface interface.0.router interface.0.device.items
        earlier.now ≡ false) }
    ensures short { IfOk result (λ interface. length interface.0.device.items ≤ 15) }
{
    let table = known_table(value, &["router", "device", "lan"])?;
    let router_name = text_at(table, "router")?;
    let device = text_at(table, "device")?;
    let lan_name = text_at(table, "lan")?;
    interface_of_values(lans, routers, earlier, router_name, device, lan_name)
}

impl<'a> SectionRows<(&'a Lans, &'a Routers)> for Interfaces {
    ghost use Rattle.mc_topology.specs.declared.lans.TheConstants.{MAX_LANS};
    ghost use Rattle.mc_topology.specs.declared.routers.TheConstants.{MAX_ROUTERS};
    ghost use Rattle.mc_topology.specs.SectionRows.{InterfaceRow};

    ghost Row = { InterfaceRow };

    ghost rows = { λ interfaces. interfaces };

    ghost section = { section.Interface };

    ghost few = { λ before.
        (length before.0.now ≤ MAX_LANS) × (length before.1.now ≤ MAX_ROUTERS) };

    ghost row_value = { λ before. interface_of before.0.now before.1.now };

    fn read_row(
        &mut self,
        _alloc: Global,
        before: &(&'a Lans, &'a Routers),
        number: u32,
        row: &Value,
    ) -> Result<(), TopologyFault> {
        let (lans, routers) = *before;
        let read = interface_of(lans, routers, self, row);
        let (key, lan) = locate_fault(Section::Interface, number, read)?;
        self.push(key, lan)
    }
}

/// Reads the interfaces, in order.
#[tactic(auto, unfolding(crate::specs::Interfaces::interfaces_in))]
pub(crate) fn interfaces_in(
    alloc: Global,
    lans: &Lans,
    routers: &Routers,
    table: &Table,
) -> Result<Interfaces, TopologyFault>
    requires few_lans { length lans.now ≤ MAX_LANS }
    requires few_routers { length routers.now ≤ MAX_ROUTERS }
    ensures outcome { result ≢ Err out_of_memory →
        result ≡ interfaces_in lans.now routers.now (table_view table.now) }
{
    let rows = locate_fault(
        Section::Interface,
        0,
        rows_at(table, "interface", MAX_INTERFACES),
    )?;
    each_row(alloc, &(lans, routers), Interfaces::new(alloc), rows)
}
