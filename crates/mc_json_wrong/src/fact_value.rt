//! The facts of a line as JSON values.

ghost use Rattle.std.specs.Prelude.{◌≡◌, IfOk};
ghost use Rattle.std.specs.String.{string_bytes};
ghost use Rattle.serde_json.specs.Data.{string};
ghost use Rattle.serde_json.specs.View.{view as data_of};
ghost use Rattle.mc_lines.specs.FactText.{interface_text};
ghost use Rattle.mc_lines.specs.FlowContext.{flow_context};
ghost use Rattle.mc_lines.specs.GivenLines.{fact_value};
ghost use Rattle.mc_json.specs.EndData.{routers_data};
ghost use Rattle.mc_json_wrong.specs.FactData.{fact_data};

use mc_json::{
    device_name, device_value, every_source_value, incoming_device, incoming_vif, router_names,
    row_value,
};
use mc_lines::{Fact, LineContext};
use mc_topology::{RouterNo, Topology};
use serde_json::Value;
use std::alloc::{AllocError, Global};

/// A copy of a text.
fn text_value(alloc: Global, text: &str) -> Result<Value, AllocError>
    ensures { IfOk result (λ value. data_of value ≡ string text.now) }
{
    Value::try_from_str(alloc, text)
}

/// The device of an interface of the topology, empty if the topology has no such interface.
fn interface_name(alloc: Global, topology: &Topology, interface: u32) -> Result<String, AllocError>
    ensures { IfOk result (λ text. string_bytes text ≡ interface_text topology.now interface) }
{
    if interface >= topology.interfaces() {
        return Ok(String::new(alloc));
    }
    device_name(alloc, topology.interface(interface).device)
}

/// The names of routers.
fn routers_value(
    alloc: Global,
    topology: &Topology,
    routers: &[RouterNo],
) -> Result<Value, AllocError>
    ensures { IfOk result (λ value. data_of value ≡ routers_data topology.now routers.now) }
{
    Ok(Value::Array(router_names(alloc, topology, routers)?))
}

/// A fact.
pub(crate) fn fact_value(
    alloc: Global,
    context: &LineContext<'_>,
    fact: &Fact<'_>,
) -> Result<Value, AllocError>
    ensures { IfOk result (λ value. data_of value
        ≡ fact_data (flow_context context.now) (fact_value fact.now)) }
{
    let (view, summary) = (context.view, context.summary);
    let topology = view.topology();
    match *fact {
        Fact::Lan(lan) => text_value(alloc, topology.lan_name_or_empty(lan)),
        Fact::Router(router) => text_value(alloc, topology.router_name_or_empty(router)),
        Fact::Device(router, vif) => device_value(alloc, view, router, vif),
        Fact::Interface(interface) => {
            Ok(Value::String(interface_name(alloc, topology, interface)?))
        }
        Fact::IncomingDevice(router) => incoming_device(alloc, view, router),
        Fact::IncomingVif(router) => Ok(incoming_vif(view, router)),
        Fact::Row(router) => row_value(alloc, view, router),
        Fact::EverySourceRow(router) => every_source_value(alloc, view, summary, router),
        Fact::Flag(flag) => Ok(Value::Bool(flag)),
        Fact::Number(number) => Ok(Value::from(number as u64)),
        Fact::Routers(routers) => routers_value(alloc, topology, routers),
    }
}
