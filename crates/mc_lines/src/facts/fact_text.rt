//! The text of a fact.

ghost use Rattle.std.specs.Prelude.{◌≡◌, ◌++◌, OnOk, Some};
ghost use Rattle.std.specs.String.{string_bytes};
ghost use Rattle.mc_forward.specs.FlightsInDomain.{net_in};
ghost use Rattle.mc_lines.specs.FactText.{fact_text, flag_text, incoming_number_text, interface_text};
ghost use Rattle.mc_lines.specs.FlowContext.{flow_context};
ghost use Rattle.mc_lines.specs.GivenLines.{fact_value};

use crate::context::LineContext;
use crate::facts::fact::Fact;
use mc_forward::{FlowView, RowFor};
use mc_shown::{
    ShownDevice, ShownDeviceName, ShownEverySource, ShownIncoming, ShownRouters, ShownRow,
};
use mc_topology::{RouterNo, Topology};
use std::alloc::AllocError;
use std::fmt;

/// The device of an interface of the topology. It is empty if the topology has no such interface.
#[derive(Clone, Copy, Drop)]
struct ShownInterface<'t> {
    topology: &'t Topology,
    interface: u32,
}

impl<'t> fmt::Display for ShownInterface<'t> {
    ghost output = { λ shown. Some (interface_text shown.topology.now shown.interface) };

    fn fmt<W: fmt::Write>(&self, f: &mut fmt::Formatter<W>) -> fmt::Result {
        if self.interface >= self.topology.interfaces() {
            return Ok(());
        }
        let interface = self.topology.interface(self.interface);
        let name = ShownDeviceName {
            name: interface.device,
        };
        write!(f, "{name}")
    }
}

/// The number of the incoming vif of a router's row for a flow. It is empty where `ShownRow` is.
#[derive(Clone, Copy, Drop)]
struct ShownIncomingVif<'v> {
    view: &'v FlowView<'v>,
    router: RouterNo,
}

impl<'v> fmt::Display for ShownIncomingVif<'v> {
    ghost output = { λ shown.
        Some (incoming_number_text ((net_in shown.view.now).row shown.router)) };

    fn fmt<W: fmt::Write>(&self, f: &mut fmt::Formatter<W>) -> fmt::Result {
        match self.view.row(self.router) {
            RowFor::Exact(entry) => {
                let vif = entry.iif;
                write!(f, "{vif}")
            }
            RowFor::Open | RowFor::NoRow => Ok(()),
        }
    }
}

/// Whether something holds, as a word.
fn flag_text(flag: bool) -> &'static str
    ensures { result.now ≡ flag_text flag }
{
    if flag { "true" } else { "false" }
}

/// Writes a fact.
pub(crate) fn push_fact(
    text: &mut String,
    context: &LineContext<'_>,
    fact: &Fact<'_>,
) -> Result<(), AllocError>
    ensures { OnOk result (string_bytes text.new ≡ string_bytes text.old
        ++ fact_text (flow_context context.now) (fact_value fact.now)) }
{
    let (view, summary) = (context.view, context.summary);
    let topology = view.topology();
    match *fact {
        Fact::Lan(lan) => text.push_str(topology.lan_name_or_empty(lan)),
        Fact::Router(router) => text.push_str(topology.router_name_or_empty(router)),
        Fact::Device(router, vif) => {
            let device = ShownDevice { view, router, vif };
            write!(text, "{device}")
        }
        Fact::Interface(interface) => {
            let device = ShownInterface {
                topology,
                interface,
            };
            write!(text, "{device}")
        }
        Fact::IncomingDevice(router) => {
            let device = ShownIncoming { view, router };
            write!(text, "{device}")
        }
        Fact::IncomingVif(router) => {
            let vif = ShownIncomingVif { view, router };
            write!(text, "{vif}")
        }
        Fact::Row(router) => {
            let row = ShownRow { view, router };
            write!(text, "{row}")
        }
        Fact::EverySourceRow(router) => {
            let row = ShownEverySource {
                view,
                summary,
                router,
            };
            write!(text, "{row}")
        }
        Fact::Flag(flag) => text.push_str(flag_text(flag)),
        Fact::Number(number) => write!(text, "{number}"),
        Fact::Routers(routers) => {
            let routers = ShownRouters { routers, topology };
            write!(text, "{routers}")
        }
    }
}
