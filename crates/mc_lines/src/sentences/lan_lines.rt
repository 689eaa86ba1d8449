//! Lines about a LAN, a router on it, and an interface of that.

ghost use Rattle.std.specs.Prelude.{◌≡◌, ◌++◌, OnOk};
ghost use Rattle.mc_lines.specs.FlowContext.{flow_context};
ghost use Rattle.mc_lines.specs.SearchLines.{interface_line, lan_line, router_line};

use crate::context::LineContext;
use crate::facts::fact::Fact::{Interface, Lan, Router};
use crate::line_sink::LineSink;
use mc_text::Memory;
use mc_topology::{LanNo, RouterNo};

/// Adds a line about a LAN.
pub(crate) fn add_lan_line<S: LineSink>(
    sink: &mut S,
    context: &LineContext<'_>,
    kind: &str,
    sentence: &str,
    lan: LanNo,
) -> Result<(), Memory>
    ensures { OnOk result (S.items sink.new ≡ S.items sink.old
        ++ S.items_of (flow_context context.now) (lan_line kind.now sentence.now lan)) }
{
    sink.add_line(context, kind, &[sentence], &[("lan", Lan(lan))])
}

/// Adds a line about a router on a LAN.
pub(crate) fn add_router_line<S: LineSink>(
    sink: &mut S,
    context: &LineContext<'_>,
    kind: &str,
    sentence: &str,
    lan: LanNo,
    router: RouterNo,
) -> Result<(), Memory>
    ensures { OnOk result (S.items sink.new ≡ S.items sink.old
        ++ S.items_of (flow_context context.now) (router_line kind.now sentence.now lan router)) }
{
    sink.add_line(
        context,
        kind,
        &[sentence],
        &[("lan", Lan(lan)), ("router", Router(router))],
    )
}

/// Adds a line about a device that the topology has on a LAN.
pub(crate) fn add_interface_line<S: LineSink>(
    sink: &mut S,
    context: &LineContext<'_>,
    kind: &str,
    sentence: &str,
    lan: LanNo,
    router: RouterNo,
    interface: u32,
) -> Result<(), Memory>
    ensures { OnOk result (S.items sink.new ≡ S.items sink.old ++ S.items_of (flow_context context.now)
        (interface_line kind.now sentence.now lan router interface)) }
{
    sink.add_line(
        context,
        kind,
        &[sentence],
        &[
            ("device", Interface(interface)),
            ("lan", Lan(lan)),
            ("router", Router(router)),
        ],
    )
}
