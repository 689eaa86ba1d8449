//! The lines of a search about a router's row.

ghost use Rattle.std.specs.Prelude.{◌≡◌, ◌++◌, OnOk};
ghost use Rattle.mc_forward.specs.FlightsInDomain.{net_in};
ghost use Rattle.mc_forward.specs.ListedTables.{facts};
ghost use Rattle.mc_search.specs.declared.search_line.SearchLine.TheVariants.{DoesNotSend};
ghost use Rattle.mc_search.specs.declared.search_line.SearchLine.TheVariants.{EverySource};
ghost use Rattle.mc_search.specs.declared.search_line.SearchLine.TheVariants.{FromUnplaced};
ghost use Rattle.mc_search.specs.declared.search_line.SearchLine.TheVariants.{Stopped, WaitsFor};
ghost use Rattle.mc_lines.specs.FlowContext.{flow_context};
ghost use Rattle.mc_lines.specs.SearchLines.{expected_line, incoming_reason, incoming_words};
ghost use Rattle.mc_lines.specs.SearchLines.{missing_sentence, search_line};

use crate::context::LineContext;
use crate::facts::fact::Fact::{
    Device, EverySourceRow, Flag, IncomingDevice, IncomingVif, Lan, Number, Router, Routers, Row,
};
use crate::line_sink::LineSink;
use mc_forward::{FlowView, RowFor, UnplacedReason};
use mc_text::Memory;
use mc_topology::{LanNo, RouterNo};

/// Adds an `EverySource` line: a router's row for every source.
pub(crate) fn add_every_source<S: LineSink>(
    sink: &mut S,
    context: &LineContext<'_>,
    lan: LanNo,
    router: RouterNo,
) -> Result<(), Memory>
    ensures { OnOk result (S.items sink.new ≡ S.items sink.old ++ S.items_of (flow_context context.now)
        (search_line (flow_context context.now) (EverySource lan router))) }
{
    sink.add_line(
        context,
        "every_source",
        &[
            "{lan}: {router} has no resolved (S,G) entry for this flow, but one for every source, \
             which is not audited: {row}",
        ],
        &[
            ("lan", Lan(lan)),
            ("router", Router(router)),
            ("row", EverySourceRow(router)),
        ],
    )
}

/// Why the incoming vif of a router's row is placed on no LAN. `OnNoLan` also if the router has no row of
/// the flow's source and group.
fn incoming_reason(view: &FlowView<'_>, router: RouterNo) -> UnplacedReason
    ensures { result ≡ incoming_reason (facts view.now.domain) router ((net_in view.now).row router) }
{
    match view.row(router) {
        RowFor::Exact(entry) => view.unplaced_reason(router, entry.iif),
        RowFor::Open | RowFor::NoRow => UnplacedReason::OnNoLan,
    }
}

/// The kind and the sentence of a row whose incoming vif is placed on no LAN.
fn incoming_words(reason: UnplacedReason) -> (&'static str, &'static str)
    ensures kind { result.0.now ≡ (incoming_words reason).0 }
    ensures sentence { result.1.now ≡ (incoming_words reason).1 }
{
    match reason {
        UnplacedReason::NoVifLine => (
            "from_no_vif_line",
            "{lan}: {router} expects it from {from_device}, which has no line in vif-{router}: {row}",
        ),
        UnplacedReason::RegisterVif => (
            "from_register",
            "{lan}: {router} expects it from {from_device}, PIM's register vif: {row}",
        ),
        UnplacedReason::Tunnel => (
            "from_tunnel",
            "{lan}: {router} expects it from {from_device}, a DVMRP tunnel: {row}",
        ),
        UnplacedReason::NoDevice => (
            "from_no_device",
            "{lan}: {router} expects it from {from_device}, which has lost its device: {row}",
        ),
        UnplacedReason::OnNoLan => (
            "from_no_lan",
            "{lan}: {router} expects it from {from_device}, which is on no listed LAN: {row}",
        ),
    }
}

/// Adds a `FromUnplaced` line: a row whose incoming vif is placed on no LAN.
pub(crate) fn add_from_unplaced<S: LineSink>(
    sink: &mut S,
    context: &LineContext<'_>,
    lan: LanNo,
    router: RouterNo,
) -> Result<(), Memory>
    ensures { OnOk result (S.items sink.new ≡ S.items sink.old ++ S.items_of (flow_context context.now)
        (search_line (flow_context context.now) (FromUnplaced lan router))) }
{
    let (kind, sentence) = incoming_words(incoming_reason(context.view, router));
    sink.add_line(
        context,
        kind,
        &[sentence],
        &[
            ("from_device", IncomingDevice(router)),
            ("from_vif", IncomingVif(router)),
            ("lan", Lan(lan)),
            ("router", Router(router)),
            ("row", Row(router)),
        ],
    )
}

/// The sentence of a row that doesn't send by a vif, by whether the LAN that it takes from carried a copy.
fn missing_sentence(carried: bool) -> &'static str
    ensures { result.now ≡ missing_sentence carried }
{
    if carried {
        "{lan}: {router} receives it from {from_lan} and does not forward it to {device}: {row}"
    } else {
        "{lan}: {router} expects it from {from_lan}, which by the known tables does not carry it \
         either, and does not forward it to {device}: {row}"
    }
}

/// Adds a `DoesNotSend` line: a row that doesn't send by a vif.
pub(crate) fn add_does_not_send<S: LineSink>(
    sink: &mut S,
    context: &LineContext<'_>,
    lan: LanNo,
    router: RouterNo,
    vif: u8,
    from: LanNo,
    carried: bool,
) -> Result<(), Memory>
    ensures { OnOk result (S.items sink.new ≡ S.items sink.old ++ S.items_of (flow_context context.now)
        (search_line (flow_context context.now) (DoesNotSend lan router vif from carried))) }
{
    sink.add_line(
        context,
        "does_not_send",
        &[missing_sentence(carried)],
        &[
            ("carried", Flag(carried)),
            ("device", Device(router, vif)),
            ("from_lan", Lan(from)),
            ("lan", Lan(lan)),
            ("router", Router(router)),
            ("row", Row(router)),
            ("vif", Number(vif)),
        ],
    )
}

/// Adds a `Stopped` line: a row whose threshold stops the copy.
pub(crate) fn add_stopped<S: LineSink>(
    sink: &mut S,
    context: &LineContext<'_>,
    lan: LanNo,
    router: RouterNo,
    vif: u8,
    threshold: u8,
    ttl: u8,
) -> Result<(), Memory>
    ensures { OnOk result (S.items sink.new ≡ S.items sink.old ++ S.items_of (flow_context context.now)
        (search_line (flow_context context.now) (Stopped lan router vif threshold ttl))) }
{
    sink.add_line(
        context,
        "stopped",
        &["{lan}: {router} is stopped at {device}: ttl {ttl} is not above threshold {threshold}"],
        &[
            ("device", Device(router, vif)),
            ("lan", Lan(lan)),
            ("router", Router(router)),
            ("row", Row(router)),
            ("threshold", Number(threshold)),
            ("ttl", Number(ttl)),
            ("vif", Number(vif)),
        ],
    )
}

/// Adds a `WaitsFor` line: a row that takes from a LAN that carried no copy.
pub(crate) fn add_waits_for<S: LineSink>(
    sink: &mut S,
    context: &LineContext<'_>,
    lan: LanNo,
    router: RouterNo,
    vif: u8,
    from: LanNo,
) -> Result<(), Memory>
    ensures { OnOk result (S.items sink.new ≡ S.items sink.old ++ S.items_of (flow_context context.now)
        (search_line (flow_context context.now) (WaitsFor lan router vif from))) }
{
    sink.add_line(
        context,
        "waits_for",
        &["{lan}: {router} expects it from {from_lan} at {from_device}: {row}"],
        &[
            ("device", Device(router, vif)),
            ("from_device", IncomingDevice(router)),
            ("from_lan", Lan(from)),
            ("from_vif", IncomingVif(router)),
            ("lan", Lan(lan)),
            ("router", Router(router)),
            ("row", Row(router)),
            ("vif", Number(vif)),
        ],
    )
}

/// Adds the line of the routers that expect copies from a LAN.
pub(crate) fn add_expected<S: LineSink>(
    sink: &mut S,
    context: &LineContext<'_>,
    lan: LanNo,
    routers: &[RouterNo],
) -> Result<(), Memory>
    ensures { OnOk result (S.items sink.new ≡ S.items sink.old
        ++ S.items_of (flow_context context.now) (expected_line lan routers.now)) }
{
    sink.add_line(
        context,
        "expected_from_here",
        &["{lan}: expected from here by{routers}"],
        &[("lan", Lan(lan)), ("routers", Routers(routers))],
    )
}
