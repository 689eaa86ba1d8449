//! The lines of a fault's causes.

ghost use Rattle.std.specs.Prelude.{◌≡◌, ◌++◌, OnOk};
ghost use Rattle.mc_explain.specs.declared.causes.Cause.TheVariants.{Circle, LeastTtl, OnlyEverySource};
ghost use Rattle.mc_explain.specs.declared.causes.Cause.TheVariants.{SentOnto, StoppedAt, TakeOut};
ghost use Rattle.mc_explain.specs.declared.causes.Cause.TheVariants.{Unplaced};
ghost use Rattle.mc_lines.specs.CauseLines.{cause_items, causes_items, remedy_sentence, unplaced_words};
ghost use Rattle.mc_lines.specs.FlowContext.{flow_context};

use crate::context::LineContext;
use crate::facts::fact::Fact::{
    Device, EverySourceRow, IncomingDevice, IncomingVif, Lan, Number, Router, Row,
};
use crate::line_sink::LineSink;
use mc_explain::Cause;
use mc_forward::UnplacedReason;
use mc_text::Memory;
use mc_topology::{LanNo, RouterNo};

/// Adds a `SentOnto` cause: the router and the vif that sent a copy onto a LAN.
fn add_sent_onto<S: LineSink>(
    sink: &mut S,
    context: &LineContext<'_>,
    lan: LanNo,
    router: RouterNo,
    vif: u8,
) -> Result<(), Memory>
    ensures { OnOk result (S.items sink.new ≡ S.items sink.old
        ++ cause_items S.items_of (flow_context context.now) (SentOnto lan router vif)) }
{
    sink.add_line(
        context,
        "sent_onto",
        &["forwarded onto {lan} by {router} {device}: {row}"],
        &[
            ("device", Device(router, vif)),
            ("lan", Lan(lan)),
            ("router", Router(router)),
            ("row", Row(router)),
            ("vif", Number(vif)),
        ],
    )
}

/// Adds a `Circle` cause: a row that takes copies from one LAN of a circle and sends them onto the next.
fn add_circle<S: LineSink>(
    sink: &mut S,
    context: &LineContext<'_>,
    from: LanNo,
    onto: LanNo,
    router: RouterNo,
    vif: u8,
) -> Result<(), Memory>
    ensures { OnOk result (S.items sink.new ≡ S.items sink.old
        ++ cause_items S.items_of (flow_context context.now) (Circle from onto router vif)) }
{
    sink.add_line(
        context,
        "circle",
        &["{from_lan} to {to_lan} through {router}, {from_device} to {to_device}: {row}"],
        &[
            ("from_device", IncomingDevice(router)),
            ("from_lan", Lan(from)),
            ("from_vif", IncomingVif(router)),
            ("router", Router(router)),
            ("row", Row(router)),
            ("to_device", Device(router, vif)),
            ("to_lan", Lan(onto)),
            ("to_vif", Number(vif)),
        ],
    )
}

/// The sentence of a remedy, by whether the flow's packets reach the LAN without the vif.
fn remedy_sentence(reached: bool) -> &'static str
    ensures { result.now ≡ remedy_sentence reached }
{
    if reached {
        "fix: remove {device} from this entry of {router}; every LAN reached now is still reached"
    } else {
        "fix: remove {device} from this entry of {router}; packets sent with less than ttl {least} \
         may then not reach {lan} and LANs behind it, and this flow is listed with ttl {ttl}"
    }
}

/// Adds a `TakeOut` cause: the vif to remove from its router's row, and what that costs.
fn add_take_out<S: LineSink>(
    sink: &mut S,
    context: &LineContext<'_>,
    lan: LanNo,
    router: RouterNo,
    vif: u8,
    least: u8,
) -> Result<(), Memory>
    ensures { OnOk result (S.items sink.new ≡ S.items sink.old
        ++ cause_items S.items_of (flow_context context.now) (TakeOut lan router vif least)) }
{
    let flow = context.view.flow();
    let remedy = remedy_sentence(least <= flow.ttl);
    sink.add_line(
        context,
        "take_out",
        &[remedy, "then audit again"],
        &[
            ("device", Device(router, vif)),
            ("lan", Lan(lan)),
            ("least", Number(least)),
            ("router", Router(router)),
            ("ttl", Number(flow.ttl)),
            ("vif", Number(vif)),
        ],
    )
}

/// The kind and the sentence of a vif that is placed on no LAN.
fn unplaced_words(reason: UnplacedReason) -> (&'static str, &'static str)
    ensures kind { result.0.now ≡ (unplaced_words reason).0 }
    ensures sentence { result.1.now ≡ (unplaced_words reason).1 }
{
    match reason {
        UnplacedReason::NoVifLine => (
            "no_vif_line",
            "{device} of {router} has no line in vif-{router}",
        ),
        UnplacedReason::RegisterVif => (
            "register_vif",
            "{device} of {router} is PIM's register vif: copies go to the rendezvous point until \
             its Register-Stop arrives; if it persists, check why none arrives, and whether \
             {router} is the rendezvous point itself",
        ),
        UnplacedReason::Tunnel => ("tunnel", "{device} of {router} is a DVMRP tunnel"),
        UnplacedReason::NoDevice => ("no_device", "{device} of {router} has lost its device"),
        UnplacedReason::OnNoLan => ("on_no_lan", "{device} of {router} is on no listed LAN"),
    }
}

/// Adds an `Unplaced` cause: why the vif by which a copy was sent is placed on no LAN, and the row that
/// sent it.
fn add_unplaced<S: LineSink>(
    sink: &mut S,
    context: &LineContext<'_>,
    router: RouterNo,
    vif: u8,
) -> Result<(), Memory>
    ensures { OnOk result (S.items sink.new ≡ S.items sink.old
        ++ cause_items S.items_of (flow_context context.now) (Unplaced router vif)) }
{
    let (kind, sentence) = unplaced_words(context.view.unplaced_reason(router, vif));
    sink.add_line(
        context,
        kind,
        &[sentence],
        &[
            ("device", Device(router, vif)),
            ("router", Router(router)),
            ("vif", Number(vif)),
        ],
    )?;
    sink.add_line(context, "row", &["{row}"], &[("row", Row(router))])
}

/// Adds an `OnlyEverySource` cause: the row for every source of the router at which a copy arrived.
fn add_only_every_source<S: LineSink>(
    sink: &mut S,
    context: &LineContext<'_>,
    router: RouterNo,
    vif: u8,
) -> Result<(), Memory>
    ensures { OnOk result (S.items sink.new ≡ S.items sink.old
        ++ cause_items S.items_of (flow_context context.now) (OnlyEverySource router vif)) }
{
    sink.add_line(
        context,
        "only_every_source",
        &[
            "a copy arrives at {router} {device}, which has no resolved (S,G) entry for it, but one \
             for every source: {row}",
            "this may be healthy: mcaudit audits (S,G) trees only",
        ],
        &[
            ("device", Device(router, vif)),
            ("router", Router(router)),
            ("row", EverySourceRow(router)),
            ("vif", Number(vif)),
        ],
    )
}

/// Adds a `LeastTtl` cause: the least TTL with which packets reach a LAN.
fn add_least_ttl<S: LineSink>(
    sink: &mut S,
    context: &LineContext<'_>,
    lan: LanNo,
    least: u8,
) -> Result<(), Memory>
    ensures { OnOk result (S.items sink.new ≡ S.items sink.old
        ++ cause_items S.items_of (flow_context context.now) (LeastTtl lan least)) }
{
    sink.add_line(
        context,
        "least_ttl",
        &[
            "{lan} is reached by packets sent with ttl {least} or more; \
             this flow is listed with ttl {ttl}",
        ],
        &[
            ("lan", Lan(lan)),
            ("least", Number(least)),
            ("ttl", Number(context.view.flow().ttl)),
        ],
    )
}

/// Adds a `StoppedAt` cause: the vif whose threshold stopped the flow's packet.
fn add_stopped_at<S: LineSink>(
    sink: &mut S,
    context: &LineContext<'_>,
    router: RouterNo,
    vif: u8,
    threshold: u8,
    ttl: u8,
) -> Result<(), Memory>
    ensures { OnOk result (S.items sink.new ≡ S.items sink.old
        ++ cause_items S.items_of (flow_context context.now) (StoppedAt router vif threshold ttl)) }
{
    sink.add_line(
        context,
        "stopped_at",
        &["stopped at {router} {device}: ttl {ttl} is not above threshold {threshold}"],
        &[
            ("device", Device(router, vif)),
            ("router", Router(router)),
            ("threshold", Number(threshold)),
            ("ttl", Number(ttl)),
            ("vif", Number(vif)),
        ],
    )
}

/// Adds the lines of one cause.
fn add_cause<S: LineSink>(
    sink: &mut S,
    context: &LineContext<'_>,
    cause: Cause,
) -> Result<(), Memory>
    ensures { OnOk result (S.items sink.new ≡ S.items sink.old
        ++ cause_items S.items_of (flow_context context.now) cause) }
{
    match cause {
        Cause::SentOnto { lan, router, vif } => add_sent_onto(sink, context, lan, router, vif),
        Cause::Circle {
            from,
            onto,
            router,
            vif,
        } => add_circle(sink, context, from, onto, router, vif),
        Cause::TakeOut {
            lan,
            router,
            vif,
            least,
        } => add_take_out(sink, context, lan, router, vif, least),
        Cause::Unplaced { router, vif } => add_unplaced(sink, context, router, vif),
        Cause::OnlyEverySource { router, vif } => {
            add_only_every_source(sink, context, router, vif)
        }
        Cause::LeastTtl { lan, least } => add_least_ttl(sink, context, lan, least),
        Cause::StoppedAt {
            router,
            vif,
            threshold,
            ttl,
        } => add_stopped_at(sink, context, router, vif, threshold, ttl),
    }
}

/// Adds the lines of a fault's causes, in order: two for an `Unplaced` cause, one for each other.
///
/// # Errors
///
/// `Memory` if an allocation fails.
pub fn add_causes<S: LineSink>(
    sink: &mut S,
    context: &LineContext<'_>,
    causes: &[Cause],
) -> Result<(), Memory>
    ensures { OnOk result (S.items sink.new ≡ S.items sink.old
        ++ causes_items S.items_of (flow_context context.now) causes.now) }
{
    for cause in causes {
        add_cause(sink, context, *cause)?;
    }
    Ok(())
}
