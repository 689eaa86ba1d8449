//! The lines of the search for a missed LAN.

ghost use Rattle.std.specs.Prelude.{◌≡◌, ◌++◌, OnOk};
ghost use Rattle.mc_lines.specs.FlowContext.{flow_context};
ghost use Rattle.mc_lines.specs.SearchLines.{reach_items, search_items, search_line, shown_items};

use crate::context::LineContext;
use crate::line_sink::LineSink;
use crate::sentences::lan_lines::{add_interface_line, add_lan_line, add_router_line};
use crate::sentences::reach_lines::add_reach;
use crate::sentences::row_lines::{
    add_does_not_send, add_every_source, add_expected, add_from_unplaced, add_stopped,
    add_waits_for,
};
use mc_search::{LanSearch, SearchLine, ShownLine, ShownLines};
use mc_text::Memory;
use std::alloc::Global;

/// Adds a line of a search.
fn add_search_line<S: LineSink>(
    sink: &mut S,
    context: &LineContext<'_>,
    line: SearchLine,
) -> Result<(), Memory>
    ensures { OnOk result (S.items sink.new ≡ S.items sink.old
        ++ S.items_of (flow_context context.now) (search_line (flow_context context.now) line)) }
{
    match line {
        SearchLine::Excluded { lan, router } => {
            let excluded = "{lan}: {router} is excluded: its tables are unknown";
            add_router_line(sink, context, "left_out", excluded, lan, router)
        }
        SearchLine::NoVif {
            lan,
            router,
            interface,
        } => {
            let no_vif = "{lan}: {router} has no vif for {device}";
            add_interface_line(sink, context, "no_vif", no_vif, lan, router, interface)
        }
        SearchLine::NotMulticast {
            lan,
            router,
            interface,
        } => {
            let uses = "{lan}: {router} uses {device} as a DVMRP tunnel or register vif";
            add_interface_line(sink, context, "not_multicast", uses, lan, router, interface)
        }
        SearchLine::NoRow { lan, router } => {
            let no_row = "{lan}: {router} has no entry for this flow";
            add_router_line(sink, context, "no_row", no_row, lan, router)
        }
        SearchLine::Unresolved { lan, router } => {
            let unresolved = "{lan}: {router} has only an unresolved entry: its routing daemon \
                              has not answered yet";
            add_router_line(sink, context, "unresolved", unresolved, lan, router)
        }
        SearchLine::EverySource { lan, router } => add_every_source(sink, context, lan, router),
        SearchLine::FromUnplaced { lan, router } => add_from_unplaced(sink, context, lan, router),
        SearchLine::DoesNotSend {
            lan,
            router,
            vif,
            from,
            carried,
        } => add_does_not_send(sink, context, lan, router, vif, from, carried),
        SearchLine::Stopped {
            lan,
            router,
            vif,
            threshold,
            ttl,
        } => add_stopped(sink, context, lan, router, vif, threshold, ttl),
        SearchLine::WaitsFor {
            lan,
            router,
            vif,
            from,
        } => add_waits_for(sink, context, lan, router, vif, from),
        SearchLine::ExpectedFromHere { lan, router } => {
            add_expected(sink, context, lan, &[router])
        }
        SearchLine::NoRouter { lan } => {
            let no_router = "{lan}: no router is on this LAN";
            add_lan_line(sink, context, "no_router", no_router, lan)
        }
        SearchLine::NoSender { lan } => {
            let no_sender = "{lan}: no entry for this flow forwards onto it";
            add_lan_line(sink, context, "no_sender", no_sender, lan)
        }
    }
}

/// Adds a shown line of a search.
pub(crate) fn add_shown_line<S: LineSink>(
    alloc: Global,
    sink: &mut S,
    context: &LineContext<'_>,
    line: ShownLine<'_>,
) -> Result<(), Memory>
    ensures { OnOk result (S.items sink.new ≡ S.items sink.old
        ++ shown_items S.items_of (flow_context context.now) line.entry) }
{
    match line {
        ShownLine::One(line) => add_search_line(sink, context, line),
        ShownLine::Expected { lan, routers } => {
            let routers = routers.into_vec(alloc)?;
            add_expected(sink, context, lan, &routers)
        }
    }
}

/// Adds the shown lines of a search.
fn add_shown_lines<S: LineSink>(
    alloc: Global,
    sink: &mut S,
    context: &LineContext<'_>,
    lines: &[SearchLine],
) -> Result<(), Memory>
    ensures { OnOk result (S.items sink.new ≡ S.items sink.old
        ++ search_items S.items_of (flow_context context.now) lines.now) }
{
    for line in ShownLines::new(lines) {
        add_shown_line(alloc, sink, context, line)?;
    }
    Ok(())
}

/// Adds how far the packet came, and all lines of the search.
///
/// # Errors
///
/// `Memory` if an allocation fails.
pub fn add_search<S: LineSink>(
    alloc: Global,
    sink: &mut S,
    context: &LineContext<'_>,
    search: &LanSearch,
) -> Result<(), Memory>
    ensures { OnOk result (S.items sink.new ≡ S.items sink.old
        ++ (reach_items S.items_of (flow_context context.now) search.now.reach.sent_on.items
        search.now.reach.took_none.items
        ++ search_items S.items_of (flow_context context.now) search.now.lines.items)) }
{
    add_reach(sink, context, &search.reach)?;
    add_shown_lines(alloc, sink, context, &search.lines)
}
