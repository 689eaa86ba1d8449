//! The lines about how far a packet came.

ghost use Rattle.std.specs.Prelude.{◌≡◌, ◌++◌, OnOk, map};
ghost use Rattle.mc_lines.specs.FlowContext.{flow_context};
ghost use Rattle.mc_lines.specs.GivenLines.{given_text};
ghost use Rattle.mc_lines.specs.SearchLines.{reach_items, routers_line, sent_on_sentences};
ghost use Rattle.mc_lines.specs.SearchLines.{took_none_sentences};

use crate::context::LineContext;
use crate::facts::fact::Fact::Routers;
use crate::line_sink::LineSink;
use mc_search::Reach;
use mc_text::Memory;
use mc_topology::RouterNo;

/// The sentence of the routers that sent copies on, if there are any.
fn sent_on_sentences(routers: &[RouterNo]) -> &'static [&'static str]
    ensures { map given_text result.now ≡ sent_on_sentences routers.now }
{
    if routers.is_empty() {
        &[]
    } else {
        &["reaches:{routers}"]
    }
}

/// The sentence of the routers that took no copy, if there are any, or that no router receives one.
fn took_none_sentences(reach: &Reach) -> &'static [&'static str]
    ensures { map given_text result.now
        ≡ took_none_sentences reach.now.sent_on.items reach.now.took_none.items }
{
    if !reach.took_none.is_empty() {
        &["reaches, and is taken by no entry of:{routers}"]
    } else if reach.sent_on.is_empty() {
        &["by the known tables no router of this search receives it"]
    } else {
        &[]
    }
}

/// Adds a line about routers that a copy came to.
fn add_routers_line<S: LineSink>(
    sink: &mut S,
    context: &LineContext<'_>,
    kind: &str,
    sentences: &[&str],
    routers: &[RouterNo],
) -> Result<(), Memory>
    ensures { OnOk result (S.items sink.new ≡ S.items sink.old ++ S.items_of (flow_context context.now)
        (routers_line kind.now (map given_text sentences.now) routers.now)) }
{
    sink.add_line(context, kind, sentences, &[("routers", Routers(routers))])
}

/// Adds how far the packet came: the routers that sent copies on, and those that took none.
pub(crate) fn add_reach<S: LineSink>(
    sink: &mut S,
    context: &LineContext<'_>,
    reach: &Reach,
) -> Result<(), Memory>
    ensures { OnOk result (S.items sink.new ≡ S.items sink.old
        ++ reach_items S.items_of (flow_context context.now) reach.now.sent_on.items
        reach.now.took_none.items) }
{
    let sentences = sent_on_sentences(&reach.sent_on);
    add_routers_line(sink, context, "gets_as_far_as", sentences, &reach.sent_on)?;
    let sentences = took_none_sentences(reach);
    add_routers_line(sink, context, "not_taken", sentences, &reach.took_none)
}
