//! The text of a fault's causes, and of the search for a missed LAN.

ghost use Rattle.std.specs.Prelude.{◌≡◌, ◌<◌, ◌++◌, IfOk, OnOk, Some, flat_map, length, take};
ghost use Rattle.std.specs.String.{string_bytes};
ghost use Rattle.mc_forward.specs.ListedTables.{facts};
ghost use Rattle.mc_search.specs.ShownLines.{shown_lines};
ghost use Rattle.mc_lines.specs.CauseLines.{causes_items};
ghost use Rattle.mc_lines.specs.ExplanationText.{causes_text, context_of, deeper_causes_text};
ghost use Rattle.mc_lines.specs.ExplanationText.{first_lines_text, more_lines_text, search_text};
ghost use Rattle.mc_lines.specs.Filled.{line_text};
ghost use Rattle.mc_lines.specs.FlowContext.{flow_context};
ghost use Rattle.mc_lines.specs.SearchLines.{shown_items};

use crate::context::LineContext;
use crate::deeper_text::DeeperText;
use crate::line_sink::LineSink;
use crate::sentences::cause_lines::add_causes;
use crate::sentences::reach_lines::add_reach;
use crate::sentences::search_lines::add_shown_line;
use mc_explain::Cause;
use mc_forward::{Domain, FlowView};
use mc_search::{LanSearch, SearchLine, ShownLines};
use mc_tables::CacheSummary;
use mc_text::Memory;
use std::alloc::Global;
use std::fmt;

/// How many lines of a search are shown at most.
const MAX_SHOWN_LINES: usize = 40;

/// The line that counts further lines, or nothing if there are none.
#[derive(Clone, Copy, Drop)]
struct ShownMoreLines {
    more: usize,
}

impl fmt::Display for ShownMoreLines {
    ghost output = { λ shown. Some (more_lines_text shown.more) };

    fn fmt<W: fmt::Write>(&self, f: &mut fmt::Formatter<W>) -> fmt::Result {
        let more = self.more;
        if more == 0 {
            Ok(())
        } else {
            writeln!(f, "  and {more} more lines")
        }
    }
}

/// Adds the lines of the causes of a flow's fault.
fn add_causes_of_flow<S: LineSink>(
    sink: &mut S,
    domain: &Domain,
    summary: &[CacheSummary],
    flow: u32,
    causes: &[Cause],
) -> Result<(), Memory>
    requires { flow < length domain.now.topology.flows }
    ensures { OnOk result (S.items sink.new ≡ S.items sink.old
        ++ causes_items S.items_of (context_of (facts domain.now) summary.now flow) causes.now) }
{
    let view = FlowView::new(domain, flow);
    let context = LineContext {
        view: &view,
        summary,
    };
    add_causes(sink, &context, causes)
}

/// Writes the causes of a flow's fault, with the names of the topology and of the vif tables: two lines
/// for a `TakeOut`, an `Unplaced` and an `OnlyEverySource` cause, one for each other. `flow` counts from 0,
/// and `summary` has the summary of each router's cache, in the topology's order.
///
/// # Errors
///
/// `Memory` if an allocation fails.
pub fn push_causes(
    text: &mut String,
    domain: &Domain,
    summary: &[CacheSummary],
    flow: u32,
    causes: &[Cause],
) -> Result<(), Memory>
    requires flow { flow < length domain.now.topology.flows }
    ensures lines { OnOk result (string_bytes text.new ≡ string_bytes text.old
        ++ causes_text (facts domain.now) summary.now flow causes.now) }
{
    add_causes_of_flow(text, domain, summary, flow, causes)
}

/// Writes the causes of a fault as [`push_causes`] does, but after four spaces, to stand below a line
/// that is indented itself.
///
/// # Errors
///
/// `Memory` if an allocation fails.
pub fn push_deeper_causes(
    alloc: Global,
    text: &mut String,
    domain: &Domain,
    summary: &[CacheSummary],
    flow: u32,
    causes: &[Cause],
) -> Result<(), Memory>
    requires flow { flow < length domain.now.topology.flows }
    ensures lines { OnOk result (string_bytes text.new ≡ string_bytes text.old
        ++ deeper_causes_text (facts domain.now) summary.now flow causes.now) }
{
    let mut deeper = DeeperText {
        text: String::new(alloc),
    };
    add_causes_of_flow(&mut deeper, domain, summary, flow, causes)?;
    text.push_str(&deeper.text)?;
    Ok(())
}

/// Writes the first 40 lines of a search, and returns how many lines there are.
fn push_first_lines(
    alloc: Global,
    text: &mut String,
    context: &LineContext<'_>,
    lines: &[SearchLine],
) -> Result<usize, Memory>
    ensures text { OnOk result (string_bytes text.new ≡ string_bytes text.old
        ++ flat_map (shown_items line_text (flow_context context.now)) (take 40 (shown_lines lines.now))) }
    ensures count { IfOk result (λ count. count ≡ length (shown_lines lines.now)) }
{
    let mut count: usize = 0;
    for line in ShownLines::new(lines) {
        if count < MAX_SHOWN_LINES {
            add_shown_line(alloc, text, context, line)?;
        }
        count += 1;
    }
    Ok(count)
}

/// Writes the first 40 lines of a search, and how many more there are.
fn push_shown_lines(
    alloc: Global,
    text: &mut String,
    context: &LineContext<'_>,
    lines: &[SearchLine],
) -> Result<(), Memory>
    ensures { OnOk result (string_bytes text.new ≡ string_bytes text.old
        ++ first_lines_text (flow_context context.now) (shown_lines lines.now)) }
{
    let count = push_first_lines(alloc, text, context, lines)?;
    let more = ShownMoreLines {
        more: count.saturating_sub(MAX_SHOWN_LINES),
    };
    write!(text, "{more}")?;
    Ok(())
}

/// Writes the search for a LAN that the packets of a flow missed, with the names of the topology and of the
/// vif tables: how far the packet came, then the first 40 lines, and how many more there are. Routers that
/// expect copies from the same LAN share a line. `flow` counts from 0, and `summary` has the summary of
/// each router's cache, in the topology's order.
///
/// # Errors
///
/// `Memory` if an allocation fails.
pub fn push_search(
    alloc: Global,
    text: &mut String,
    domain: &Domain,
    summary: &[CacheSummary],
    flow: u32,
    search: &LanSearch,
) -> Result<(), Memory>
    requires flow { flow < length domain.now.topology.flows }
    ensures lines { OnOk result (string_bytes text.new ≡ string_bytes text.old
        ++ search_text (facts domain.now) summary.now flow search.now) }
{
    let view = FlowView::new(domain, flow);
    let context = LineContext {
        view: &view,
        summary,
    };
    add_reach(text, &context, &search.reach)?;
    push_shown_lines(alloc, text, &context, &search.lines)
}
