//! Writes the lines after those of the flows in an audit's text, and the verdict.

ghost use Rattle.std.specs.Prelude.{◌≡◌, ◌++◌, OnOk};
ghost use Rattle.std.specs.String.{string_bytes};
ghost use Rattle.mc_run.specs.AuditEnd.{strict_line, strict_lines, summary_line, verdict_line};
ghost use Rattle.mc_run.specs.AuditPieces.{end_objects_of, end_text_of, end_text_or_objects_of};

use crate::audit::audit_asked::push_asked_lines;
use crate::audit::audited_domain::AuditedDomain;
use crate::audit::flow_status::FlowCounts;
use mc_commands::push_overall_verdict;
use mc_json::{push_summary_line, push_unlisted_lines, push_verdict_line, push_without_line};
use mc_shown::{list_excluded_routers, push_excluded_routers, push_unlisted, push_verdict_reason};
use mc_text::Memory;
use std::alloc::Global;

// ---- as text

/// Writes how many flows there are, how many have each status, and how many wants of LANs no flow answers.
fn push_summary(
    text: &mut String,
    flows: u32,
    flow_counts: FlowCounts,
    asked: u64,
) -> Result<(), Memory>
    ensures { OnOk result (string_bytes text.new ≡ string_bytes text.old
        ++ summary_line flows flow_counts.right flow_counts.wrong flow_counts.unknown
        flow_counts.unwanted asked) }
{
    let FlowCounts {
        right,
        wrong,
        unknown,
        unwanted,
    } = flow_counts;
    write!(
        text,
        "summary flows {flows} right {right} wrong {wrong} unknown {unknown} unwanted {unwanted}"
    )?;
    writeln!(text, " asked {asked}")?;
    Ok(())
}

/// Writes that a yes isn't enough where there are some of what these words name.
fn push_strict_line(text: &mut String, fails: bool, count: u64, words: &str) -> Result<(), Memory>
    ensures { OnOk result (string_bytes text.new ≡ string_bytes text.old
        ++ strict_line fails count words.now) }
{
    if fails && count > 0 {
        writeln!(text, "  strict: {count}{words}, status 1")?;
    }
    Ok(())
}

/// Writes, if the option strict is set, that a yes isn't enough since some flows are wanted by nobody, or
/// since no flow answers some wants.
fn push_strict(
    text: &mut String,
    strict: bool,
    all: bool,
    unwanted: u32,
    asked: u64,
) -> Result<(), Memory>
    ensures { OnOk result (string_bytes text.new ≡ string_bytes text.old
        ++ strict_lines strict all unwanted asked) }
{
    let fails = strict && all;
    push_strict_line(text, fails, u64::from(unwanted), " flows that nobody wants")?;
    push_strict_line(text, fails, asked, " wants that no flow answers")
}

/// Writes the lines after the flows as text. `all` says whether the verdict is yes.
fn push_end_text(
    alloc: Global,
    text: &mut String,
    audited: &AuditedDomain<'_>,
    flow_counts: FlowCounts,
    asked: u64,
    all: bool,
) -> Result<(), Memory>
    requires asked { asked ≡ audited.now.asked.now.count }
    ensures { OnOk result (string_bytes text.new ≡ string_bytes text.old
        ++ end_text_of audited.now flow_counts all) }
{
    let options = audited.options;
    let topology = audited.domain.topology();
    let routers = list_excluded_routers(alloc, topology, audited.excluded)?;
    push_unlisted(alloc, text, topology, audited.summary, options.unlisted)?;
    push_asked_lines(alloc, text, audited, false)?;
    push_excluded_routers(text, topology, &routers)?;
    push_summary(text, topology.flows(), flow_counts, asked)?;
    push_verdict_reason(text, topology, &routers)?;
    push_strict(text, options.strict, all, flow_counts.unwanted, asked)
}

// ---- in JSON

/// Writes the lines after the flows in JSON.
fn push_end_objects(
    alloc: Global,
    text: &mut String,
    audited: &AuditedDomain<'_>,
    flow_counts: FlowCounts,
    asked: u64,
) -> Result<(), Memory>
    requires asked { asked ≡ audited.now.asked.now.count }
    ensures { OnOk result (string_bytes text.new ≡ string_bytes text.old
        ++ end_objects_of audited.now flow_counts) }
{
    let options = audited.options;
    let topology = audited.domain.topology();
    let FlowCounts {
        right,
        wrong,
        unknown,
        unwanted,
    } = flow_counts;
    let routers = list_excluded_routers(alloc, topology, audited.excluded)?;
    push_unlisted_lines(alloc, text, topology, audited.summary, options.unlisted)?;
    push_asked_lines(alloc, text, audited, true)?;
    push_without_line(alloc, text, topology, &routers)?;
    push_summary_line(alloc, text, asked, right, unknown, unwanted, wrong)
}

// ---- both

/// Writes the lines after the flows, with the counts of flows and of wants, and the verdict.
pub(crate) fn push_end(
    alloc: Global,
    text: &mut String,
    audited: &AuditedDomain<'_>,
    flow_counts: FlowCounts,
    asked: u64,
    all: bool,
) -> Result<(), Memory>
    requires asked { asked ≡ audited.now.asked.now.count }
    ensures { OnOk result (string_bytes text.new ≡ string_bytes text.old
        ++ (end_text_or_objects_of audited.now flow_counts all
        ++ verdict_line audited.now.options.json all)) }
{
    let options = audited.options;
    if options.json {
        push_end_objects(alloc, text, audited, flow_counts, asked)?;
        push_verdict_line(alloc, text, all)
    } else {
        push_end_text(alloc, text, audited, flow_counts, asked, all)?;
        push_overall_verdict(text, all)
    }
}
