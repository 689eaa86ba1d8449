//! The lines after the flows: unlisted rows, excluded routers, how many flows are right, and the verdict.

ghost use Rattle.std.specs.Prelude.{◌≡◌, ◌++◌, IfOk, OnOk, flat_map};
ghost use Rattle.std.specs.String.{string_bytes};
ghost use Rattle.serde_json.specs.View.{view as data_of};
ghost use Rattle.mc_json.specs.EndData.{summary_data, unlisted_data, unlisted_line, unlisted_lines};
ghost use Rattle.mc_json.specs.EndData.{unlisted_more_line, verdict_data, verdict_word, without_line_of};
ghost use Rattle.mc_json.specs.RowData.{line_of};

use crate::fields::Fields;
use crate::line::{push_line, push_list_line};
use crate::name_values::router_names;
use mc_shown::{UnlistedPair, UnlistedPairs};
use mc_tables::CacheSummary;
use mc_text::Memory;
use mc_topology::{RouterNo, Topology};
use serde_json::Value;
use std::alloc::{AllocError, Global};

/// An unlisted group and source, and the routers that have a row of them.
fn unlisted_value(
    alloc: Global,
    topology: &Topology,
    pair: &UnlistedPair,
) -> Result<Value, AllocError>
    ensures { IfOk result (λ value. data_of value
        ≡ unlisted_data topology.now pair.now.0.1 pair.now.0.0 pair.now.1) }
{
    let (group, source) = (pair.group(), pair.source());
    let inner = Fields::new(alloc)
        .string("group", format!(in alloc; "{group}"))
        .list("routers", router_names(alloc, topology, pair.routers()))
        .string("source", format!(in alloc; "{source}"))
        .object();
    Fields::new(alloc).value("unlisted", inner).object()
}

/// Writes the line of an unlisted pair.
fn push_unlisted_line(
    alloc: Global,
    text: &mut String,
    topology: &Topology,
    pair: &UnlistedPair,
) -> Result<(), AllocError>
    ensures { OnOk result (string_bytes text.new ≡
        string_bytes text.old ++ unlisted_line topology.now pair.now) }
{
    let value = unlisted_value(alloc, topology, pair)?;
    push_line(alloc, text, &value)
}

/// Writes the lines of the pairs that are shown.
fn push_unlisted_pair_lines(
    alloc: Global,
    text: &mut String,
    topology: &Topology,
    shown: &[UnlistedPair],
) -> Result<(), AllocError>
    ensures { OnOk result (string_bytes text.new ≡
        string_bytes text.old ++ flat_map (unlisted_line topology.now) shown.now) }
{
    for pair in shown {
        push_unlisted_line(alloc, text, topology, pair)?;
    }
    Ok(())
}

/// Writes the line that counts the further rows, or nothing if there are none.
fn push_unlisted_more_line(text: &mut String, rows: u128) -> Result<(), AllocError>
    ensures { OnOk result (string_bytes text.new ≡ string_bytes text.old ++ unlisted_more_line rows) }
{
    if rows == 0 {
        return Ok(());
    }
    writeln!(text, "{{\"unlisted_more\":{{\"rows\":{rows}}}}}")?;
    Ok(())
}

/// Writes the resolved rows whose source and group are no listed flow's: a line for each pair of a group
/// and a source, for all pairs or for the 20 lowest, with all routers that have a row of it, and how many
/// further rows there are. `summary` has the summary of each router's cache, in the topology's order.
///
/// # Errors
///
/// `Memory` if an allocation fails.
pub fn push_unlisted_lines(
    alloc: Global,
    text: &mut String,
    topology: &Topology,
    summary: &[CacheSummary],
    all: bool,
) -> Result<(), Memory>
    ensures lines { OnOk result (string_bytes text.new ≡
        string_bytes text.old ++ unlisted_lines all topology.now summary.now) }
{
    let pairs = UnlistedPairs::new(alloc, topology, summary, all)?;
    push_unlisted_pair_lines(alloc, text, topology, &pairs.shown)?;
    push_unlisted_more_line(text, pairs.further)?;
    Ok(())
}

/// Writes the line of the excluded routers, or nothing if there are none.
///
/// # Errors
///
/// `Memory` if an allocation fails.
pub fn push_without_line(
    alloc: Global,
    text: &mut String,
    topology: &Topology,
    routers: &[RouterNo],
) -> Result<(), Memory>
    ensures { OnOk result (string_bytes text.new ≡
        string_bytes text.old ++ without_line_of topology.now routers.now) }
{
    let names = router_names(alloc, topology, routers)?;
    push_list_line(alloc, text, "without", names)?;
    Ok(())
}

/// How many flows there are, how many are right, unknown, unwanted and wrong, and how many wants of LANs no
/// flow answers.
fn summary_value(
    alloc: Global,
    asked: u64,
    right: u32,
    unknown: u32,
    unwanted: u32,
    wrong: u32,
) -> Result<Value, AllocError>
    ensures { IfOk result (λ value. data_of value ≡ summary_data asked right unknown unwanted wrong) }
{
    let flows = right as u64 + wrong as u64 + unknown as u64;
    let inner = Fields::new(alloc)
        .count("asked", asked)
        .count("flows", flows)
        .count("right", right as u64)
        .count("unknown", unknown as u64)
        .count("unwanted", unwanted as u64)
        .count("wrong", wrong as u64)
        .object();
    Fields::new(alloc).value("summary", inner).object()
}

/// Writes the line that counts the flows: how many are right, of how many that isn't known, how many
/// without a finding no LAN wants, and how many aren't right; and how many wants of LANs no flow answers.
///
/// # Errors
///
/// `Memory` if an allocation fails.
pub fn push_summary_line(
    alloc: Global,
    text: &mut String,
    asked: u64,
    right: u32,
    unknown: u32,
    unwanted: u32,
    wrong: u32,
) -> Result<(), Memory>
    ensures line { OnOk result (string_bytes text.new ≡ string_bytes text.old
        ++ line_of (summary_data asked right unknown unwanted wrong)) }
{
    let value = summary_value(alloc, asked, right, unknown, unwanted, wrong)?;
    push_line(alloc, text, &value)?;
    Ok(())
}

/// A verdict in one word.
fn verdict_word(is_yes: bool) -> &'static str
    ensures { result.now ≡ verdict_word is_yes }
{
    if is_yes { "yes" } else { "no" }
}

/// The object of the verdict.
fn verdict_value(alloc: Global, is_yes: bool) -> Result<Value, AllocError>
    ensures { IfOk result (λ value. data_of value ≡ verdict_data is_yes) }
{
    let verdict = verdict_word(is_yes);
    Fields::new(alloc).text("verdict", verdict).object()
}

/// Writes the line of the verdict.
///
/// # Errors
///
/// `Memory` if an allocation fails.
pub fn push_verdict_line(alloc: Global, text: &mut String, is_yes: bool) -> Result<(), Memory>
    ensures line { OnOk result (string_bytes text.new ≡ string_bytes text.old
        ++ line_of (verdict_data is_yes)) }
{
    let value = verdict_value(alloc, is_yes)?;
    push_line(alloc, text, &value)?;
    Ok(())
}
