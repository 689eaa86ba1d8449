//! What is behind a stray, as a JSON value.

ghost use Rattle.std.specs.Prelude.{◌≡◌, IfOk, map};
ghost use Rattle.serde_json.specs.View.{view as data_of};
ghost use Rattle.mc_json_wrong.specs.BehindData.{behind_data_in, found_behind_data, stray_data};

use crate::line_values::LineValues;
use crate::wrong_line::with_shown_from;
use mc_explain::Behind;
use mc_forward::Stray;
use mc_json::{Fields, lan_names, optional_finding_value, router_names};
use mc_lines::{LineContext, add_causes};
use mc_text::Memory;
use mc_topology::Topology;
use serde_json::Value;
use std::alloc::{AllocError, Global};

/// An interface by which copies leave the known domain.
fn stray_value(alloc: Global, topology: &Topology, stray: Stray) -> Result<Value, AllocError>
    ensures { IfOk result (λ value. data_of value ≡ stray_data topology.now stray) }
{
    Fields::new(alloc)
        .router("router", topology, stray.router)
        .count("vif", stray.vif as u64)
        .object()
}

/// The interfaces by which copies leave the known domain, in order.
fn stray_values(
    alloc: Global,
    topology: &Topology,
    strays: &[Stray],
) -> Result<Vec<Value>, AllocError>
    ensures { IfOk result (λ values. map data_of values.items ≡ map (stray_data topology.now) strays.now) }
{
    let mut values = Vec::new(alloc);
    for stray in strays {
        values.push(stray_value(alloc, topology, *stray)?)?;
    }
    Ok(values)
}

/// What is behind a stray, with the values of its causes.
fn found_behind_value(
    alloc: Global,
    topology: &Topology,
    behind: &Behind,
    why: Vec<Value>,
) -> Result<Value, AllocError>
    ensures { IfOk result (λ value. data_of value
        ≡ found_behind_data topology.now behind.now (map data_of why.items)) }
{
    let strays = stray_values(alloc, topology, &behind.strays);
    let fields = Fields::new(alloc)
        .value(
            "finding",
            optional_finding_value(alloc, topology, behind.finding),
        )
        .list("missed", lan_names(alloc, topology, &behind.missed))
        .list("open", router_names(alloc, topology, &behind.open_routers));
    with_shown_from(fields, behind.shown_from)
        .list("strays", strays)
        .list("why", Ok(why))
        .object()
}

/// What is behind a stray, null where the finding is no stray.
pub(crate) fn behind_value(
    alloc: Global,
    context: &LineContext<'_>,
    behind: &Option<Behind>,
) -> Result<Value, Memory>
    ensures { IfOk result (λ value. data_of value ≡ behind_data_in context.now behind.now) }
{
    let Some(behind) = behind else {
        return Ok(Value::Null);
    };
    let mut lines = LineValues::new(alloc);
    add_causes(&mut lines, context, &behind.causes)?;
    let value = found_behind_value(alloc, context.view.topology(), behind, lines.values)?;
    Ok(value)
}
