//! Each router's rows for all flows, in the order of the flows, so that a pass over the flows reads them
//! one after another.

ghost use Rattle.std.specs.Prelude.{◌≡◌, ◌<◌, ◌++◌, ◌∷◌, [], IfOk, OnOk, Some, length, map};
ghost use Rattle.std.specs.Prelude.{slice_get};
ghost use Rattle.std.specs.List.{AllByRecursion};
ghost use Rattle.mc_forward.specs.Assembling.{rows_by_tables};
ghost use Rattle.mc_forward.specs.Domains.{IsValidRow, row_in_cache};
ghost use Rattle.mc_forward.specs.FlatRows.{rows_of};
ghost use Rattle.mc_forward.specs.RouterTables.{HaveRows};
ghost use Rattle.mc_forward.specs.RowValues.{row_value, HasValidEntry};

use crate::row::RowFor;
use crate::tables::Tables;
use mc_tables::{CacheTable, Entry, FlatOifs};
use mc_text::Memory;
use mc_topology::{Flow, Topology};
use std::alloc::Global;
use std::marker::Model;

/// A row without its outgoing vifs.
#[derive(Clone, Copy, Debug)]
pub(crate) enum RowHead {
    /// The incoming vif of an entry.
    Exact(u8),
    /// Only a row for every source.
    Open,
    /// No row.
    NoRow,
}

/// A router's rows for the flows, in their order. Its value in contracts is the list of the rows.
#[derive(Drop)]
pub(crate) struct RouterRows {
    rows: FlatOifs<RowHead>,
}

impl Model for RouterRows {
    ghost use Rattle.std.specs.Prelude.{List};
    ghost use Rattle.mc_theory.specs.Nets.{Row};

    ghost Value = { List Row };

    ghost use Rattle.mc_forward.specs.FlatRows.{rows_of};

    ghost view = { λ router. rows_of router.rows.lists };
}

impl RouterRows {
    /// The row of the flow with this number.
    pub(crate) fn row(&self, flow: u32) -> RowFor<'_>
        requires listed_flow { flow < length self.now }
        ensures item { slice_get self.now flow ≡ Some (row_value result) }
    {
        let (head, oifs) = self.rows.at(flow);
        match head {
            RowHead::Exact(iif) => RowFor::Exact(Entry { iif, oifs }),
            RowHead::Open => RowFor::Open,
            RowHead::NoRow => RowFor::NoRow,
        }
    }
}

/// Adds a row behind the others.
fn push_row(rows: &mut FlatOifs<RowHead>, row: &RowFor<'_>) -> Result<(), Memory>
    requires count { length rows.old.lists < 65536 }
    requires valid { HasValidEntry row.now }
    ensures added { OnOk result
        (rows_of rows.new.lists ≡ rows_of rows.old.lists ++ row_value row.now ∷ []) }
{
    match row {
        RowFor::Exact(entry) => rows.push(RowHead::Exact(entry.iif), entry.oifs)?,
        RowFor::Open => rows.push(RowHead::Open, &[])?,
        RowFor::NoRow => rows.push(RowHead::NoRow, &[])?,
    }
    Ok(())
}

/// A cache's row for a flow. The hint is the place at which another router's cache had it, and becomes
/// the place in this one.
fn row_of<'c>(cache: &'c CacheTable, flow: &Flow, hint: &mut usize) -> RowFor<'c>
    ensures row { row_value result ≡ row_in_cache cache.now flow.now }
    ensures valid { HasValidEntry result }
{
    match cache.number_with_hint(flow.source, flow.group, hint) {
        Some(number) => RowFor::Exact(cache.entry_at(number)),
        None => {
            if cache.has_wildcard(flow.group) {
                RowFor::Open
            } else {
                RowFor::NoRow
            }
        }
    }
}

/// A router's rows for the flows. The hints are the places at which other routers' caches had them.
pub(crate) fn flow_rows_of(
    alloc: Global,
    topology: &Topology,
    cache: &CacheTable,
    hints: &mut Vec<usize>,
) -> Result<RouterRows, Memory>
    requires hint_per_flow { length hints.old.items ≡ length topology.now.flows }
    ensures rows { IfOk result (λ rows. rows ≡ map (row_in_cache cache.now) topology.now.flows) }
    ensures valid { IfOk result (λ rows. AllByRecursion IsValidRow rows) }
    ensures hints { length hints.new.items ≡ length topology.now.flows }
{
    let mut rows = FlatOifs::with_capacity(alloc, topology.flows() as usize)?;
    for flow in 0..topology.flows() {
        let hint = &mut hints[flow as usize];
        let row = row_of(cache, topology.flow(flow), hint);
        push_row(&mut rows, &row)?;
    }
    Ok(RouterRows { rows })
}

/// Each router's rows for the flows.
pub(crate) fn rows_of_routers(
    alloc: Global,
    topology: &Topology,
    tables: &[Tables],
) -> Result<Vec<RouterRows>, Memory>
    ensures rows { IfOk result (λ rows. rows.items ≡ rows_by_tables topology.now.flows tables.now) }
    ensures each { IfOk result (λ rows.
        AllByRecursion (HaveRows (length topology.now.flows)) rows.items) }
{
    let mut hints = vec![in alloc; 0; topology.flows() as usize]?;
    let mut rows = Vec::with_capacity(alloc, tables.len())?;
    for own in tables {
        rows.push(flow_rows_of(alloc, topology, &own.cache, &mut hints)?)?;
    }
    Ok(rows)
}
