//! Reads the list of LANs.

ghost use Rattle.std.specs.Prelude.{◌≡◌, ◌≢◌, ◌≤◌, map, length, false, Err, IfOk};
ghost use Rattle.toml.specs.View.{view, table_view};
ghost use Rattle.mc_topology.specs.declared.fault.Section.TheVariants as section;
ghost use Rattle.mc_topology.specs.Answer.{ResultsAgree, out_of_memory};
ghost use Rattle.mc_topology.specs.Lans.{has_lan, lan_name_of, lan_rows, lans_in};

use crate::fault::{Section, TopologyFault, TopologyFaultKind, locate_fault};
use crate::lans::{Lans, MAX_LANS};
use crate::name::is_name;
use crate::read::document::{list_at, text_of};
use crate::read::rows::{SectionRows, each_row};
use std::alloc::Global;
use toml::{Table, Value};

/// Reads the name of a LAN, which no earlier LAN has.
#[tactic(auto, unfolding(crate::specs::Lans::lan_name_of))]
fn lan_name_of<'a>(earlier: &Lans, value: &'a Value) -> Result<&'a str, TopologyFaultKind>
    ensures name { ResultsAgree (λ name. name.now) result (lan_name_of earlier.now (view value.now)) }
    ensures new { IfOk result (λ name. has_lan name.now earlier.now ≡ false) }
{
    let name = text_of(value)?;
    if !is_name(name) {
        return Err(TopologyFaultKind::BadName);
    }
    if earlier.has(name) {
        return Err(TopologyFaultKind::RepeatedName);
    }
    Ok(name)
}

/// The list of LANs.
#[tactic(auto, unfolding(crate::specs::Lans::lan_rows))]
fn lan_rows(table: &Table) -> Result<&[Value], TopologyFaultKind>
    ensures rows { ResultsAgree (λ rows. map view rows.now) result (lan_rows (table_view table.now)) }
    ensures few { IfOk result (λ rows. length rows.now ≤ MAX_LANS) }
{
    let rows = list_at(table, "lans")?;
    if rows.len() > MAX_LANS {
        return Err(TopologyFaultKind::TooMany);
    }
    Ok(rows)
}

impl SectionRows<()> for Lans {
    ghost use Rattle.std.specs.Prelude.{List, ℕ};

    ghost Row = { List ℕ };

    ghost rows = { λ lans. lans };

    ghost section = { section.Lans };

    ghost row_value = { λ _. lan_name_of };

    fn read_row(
        &mut self,
        alloc: Global,
        _before: &(),
        number: u32,
        row: &Value,
    ) -> Result<(), TopologyFault> {
        let name = locate_fault(Section::Lans, number, lan_name_of(self, row))?;
        self.push(alloc, name)
    }
}

/// Reads the LANs, in order.
#[tactic(auto, unfolding(crate::specs::Lans::lans_in))]
pub(crate) fn lans_in(alloc: Global, table: &Table) -> Result<Lans, TopologyFault>
    ensures lans { result ≢ Err out_of_memory → result ≡ lans_in (table_view table.now) }
    ensures few { IfOk result (λ lans. length lans ≤ MAX_LANS) }
{
    let rows = locate_fault(Section::Lans, 0, lan_rows(table))?;
    each_row(alloc, &(), Lans::new(alloc), rows)
}
