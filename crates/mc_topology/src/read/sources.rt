//! Reads the sources.

ghost use Rattle.std.specs.Prelude.{◌≡◌, ◌≢◌, ◌≤◌, length, false, Err, IfOk};
ghost use Rattle.toml.specs.View.{view, table_view};
ghost use Rattle.mc_topology.specs.declared.fault.Section.TheVariants as section;
ghost use Rattle.mc_topology.specs.Answer.{out_of_memory};
ghost use Rattle.mc_topology.specs.Sources.{has_source, source_of_values, source_of, sources_in};

use crate::fault::{Section, TopologyFault, TopologyFaultKind, locate_fault};
use crate::lans::{Lans, MAX_LANS};
use crate::read::address::source_address_of;
use crate::read::document::{known_table, rows_at, text_at};
use crate::read::rows::{SectionRows, each_row};
use crate::source::Source;
use crate::sources::{MAX_SOURCES, Sources};
use std::alloc::Global;
use toml::{Table, Value};

/// The source of these values, whose address no earlier source has.
#[tactic(auto, unfolding(crate::specs::Sources::source_of_values))]
fn source_of_values(
    lans: &Lans,
    earlier: &Sources,
    text: &str,
    lan_name: &str,
) -> Result<Source, TopologyFaultKind>
    requires bounded { length lans.now ≤ MAX_LANS }
    ensures source { result ≡ source_of_values lans.now earlier.now text.now lan_name.now }
    ensures new { IfOk result (λ source. has_source source.address earlier.now ≡ false) }
{
    let address = source_address_of(text)?;
    let Some(lan) = lans.number_of(lan_name) else {
        return Err(TopologyFaultKind::UnknownName);
    };
    if earlier.has(address) {
        return Err(TopologyFaultKind::RepeatedName);
    }
    Ok(Source { address, lan })
}

/// Reads a source, whose address no earlier source has.
#[tactic(auto, unfolding(crate::specs::Sources::source_of))]
fn source_of(lans: &Lans, earlier: &Sources, value: &Value) -> Result<Source, TopologyFaultKind>
    requires bounded { length lans.now ≤ MAX_LANS }
    ensures source { result ≡ source_of lans.now earlier.now (view value.now) }
    ensures new { IfOk result (λ source. has_source source.address earlier.now ≡ false) }
{
    let table = known_table(value, &["address", "lan"])?;
    let text = text_at(table, "address")?;
    let lan_name = text_at(table, "lan")?;
    source_of_values(lans, earlier, text, lan_name)
}

impl SectionRows<Lans> for Sources {
    ghost use Rattle.mc_topology.specs.declared.lans.TheConstants.{MAX_LANS};
    ghost use Rattle.mc_topology.specs.SectionRows.{SourceRow};

    ghost Row = { SourceRow };

    ghost rows = { λ sources. sources };

    ghost section = { section.Source };

    ghost few = { λ lans. length lans ≤ MAX_LANS };

    ghost row_value = { source_of };

    fn read_row(
        &mut self,
        _alloc: Global,
        lans: &Lans,
        number: u32,
        row: &Value,
    ) -> Result<(), TopologyFault> {
        let source = locate_fault(Section::Source, number, source_of(lans, self, row))?;
        self.push(source)
    }
}

/// Reads the sources, in order.
#[tactic(auto, unfolding(crate::specs::Sources::sources_in))]
pub(crate) fn sources_in(
    alloc: Global,
    lans: &Lans,
    table: &Table,
) -> Result<Sources, TopologyFault>
    requires bounded { length lans.now ≤ MAX_LANS }
    ensures outcome { result ≢ Err out_of_memory → result ≡ sources_in lans.now (table_view table.now) }
{
    let rows = locate_fault(Section::Source, 0, rows_at(table, "source", MAX_SOURCES))?;
    each_row(alloc, lans, Sources::new(alloc), rows)
}
