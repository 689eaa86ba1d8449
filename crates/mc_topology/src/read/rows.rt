//! Reads the rows of a section, one after the other.

ghost use Rattle.std.specs.Prelude.{◌≡◌, ◌≢◌, ◌≤◌, ⊤, List, [], ◌∷◌, ◌++◌, length, map};
ghost use Rattle.std.specs.Prelude.{Result, Ok, Err, IfOk, IfErr, OnOk};
ghost use Rattle.toml.specs.Data.{Data};
ghost use Rattle.toml.specs.View.{view};
ghost use Rattle.mc_topology.specs.declared.fault.Section.{Section};
ghost use Rattle.mc_topology.specs.declared.fault.TopologyFaultKind.{TopologyFaultKind};
ghost use Rattle.mc_topology.specs.Answer.{ResultsAgree, out_of_memory};
ghost use Rattle.mc_topology.specs.Faults.{locate_fault};
ghost use Rattle.mc_topology.specs.EachRow.{each_row};

use crate::fault::TopologyFault;
use std::alloc::Global;
use toml::Value;

/// A section that is read row by row. What a row denotes depends on the sections before it, `B`, and on
/// the earlier rows.
pub(crate) trait SectionRows<B>: Drop {
    // what a row denotes
    ghost Row: { Type 0 };

    // the rows read so far
    ghost rows: { Self → List Row };

    // the section
    ghost section: { Section };

    // the bounds of the sections before it
    ghost few: { B → Type 0 } = { λ _. ⊤ };

    // what a row denotes, by the sections before it and the earlier rows
    ghost row_value: { B → List Row → Data → Result Row TopologyFaultKind };

    /// Reads the row with this number, counted from 1, and adds it.
    fn read_row(
        &mut self,
        alloc: Global,
        before: &B,
        number: u32,
        row: &Value,
    ) -> Result<(), TopologyFault>
        requires bounded { few before.now }
        ensures added { OnOk result
            ((x : Row) × (row_value before.now (rows self.old) (view row.now) ≡ Ok x)
            × (rows self.new ≡ rows self.old ++ x ∷ [])) }
        ensures fault { IfErr result (λ fault. fault ≢ out_of_memory →
            locate_fault section number (row_value before.now (rows self.old) (view row.now)) ≡ Err fault) };
}

/// Reads these rows into a section that has none yet.
pub(crate) fn each_row<B, S: SectionRows<B>>(
    alloc: Global,
    before: &B,
    none: S,
    rows: &[Value],
) -> Result<S, TopologyFault>
    requires before { S.few before.now }
    requires none { S.rows none ≡ [] }
    requires count { length rows.now ≤ u32.MAX }
    ensures rows { result ≢ Err out_of_memory → ResultsAgree S.rows result
        (each_row S.section (S.row_value before.now) [] (map view rows.now)) }
    ensures count { IfOk result (λ section. length (S.rows section) ≡ length rows.now) }
{
    let mut section = none;
    for (index, row) in rows.iter().enumerate() {
        section.read_row(alloc, before, index as u32 + 1, row)?;
    }
    Ok(section)
}
