//! Prints the fault of a file's contents, with its place in the file.

ghost use Rattle.std.specs.Prelude.{◌≡◌, Some};
ghost use Rattle.mc_commands.specs.FaultText.{fault_text, line_of_fault, line_or_none, list_fault_text};
ghost use Rattle.mc_commands.specs.FaultText.{table_fault_text, topology_fault_text};

use crate::refusals::fault_words::{list_word, table_word, topology_word};
use mc_bundle::MAX_PART;
use mc_igmp::ListFault;
use mc_input::InputFault;
use mc_tables::TableFault;
use mc_topology::TopologyFault;
use std::fmt;

/// A table's first fault, as `line 3: BadIif`.
#[derive(Clone, Copy, Drop)]
struct ShownTableFault {
    fault: TableFault,
}

impl fmt::Display for ShownTableFault {
    ghost output = { λ shown. Some (table_fault_text shown.fault) };

    fn fmt<W: fmt::Write>(&self, f: &mut fmt::Formatter<W>) -> fmt::Result {
        let line = self.fault.line;
        let word = table_word(self.fault.kind);
        write!(f, "line {line}: {word}")
    }
}

/// A report list's first fault, as `line 3 record 1: StateChange`.
#[derive(Clone, Copy, Drop)]
struct ShownListFault {
    fault: ListFault,
}

impl fmt::Display for ShownListFault {
    ghost output = { λ shown. Some (list_fault_text shown.fault) };

    fn fmt<W: fmt::Write>(&self, f: &mut fmt::Formatter<W>) -> fmt::Result {
        let line = self.fault.line;
        let record = self.fault.record_no;
        let word = list_word(self.fault.kind);
        write!(f, "line {line} record {record}: {word}")
    }
}

/// A topology's first fault, as `router 2: BadName`.
#[derive(Clone, Copy, Drop)]
struct ShownTopologyFault {
    fault: TopologyFault,
}

impl fmt::Display for ShownTopologyFault {
    ghost output = { λ shown. Some (topology_fault_text shown.fault) };

    fn fmt<W: fmt::Write>(&self, f: &mut fmt::Formatter<W>) -> fmt::Result {
        let section = self.fault.section;
        let number = self.fault.number;
        let word = topology_word(self.fault.kind);
        write!(f, "{section} {number}: {word}")
    }
}

/// A file's first fault, with its place in the file.
#[derive(Clone, Copy, Drop)]
pub(crate) struct ShownFault<'f> {
    /// The fault.
    pub(crate) fault: &'f InputFault,
}

impl<'f> fmt::Display for ShownFault<'f> {
    ghost output = { λ shown. Some (fault_text shown.fault.now) };

    fn fmt<W: fmt::Write>(&self, f: &mut fmt::Formatter<W>) -> fmt::Result {
        match self.fault {
            InputFault::Topology(fault) => ShownTopologyFault { fault: *fault }.fmt(f),
            InputFault::Vif(_, fault) | InputFault::Cache(_, fault) => {
                ShownTableFault { fault: *fault }.fmt(f)
            }
            InputFault::Reports(_, fault) => ShownListFault { fault: *fault }.fmt(f),
            // Of the other faults, a file alone has only that it is larger than a part of a bundle may be.
            InputFault::Bundle(_) | InputFault::Parts(_) | InputFault::Memory => {
                write!(f, "larger than {MAX_PART} bytes")
            }
        }
    }
}

/// The line with this number, counted from 1; 0 means none.
fn line_or_none(line: u32) -> Option<u32>
    ensures { result ≡ line_or_none line }
{
    if line == 0 { None } else { Some(line) }
}

/// The line of a fault in its file, counted from 1, if the fault is in a line.
pub(crate) fn line_of_fault(fault: &InputFault) -> Option<u32>
    ensures { result ≡ line_of_fault fault.now }
{
    match fault {
        InputFault::Vif(_, fault) | InputFault::Cache(_, fault) => line_or_none(fault.line),
        InputFault::Reports(_, fault) => line_or_none(fault.line),
        InputFault::Topology(_)
        | InputFault::Bundle(_)
        | InputFault::Parts(_)
        | InputFault::Memory => None,
    }
}
