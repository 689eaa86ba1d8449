//! Turns the result of a text's reader into that of its part: a fault gets the part's name.

ghost use Rattle.std.specs.Prelude.{◌≡◌, ◌↔◌, IfErr, IfOk, IsTrue, Err, true};
ghost use Rattle.mc_igmp.specs.ReadingList.{oom_fault};
ghost use Rattle.mc_tables.specs.Steps.{out_of_memory};
ghost use Rattle.mc_bundle.specs.BundleView.{part_text};
ghost use Rattle.mc_text.specs.Steps.{map_fault};
ghost use Rattle.mc_input.specs.InputReading.{Gives};
ghost use Rattle.mc_input.specs.Kept.{AreFlowPairs};
ghost use Rattle.mc_input.specs.PartsOneByOne.{IsPartResult};
ghost use Rattle.mc_input.specs.PartsReading.{topology_of};
ghost use Rattle.mc_input.specs.SourceFault.{is_possible_for_files};
ghost use Rattle.mc_input.specs.declared.fault.InputFault.TheVariants.{Cache as RefusedCache};
ghost use Rattle.mc_input.specs.declared.fault.InputFault.TheVariants.{Reports as RefusedReports};
ghost use Rattle.mc_input.specs.declared.fault.InputFault.TheVariants.{Vif as RefusedVif};
ghost use Rattle.mc_input.specs.declared.source_fault.SourceFault.TheVariants.{Input};

use crate::fault::InputFault;
use mc_bundle::{Part, PartName};
use mc_forward::source_group_pairs;
use mc_igmp::{ListFault, ListFaultKind, ReportList};
use mc_tables::{ListedPairs, SummaryPairs, TableFault, TableFaultKind, VifTable};
use mc_topology::{Topology, TopologyFault, TopologyFaultKind};
use std::alloc::Global;

/// Parses the topology.
pub(crate) fn topology_of(alloc: Global, part: &Part<'_>) -> Result<Topology, InputFault>
    ensures { Gives (λ topology. topology) result (topology_of (part_text part.now)) }
{
    match Topology::read(alloc, part.bytes) {
        Ok(topology) => Ok(topology),
        Err(
            TopologyFault {
                kind: TopologyFaultKind::Memory,
                ..
            },
        ) => Err(InputFault::Memory),
        Err(fault) => Err(InputFault::Topology(fault)),
    }
}

/// Whether memory ran out, and the table may have no fault.
fn is_memory(fault: TableFault) -> bool
    ensures { IsTrue result ↔ (fault.kind ≡ TableFaultKind.Memory) }
{
    fault.kind == TableFaultKind::Memory
}

/// The vifs that the reader of the part with this name found, or its fault.
pub(crate) fn vifs_or_fault(
    name: PartName,
    found: Result<VifTable, TableFault>,
) -> Result<VifTable, InputFault>
    ensures vifs { IsPartResult (λ kept vifs. kept ≡ vifs) result (map_fault (RefusedVif name) found) }
    ensures memory { found ≡ Err out_of_memory → result ≡ Err InputFault.Memory }
    ensures faults { IfErr result (λ fault. is_possible_for_files (Input fault) ≡ true) }
{
    match found {
        Ok(vifs) => Ok(vifs),
        Err(fault) if is_memory(fault) => Err(InputFault::Memory),
        Err(fault) => Err(InputFault::Vif(name, fault)),
    }
}

/// The sources and groups of the flows, as readers of caches take them.
pub(crate) fn listed_pairs(alloc: Global, topology: &Topology) -> Result<ListedPairs, InputFault>
    ensures listed { IfOk result (AreFlowPairs topology.now.flows) }
    ensures memory { IfErr result (λ fault. fault ≡ InputFault.Memory) }
{
    Ok(ListedPairs::of(alloc, &source_group_pairs(alloc, topology)?)?)
}

/// The same for readers that also make a summary.
pub(crate) fn summary_pairs(alloc: Global, topology: &Topology) -> Result<SummaryPairs, InputFault>
    ensures listed { IfOk result (AreFlowPairs topology.now.flows) }
    ensures memory { IfErr result (λ fault. fault ≡ InputFault.Memory) }
{
    Ok(SummaryPairs::of(alloc, &source_group_pairs(alloc, topology)?)?)
}

/// The forwarding cache, with a summary or without, that the reader of the part with this name found,
/// or its fault.
pub(crate) fn cache_or_fault<T: Drop>(
    name: PartName,
    found: Result<T, TableFault>,
) -> Result<T, InputFault>
    ensures cache { IsPartResult (λ kept cache. kept ≡ cache) result (map_fault (RefusedCache name) found) }
    ensures memory { found ≡ Err out_of_memory → result ≡ Err InputFault.Memory }
    ensures faults { IfErr result (λ fault. is_possible_for_files (Input fault) ≡ true) }
{
    match found {
        Ok(cache) => Ok(cache),
        Err(fault) if is_memory(fault) => Err(InputFault::Memory),
        Err(fault) => Err(InputFault::Cache(name, fault)),
    }
}

/// The report list that the reader of the part with this name found, or its fault.
pub(crate) fn reports_or_fault(
    name: PartName,
    found: Result<ReportList, ListFault>,
) -> Result<ReportList, InputFault>
    ensures reports { IsPartResult (λ kept records. kept ≡ records) result
        (map_fault (RefusedReports name) found) }
    ensures memory { found ≡ Err oom_fault → result ≡ Err InputFault.Memory }
    ensures faults { IfErr result (λ fault. is_possible_for_files (Input fault) ≡ true) }
{
    match found {
        Ok(reports) => Ok(reports),
        Err(
            ListFault {
                kind: ListFaultKind::Memory,
                ..
            },
        ) => Err(InputFault::Memory),
        Err(fault) => Err(InputFault::Reports(name, fault)),
    }
}
