//! The parts of the bundle that is packed of files.

ghost use Rattle.std.specs.Prelude.{◌≡◌, ◌≢◌, ◌<◌, [], ◌∷◌, IfErr, IfOk};
ghost use Rattle.mc_bundle.specs.Device.{failures_after};
ghost use Rattle.mc_bundle.specs.BundleView.{part_texts};
ghost use Rattle.mc_text.specs.Steps.{Gives};
ghost use Rattle.mc_files.specs.Files.{GivesFromContents};
ghost use Rattle.mc_files.specs.Layout.{slots_after_topology};
ghost use Rattle.mc_files.specs.PackReading.{parts_after as parts_read_after};
ghost use Rattle.mc_files.specs.PackReading.{parts_before_limits, read_topology};
ghost use Rattle.mc_files.specs.PackRun.{IsIoOrMemory, is_read};

use crate::fault::PackFault;
use crate::file_part::{FilePart, part_of_file};
use crate::slot::Slot;
use crate::slot_order::{slot_at, slot_count};
use crate::source::FileSource;
use mc_bundle::Part;
use mc_topology::{Topology, TopologyFault, TopologyFaultKind};
use std::alloc::{AllocError, Global};

/// Reads the files of the other slots, and puts their parts behind the first one.
fn parts_after<F: FileSource>(
    alloc: Global,
    files: &mut F,
    first: FilePart,
    topology: &Topology,
    certified: bool,
) -> Result<Vec<FilePart>, PackFault>
    requires failures { F.failed files.old < u64.MAX }
    ensures same { F.borrows files.new ≡ F.borrows files.old }
    ensures kept { F.contents files.new ≡ F.contents files.old }
    ensures parts { GivesFromContents IsIoOrMemory (F.contents files.old) (λ parts. parts.items) result
        (λ contents. parts_read_after contents (first ∷ []) (slots_after_topology certified topology.now)) }
    ensures no_write { IfErr result (λ fault. fault ≢ PackFault.Write) }
    ensures failures { F.failed files.new ≡ failures_after is_read result (F.failed files.old) }
{
    let mut parts = vec![in alloc; first]?;
    for number in 1..slot_count(topology, certified) {
        let Some(slot) = slot_at(topology, certified, number) else {
            unreachable!()
        };
        parts.push(part_of_file(alloc, files, &slot)?)?;
    }
    Ok(parts)
}

/// Parses the topology.
fn topology_from_text(alloc: Global, text: &[u8]) -> Result<Topology, PackFault>
    ensures topology { Gives IsIoOrMemory (λ topology. topology) result (read_topology text.now) }
    ensures no_device { IfErr result (λ fault. (fault ≢ PackFault.Write)
        × (fault ≢ PackFault.Read)) }
{
    match Topology::read(alloc, text) {
        Ok(topology) => Ok(topology),
        Err(
            TopologyFault {
                kind: TopologyFaultKind::Memory,
                ..
            },
        ) => Err(PackFault::Memory),
        Err(fault) => Err(PackFault::Topology(fault)),
    }
}

/// Reads the files as the parts of a bundle.
#[tactic(auto, unfolding(crate::specs::PackReading::parts_before_limits))]
pub(crate) fn read_parts<F: FileSource>(
    alloc: Global,
    files: &mut F,
    certified: bool,
) -> Result<Vec<FilePart>, PackFault>
    requires failures { F.failed files.old < u64.MAX }
    ensures same { F.borrows files.new ≡ F.borrows files.old }
    ensures kept { F.contents files.new ≡ F.contents files.old }
    ensures parts { GivesFromContents IsIoOrMemory (F.contents files.old) (λ parts. parts.items) result
        (parts_before_limits certified) }
    ensures no_write { IfErr result (λ fault. fault ≢ PackFault.Write) }
    ensures failures { F.failed files.new ≡ failures_after is_read result (F.failed files.old) }
{
    let first = part_of_file(alloc, files, &Slot::topology())?;
    let topology = topology_from_text(alloc, first.as_part().bytes)?;
    parts_after(alloc, files, first, &topology, certified)
}

/// The parts, which borrow their bytes.
pub(crate) fn borrow_parts(alloc: Global, parts: &[FilePart]) -> Result<Vec<Part<'_>>, AllocError>
    ensures { IfOk result (λ all. part_texts all.items ≡ parts.now) }
{
    Ok(parts.iter().map(|part| part.as_part()).collect(alloc)?)
}
