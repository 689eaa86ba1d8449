//! The files of a folder as the parts of a domain's slots. Each is judged as its turn comes.

ghost use Rattle.std.specs.Prelude.{◌≡◌, ◌<◌, ◌≤◌, List, Some, IfErr, IfSome, length, true};
ghost use Rattle.mc_bundle.specs.Device.{failures_after};
ghost use Rattle.mc_files.specs.Files.{FileText};
ghost use Rattle.mc_files.specs.Layout.{SlotNumber, numbered_slot};
ghost use Rattle.mc_input.specs.ExcludedRouters.{files_without};
ghost use Rattle.mc_input.specs.Feeding.{SeesHeaderOrFile};
ghost use Rattle.mc_input.specs.SourceFault.{GivesFromContents, is_possible_for_files, is_read};
ghost use Rattle.mc_input.specs.FilesReading.{topology_of_files};

use crate::excluded::header_of_excluded;
use crate::fault::InputFault;
use crate::fed_file::feed_header_or_file;
use crate::part_result::topology_of;
use crate::slots::Slots;
use crate::source_fault::SourceFault;
use mc_bundle::PartName;
use mc_files::{FileSource, NumberedSlot, PieceSource, Slot, part_of_file};
use mc_text::PieceReader;
use mc_topology::Topology;
use std::alloc::Global;

/// The files of a folder, of which those of routers with these names are excluded.
pub(crate) struct FileSlots<'a, F: PieceSource> {
    /// The files.
    pub(crate) files: F,
    /// The names of the excluded routers.
    pub(crate) without: &'a [&'a str],
}

impl<'a, F: PieceSource> FileSlots<'a, F> {
    /// Gives the files back.
    pub(crate) fn into_files(self) -> F
        ensures contents { F.contents result ≡ F.contents self.entry.files }
        ensures failures { F.failed result ≡ F.failed self.entry.files }
        ensures same { F.borrows result ≡ F.borrows self.entry.files }
    {
        let FileSlots {
            files,
            without: _without,
        } = self;
        files
    }
}

/// The header that is read in place of a slot's file, if its router is excluded.
fn header_of_slot(slot: &Slot<'_>, without: &[&str]) -> Option<&'static [u8]>
    ensures header { (files : List FileText) (place : SlotNumber) → numbered_slot place ≡ Some slot.now →
        SeesHeaderOrFile files (files_without without.now files) slot.now result }
    ensures small { IfSome result (λ header. length header.now ≤ 100) }
{
    match slot.router_table() {
        Some((router, vifs)) => header_of_excluded(without, router, vifs),
        None => None,
    }
}

impl<'a, F: PieceSource> Slots for FileSlots<'a, F> {
    ghost use Rattle.std.specs.Prelude.{option_map, refl};
    ghost use Rattle.std.proofs.Common.{◌∙◌};
    ghost use Rattle.mc_input.specs.ExcludedRouters.{files_without};
    ghost use Rattle.mc_input.specs.SourceFault.{is_possible_for_files};
    ghost use Rattle.mc_input.specs.Stream.{files_give};

    ghost gives = { λ s t n.
        option_map (λ files. files_give t n (files_without s.without.now files)) (F.contents s.files) };

    ghost failed = { λ s. F.failed s.files };

    ghost advances = { λ a b. (F.borrows b.files ≡ F.borrows a.files)
        × (F.contents b.files ≡ F.contents a.files) × (b.without ≡ a.without) };

    ghost is_possible = { is_possible_for_files };

    ghost advances_twice = { λ a b c first second.
        (second.0 ∙ first.0, second.1 ∙ first.1, second.2 ∙ first.2) };

    ghost stays = { λ a. (refl, refl, refl) };

    ghost possible = { λ _ possible. possible };

    fn feed<P: PieceReader>(
        &mut self,
        alloc: Global,
        slot: &NumberedSlot<'_>,
        buffer: &mut [u8],
        reader: &mut P,
    ) -> Result<PartName, SourceFault> {
        let slot = slot.slot();
        let header = header_of_slot(slot, self.without);
        let name = slot.part_name(alloc)?;
        feed_header_or_file(alloc, &mut self.files, slot, header, buffer, reader)?;
        Ok(name)
    }

    fn refuse(&mut self, _slot: &NumberedSlot<'_>, fault: InputFault) -> SourceFault {
        SourceFault::Input(fault)
    }
}

/// Reads the topology from the file `topology`.
pub(crate) fn topology_in<F: FileSource>(
    alloc: Global,
    files: &mut F,
) -> Result<Topology, SourceFault>
    requires reads { F.failed files.old < u64.MAX }
    ensures same { F.borrows files.new ≡ F.borrows files.old }
    ensures kept { F.contents files.new ≡ F.contents files.old }
    ensures topology { GivesFromContents (F.contents files.old) (λ topology. topology) result
        topology_of_files }
    ensures faults { IfErr result (λ fault. is_possible_for_files fault ≡ true) }
    ensures failures { F.failed files.new ≡ failures_after is_read result (F.failed files.old) }
{
    let part = part_of_file(alloc, files, &Slot::topology())?;
    Ok(topology_of(alloc, &part.as_part())?)
}
