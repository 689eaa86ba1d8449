//! Reads a single file of a folder, whichever was read before.

ghost use Rattle.std.specs.Prelude.{◌≡◌, ◌<◌, List, IfErr, IfOk, Ok, Result, Some, length, true};
ghost use Rattle.mc_bundle.specs.Bundle.{PartText};
ghost use Rattle.mc_bundle.specs.Device.{failures_after};
ghost use Rattle.mc_files.specs.FilePart.{file_part};
ghost use Rattle.mc_files.specs.Files.{FileText};
ghost use Rattle.mc_files.specs.Layout.{Slot as SlotText, numbered_slot};
ghost use Rattle.mc_input.specs.ExcludedRouters.{files_without};
ghost use Rattle.mc_input.specs.SourceFault.{IsReadOrMemory, is_possible_for_files, is_read};
ghost use Rattle.mc_input.specs.Stream.{IsReaderOf};
ghost use Rattle.mc_input.specs.declared.fault.InputFault.{InputFault as Fault};

use crate::file_slots::FileSlots;
use crate::part_reader::PartReader;
use crate::source_fault::SourceFault;
use crate::walk::read_slot;
use mc_files::{NumberedSlot, PieceSource};
use std::alloc::Global;

/// What a reader reads of the file of a slot, where the routers of these names are excluded.
pub(crate) fn read_file_again<F: PieceSource, R: PartReader + Drop>(
    alloc: Global,
    files: &mut F,
    buffer: &mut [u8],
    without: &[&str],
    slot: &NumberedSlot<'_>,
    reader: R,
) -> Result<R::Out, SourceFault>
    requires room { 0 < length buffer.old }
    requires start { R.size reader ≡ 0 }
    requires failures { F.failed files.old < u64.MAX }
    ensures same { F.borrows files.new ≡ F.borrows files.old }
    ensures kept { F.contents files.new ≡ F.contents files.old }
    ensures value { (read : PartText → Result R.Out Fault) (own : SlotText) (contents : List FileText) →
        IsReaderOf (R.part_result reader) read → numbered_slot slot.now ≡ Some own →
        F.contents files.old ≡ Some contents → IfOk result (λ kept.
        (part : PartText) × (file_part (files_without without.now contents) own ≡ Ok part)
        × (read part ≡ Ok kept)) }
    // A file that can be read is refused for nothing in it.
    ensures fault { (read : PartText → Result R.Out Fault) (own : SlotText) (contents : List FileText)
        (part : PartText) (value : R.Out) →
        IsReaderOf (R.part_result reader) read → numbered_slot slot.now ≡ Some own →
        F.contents files.old ≡ Some contents → file_part (files_without without.now contents) own ≡ Ok part →
        read part ≡ Ok value → IfErr result IsReadOrMemory }
    ensures faults { IfErr result (λ fault. is_possible_for_files fault ≡ true) }
    ensures failures { F.failed files.new ≡ failures_after is_read result (F.failed files.old) }
{
    let mut slots = FileSlots { files, without };
    let read = read_slot(alloc, &mut slots, buffer, slot, reader);
    let _files = slots.into_files();
    read
}
