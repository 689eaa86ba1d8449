//! A file of a folder that is judged by itself, and why it is refused.

ghost use Rattle.std.specs.Prelude.{◌≡◌, ◌≢◌, ◌<◌, ◌∷◌, ◌++◌, List, [], IfOk, OnOk, Some, Result};
ghost use Rattle.std.specs.Prelude.{length, map};
ghost use Rattle.mc_bundle.specs.Bundle.{PartText};
ghost use Rattle.mc_files.specs.Files.{FileText};
ghost use Rattle.mc_files.specs.Layout.{Slot as SlotText, file_name, numbered_slot};
ghost use Rattle.mc_input.specs.RefusedFiles.{IsOwnFaultUnlessMemory, ListsRefused, as_judged_file};
ghost use Rattle.mc_input.specs.RefusedFiles.{failure_count, fault_of_refusal, file_fault};
ghost use Rattle.mc_input.specs.RefusedFiles.{files_with_fault, judged_file, saturating_failures};
ghost use Rattle.mc_input.specs.Stream.{IsReaderOf};
ghost use Rattle.mc_input.specs.declared.fault.InputFault.{InputFault as Fault};
ghost use Rattle.mc_input.specs.declared.source_fault.SourceFault.TheVariants.{Input};

use crate::fault::InputFault;
use crate::file_slots::FileSlots;
use crate::part_reader::PartReader;
use crate::source_fault::SourceFault;
use crate::walk::read_slot;
use mc_files::{NumberedSlot, PieceSource, Slot, Unread};
use mc_text::Memory;
use std::alloc::Global;

/// Why a file is refused.
#[derive(Clone, Copy, Debug, Drop)]
pub enum Refusal {
    /// It can't be read.
    Unread(Unread),
    /// Its text is refused, or it is too large.
    Fault(InputFault),
}

/// A file that is refused.
#[derive(Debug, Drop)]
pub struct RefusedFile {
    /// Its name in the folder.
    pub name: String,
    /// Why it is refused.
    pub refusal: Refusal,
}

/// The fault of the file of a slot, as this reader reads it, if it has one.
fn slot_fault<F: PieceSource, R: PartReader + Drop>(
    alloc: Global,
    files: &mut F,
    buffer: &mut [u8],
    slot: &NumberedSlot<'_>,
    reader: R,
) -> Option<SourceFault>
    requires room { 0 < length buffer.old }
    requires start { R.size reader ≡ 0 }
    ensures same { F.borrows files.new ≡ F.borrows files.old }
    ensures kept { F.contents files.new ≡ F.contents files.old }
    ensures fault { (read : PartText → Result R.Out Fault) (own : SlotText) (contents : List FileText) →
        IsReaderOf (R.part_result reader) read → numbered_slot slot.now ≡ Some own →
        F.contents files.old ≡ Some contents →
        IsOwnFaultUnlessMemory result (file_fault contents own read) }
    ensures failures { F.failed files.new
        ≡ saturating_failures (failure_count result) (F.failed files.old) }
{
    if files.failures() == u64::MAX {
        return Some(SourceFault::Read);
    }
    let mut slots = FileSlots {
        files,
        without: &[],
    };
    let fault = read_slot(alloc, &mut slots, buffer, slot, reader).err();
    let _files = slots.into_files();
    fault
}

/// Why the file that was just read is refused.
fn refusal_of<F: PieceSource>(files: &F, fault: SourceFault) -> Result<Refusal, Memory>
    ensures { IfOk result (λ refusal. (fault_of_refusal refusal ≡ fault)
        × (fault ≢ Input InputFault.Memory)) }
{
    match fault {
        SourceFault::Input(InputFault::Memory) => Err(Memory),
        SourceFault::Input(fault) => Ok(Refusal::Fault(fault)),
        SourceFault::Read => Ok(Refusal::Unread(files.unread().unwrap_or(Unread::Failed))),
    }
}

/// Appends the file of a slot to the refused ones, if it has a fault.
pub(crate) fn push_if_fault<F: PieceSource>(
    alloc: Global,
    files: &F,
    slot: &Slot<'_>,
    fault: Option<SourceFault>,
    refused: &mut Vec<RefusedFile>,
) -> Result<(), Memory>
    ensures listed { OnOk result (map as_judged_file refused.new.items ≡ map as_judged_file refused.old.items
        ++ files_with_fault (record { name = file_name slot.now; fault = fault } ∷ [])) }
    ensures not_out_of_memory { OnOk result (fault ≢ Some (Input InputFault.Memory)) }
{
    let Some(fault) = fault else {
        return Ok(());
    };
    let refusal = refusal_of(files, fault)?;
    let name = slot.file_name(alloc)?;
    refused.push(RefusedFile { name, refusal })?;
    Ok(())
}

/// Checks the file of a slot.
pub(crate) fn judge_slot<F: PieceSource, R: PartReader + Drop>(
    alloc: Global,
    files: &mut F,
    buffer: &mut [u8],
    slot: &NumberedSlot<'_>,
    reader: R,
    refused: &mut Vec<RefusedFile>,
) -> Result<(), Memory>
    requires room { 0 < length buffer.old }
    requires start { R.size reader ≡ 0 }
    ensures same { F.borrows files.new ≡ F.borrows files.old }
    ensures kept { F.contents files.new ≡ F.contents files.old }
    ensures judged { (read : PartText → Result R.Out Fault) (own : SlotText) →
        IsReaderOf (R.part_result reader) read → numbered_slot slot.now ≡ Some own →
        OnOk result (ListsRefused (F.contents files.old) (λ contents.
        judged_file contents own read ∷ []) refused.old.items refused.new.items
        (F.failed files.old) (F.failed files.new)) }
{
    let fault = slot_fault(alloc, files, buffer, slot, reader);
    push_if_fault(alloc, files, slot.slot(), fault, refused)
}
