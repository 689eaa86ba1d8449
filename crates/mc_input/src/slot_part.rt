//! Checks the names of a bundle's parts against the slots, and reads a bundle to its end after a fault.

ghost use Rattle.std.specs.Prelude.{◌≡◌, ◌<◌, ◌≤◌, ℕ, List, [], Some, Ok, OnOk, IfErr, drop, length};
ghost use Rattle.std.specs.Prelude.{slice_get};
ghost use Rattle.mc_bundle.specs.Device.{failures_after};
ghost use Rattle.mc_bundle.specs.PartsReading.{IsOpened, parts_from_current};
ghost use Rattle.mc_bundle.specs.RestOfBundle.{Advances, rest_of_bundle};
ghost use Rattle.mc_text.specs.Steps.{map_fault};
ghost use Rattle.mc_files.specs.Layout.{part_name, slots};
ghost use Rattle.mc_input.specs.InputReading.{named};
ghost use Rattle.mc_input.specs.PartsOneByOne.{HasNameOfSlot, IsFaultOf};
ghost use Rattle.mc_input.specs.PartsOneByOne.{check_names_from, read_rest};
ghost use Rattle.mc_input.specs.SourceFault.{Gives, is_read};
ghost use Rattle.mc_input.specs.declared.source_fault.SourceFault.TheVariants.{Input as refused};

use crate::fault::InputFault;
use crate::source_fault::SourceFault;
use mc_bundle::{Input, Parts};
use mc_files::{Slot, slot_at, slot_count};
use mc_topology::Topology;

/// Reads to the end of the bundle, and checks only its framing.
pub(crate) fn drain<R: Input>(parts: &mut Parts<R>) -> Result<(), SourceFault>
    requires failures { parts.old.failed < u64.MAX }
    ensures framing { (text : List ℕ) → parts.old.remaining ≡ Some text →
        Gives (λ done. done) result (map_fault refused (read_rest parts.old text (λ _. Ok tt))) }
    ensures advances { Advances parts.old parts.new }
    ensures failures { parts.new.failed ≡ failures_after is_read result parts.old.failed }
{
    'parts: while parts.next()? {}
    Ok(())
}

/// Opens the next part, which has to have the name of the slot. `number` is the slot's, for the fault.
pub(crate) fn open_named<R: Input>(
    parts: &mut Parts<R>,
    slot: &Slot<'_>,
    number: u32,
) -> Result<(), SourceFault>
    requires below_max { number < u32.MAX }
    requires failures { parts.old.failed < u64.MAX }
    ensures opened { OnOk result (IsOpened parts.new (part_name slot.now)) }
    ensures part { (text : List ℕ) → parts.old.remaining ≡ Some text → OnOk result
        ((later : List ℕ) × (parts.new.remaining ≡ Some later)
        × (rest_of_bundle parts.old text ≡ parts_from_current parts.new [] later)) }
    ensures fault { IfErr result (IsFaultOf parts.old
        (λ others. named (slice_get others 0) (part_name slot.now) number)) }
    ensures advances { Advances parts.old parts.new }
    ensures failures { parts.new.failed ≡ failures_after is_read result parts.old.failed }
{
    if !parts.next()? {
        return Err(SourceFault::Input(InputFault::Parts(number + 1)));
    }
    if !slot.is_named(parts.name().as_bytes()) {
        drain(parts)?;
        return Err(SourceFault::Input(InputFault::Parts(number + 1)));
    }
    Ok(())
}

/// Opens the next part, which has to be that of the slot with a number, counted from 0.
pub(crate) fn open_slot<R: Input>(
    parts: &mut Parts<R>,
    topology: &Topology,
    certified: bool,
    number: u32,
) -> Result<(), SourceFault>
    requires within { number < length (slots certified topology.now) }
    requires below_max { number < u32.MAX }
    requires failures { parts.old.failed < u64.MAX }
    ensures opened { OnOk result
        ((name : List ℕ) × IsOpened parts.new name × HasNameOfSlot certified topology.now number name) }
    ensures part { (text : List ℕ) → parts.old.remaining ≡ Some text → OnOk result
        ((later : List ℕ) × (parts.new.remaining ≡ Some later)
        × (rest_of_bundle parts.old text ≡ parts_from_current parts.new [] later)) }
    ensures fault { IfErr result (IsFaultOf parts.old
        (check_names_from number (drop number (slots certified topology.now)))) }
    ensures advances { Advances parts.old parts.new }
    ensures failures { parts.new.failed ≡ failures_after is_read result parts.old.failed }
{
    let Some(slot) = slot_at(topology, certified, number) else {
        unreachable!()
    };
    open_named(parts, &slot, number)
}

/// Reads to the end of the bundle, whose further parts have to have the names of the slots from a
/// number on.
pub(crate) fn check_names_to_end<R: Input>(
    parts: &mut Parts<R>,
    topology: &Topology,
    certified: bool,
    number: u32,
) -> Result<(), SourceFault>
    requires within { number ≤ length (slots certified topology.now) }
    requires failures { parts.old.failed < u64.MAX }
    ensures names { (text : List ℕ) → parts.old.remaining ≡ Some text →
        Gives (λ done. done) result (map_fault refused (read_rest parts.old text
        (check_names_from number (drop number (slots certified topology.now))))) }
    ensures advances { Advances parts.old parts.new }
    ensures failures { parts.new.failed ≡ failures_after is_read result parts.old.failed }
{
    let count = slot_count(topology, certified);
    for next in number..count {
        open_slot(parts, topology, certified, next)?;
    }
    if parts.next()? {
        drain(parts)?;
        return Err(SourceFault::Input(InputFault::Parts(count + 1)));
    }
    Ok(())
}
