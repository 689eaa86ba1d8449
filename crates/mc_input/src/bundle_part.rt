//! Reads the topology and the certificate of a bundle, whose parts have to have the names of their slots.

ghost use Rattle.std.specs.Prelude.{◌≡◌, ◌<◌, Ok, IfOk, IfErr, drop, length};
ghost use Rattle.mc_bundle.specs.Device.{failures_after};
ghost use Rattle.mc_bundle.specs.RestOfBundle.{Advances, ReadsPart};
ghost use Rattle.mc_files.specs.Layout.{part_name, slots, topology_slot};
ghost use Rattle.mc_input.specs.PartsOneByOne.{HasNameOfSlot, IsFaultOf, check_names_from};
ghost use Rattle.mc_input.specs.PartsOneByOne.{read_first_topology};
ghost use Rattle.mc_input.specs.PartsReading.{topology_of as topology_reading};
ghost use Rattle.mc_input.specs.SourceFault.{is_read};

use crate::fault::InputFault;
use crate::part_result::topology_of;
use crate::slot_part::{drain, open_named, open_slot};
use crate::source_fault::SourceFault;
use mc_bundle::{Input, Part, Parts, collect_part};
use mc_files::Slot;
use mc_topology::Topology;
use std::alloc::Global;

/// Reads the text of the certificate from the part of the slot with a number.
pub(crate) fn certificate_in<R: Input>(
    alloc: Global,
    parts: &mut Parts<R>,
    buffer: &mut [u8],
    topology: &Topology,
    certified: bool,
    number: u32,
) -> Result<Vec<u8>, SourceFault>
    requires within { number < length (slots certified topology.now) }
    requires below_max { number < u32.MAX }
    requires room { 0 < length buffer.old }
    requires failures { parts.old.failed < u64.MAX }
    ensures text { IfOk result (λ text. ReadsPart parts.old parts.new (λ part.
        HasNameOfSlot certified topology.now number part.name × (part.bytes ≡ text.items))) }
    ensures fault { IfErr result (IsFaultOf parts.old
        (check_names_from number (drop number (slots certified topology.now)))) }
    ensures advances { Advances parts.old parts.new }
    ensures failures { parts.new.failed ≡ failures_after is_read result parts.old.failed }
{
    open_slot(parts, topology, certified, number)?;
    Ok(collect_part(alloc, parts, buffer)?)
}

/// Reads the topology from the first part.
pub(crate) fn topology_in<R: Input>(
    alloc: Global,
    parts: &mut Parts<R>,
    buffer: &mut [u8],
) -> Result<Topology, SourceFault>
    requires room { 0 < length buffer.old }
    requires failures { parts.old.failed < u64.MAX }
    ensures topology { IfOk result (λ topology. ReadsPart parts.old parts.new (λ part.
        (part.name ≡ part_name topology_slot) × (topology_reading part ≡ Ok topology))) }
    ensures fault { IfErr result (IsFaultOf parts.old read_first_topology) }
    ensures advances { Advances parts.old parts.new }
    ensures failures { parts.new.failed ≡ failures_after is_read result parts.old.failed }
{
    open_named(parts, &Slot::topology(), 0)?;
    let bytes = collect_part(alloc, parts, buffer)?;
    let part = Part {
        name: parts.name(),
        bytes: &bytes,
    };
    match topology_of(alloc, &part) {
        Ok(topology) => Ok(topology),
        Err(InputFault::Memory) => Err(SourceFault::Input(InputFault::Memory)),
        Err(fault) => {
            drain(parts)?;
            Err(SourceFault::Input(fault))
        }
    }
}
