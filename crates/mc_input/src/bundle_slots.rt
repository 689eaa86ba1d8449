//! The parts of a bundle as those of a domain's slots. A fault of the bundle's framing comes first, then a
//! wrong name, and the faults of contents last.

ghost use Rattle.std.specs.Prelude.{◌≡◌, ◌<◌, Some, Ok, Err, IfErr, IfOk, is_some, length, option_map};
ghost use Rattle.mc_bundle.specs.Device.{failures_after};
ghost use Rattle.mc_bundle.specs.RestOfBundle.{Advances};
ghost use Rattle.mc_forward.specs.Assembling.{AreAnswers};
ghost use Rattle.mc_forward.specs.RouterTables.{AreTablesFor};
ghost use Rattle.mc_input.specs.Input.{InputValue};
ghost use Rattle.mc_input.specs.InputView.{certificate_text};
ghost use Rattle.mc_input.specs.Kept.{AreContentsOf};
ghost use Rattle.mc_input.specs.PartsOneByOne.{certificate_number};
ghost use Rattle.mc_input.specs.SourceFault.{IsReadOrMemory, is_read};
ghost use Rattle.mc_input.specs.Stream.{IsFaultOfStream, Stream, bundle_gives, certificate_parts};
ghost use Rattle.mc_input.specs.Stream.{read_after_topology, read_stream};

use crate::bundle_part::certificate_in;
use crate::fault::InputFault;
use crate::list_keeper::NoLists;
use crate::part_result::listed_pairs;
use crate::slot_part::{check_names_to_end, open_named};
use crate::slots::Slots;
use crate::source_fault::SourceFault;
use crate::walk::{Contents, read_contents};
use mc_bundle::{Input, PartName, Parts, feed_part};
use mc_files::{NumberedSlot, slot_count};
use mc_text::PieceReader;
use mc_topology::Topology;
use std::alloc::Global;

/// The parts of a bundle, with a certificate or without.
pub(crate) struct BundleSlots<R: Input> {
    /// The parts.
    pub(crate) parts: Parts<R>,
    /// Whether there has to be a certificate after the other parts.
    pub(crate) certified: bool,
}

impl<R: Input> BundleSlots<R> {
    /// Gives the input back, with the bytes that were not read yet.
    pub(crate) fn into_input(self) -> R
        ensures remaining { R.remaining result ≡ self.parts.remaining }
        ensures failures { R.failed result ≡ self.parts.failed }
        ensures same { R.borrows result ≡ self.parts.borrows }
    {
        let BundleSlots {
            parts,
            certified: _certified,
        } = self;
        parts.into_input()
    }
}

impl<R: Input> Slots for BundleSlots<R> {
    ghost use Rattle.std.specs.Prelude.{true, option_map, refl};
    ghost use Rattle.std.proofs.Common.{◌∙◌, rules};
    ghost use Rattle.mc_bundle.specs.RestOfBundle.{Advances};
    ghost use Rattle.mc_bundle.proofs.RestOfBundleLemmas.{advances_trans};
    ghost use Rattle.mc_input.specs.Stream.{bundle_gives};

    ghost gives = { λ s t n. option_map (bundle_gives s.parts s.certified t n) s.parts.remaining };

    ghost failed = { λ s. s.parts.failed };

    ghost advances = { λ a b. (b.certified ≡ a.certified) × Advances a.parts b.parts };

    ghost is_possible = { λ _. true };

    ghost advances_twice = { λ a b c first second.
        (second.0 ∙ first.0, advances_trans a.parts b.parts c.parts first.1 second.1) };

    ghost stays = { λ a. (refl, (refl, Prim.search rules)) };

    ghost possible = { λ _ _. refl };

    fn feed<P: PieceReader>(
        &mut self,
        _alloc: Global,
        slot: &NumberedSlot<'_>,
        buffer: &mut [u8],
        reader: &mut P,
    ) -> Result<PartName, SourceFault> {
        let own = slot.slot();
        open_named(&mut self.parts, own, slot.number())?;
        feed_part(&mut self.parts, buffer, reader)?;
        Ok(self.parts.name())
    }

    fn refuse(&mut self, slot: &NumberedSlot<'_>, fault: InputFault) -> SourceFault {
        let next = slot.number() + 1;
        match check_names_to_end(&mut self.parts, slot.topology(), self.certified, next) {
            Ok(()) => SourceFault::Input(fault),
            Err(before) => before,
        }
    }
}

/// What is kept of the parts after the topology.
#[derive(Drop)]
pub(crate) struct BundleContents {
    /// What is kept of the tables and the reports.
    pub(crate) kept: Contents,
    /// The text of the certificate, if one was asked for.
    pub(crate) certificate: Option<Vec<u8>>,
}

/// Reads the text of the certificate if `certified`. No part may come after it.
fn read_certificate_and_end<R: Input>(
    alloc: Global,
    parts: &mut Parts<R>,
    buffer: &mut [u8],
    topology: &Topology,
    certified: bool,
) -> Result<Option<Vec<u8>>, SourceFault>
    requires room { 0 < length buffer.old }
    requires failures { parts.old.failed < u64.MAX }
    ensures certificate { (stream : Stream) →
        option_map (bundle_gives parts.old certified topology.now (certificate_number topology.now))
        parts.old.remaining ≡ Some stream →
        IfOk result (λ text. stream ≡ Ok (certificate_parts (certificate_text text))) }
    ensures certified { IfOk result (λ text. is_some text ≡ certified) }
    ensures fault { (stream : Stream) →
        option_map (bundle_gives parts.old certified topology.now (certificate_number topology.now))
        parts.old.remaining ≡ Some stream →
        IfErr result (λ fault. ¬ IsReadOrMemory fault → stream ≡ Err fault) }
    ensures advances { Advances parts.old parts.new }
    ensures failures { parts.new.failed ≡ failures_after is_read result parts.old.failed }
{
    let number = slot_count(topology, false);
    if !certified {
        check_names_to_end(parts, topology, certified, number)?;
        return Ok(None);
    }
    let text = certificate_in(alloc, parts, buffer, topology, certified, number)?;
    check_names_to_end(parts, topology, certified, number + 1)?;
    Ok(Some(text))
}

/// Reads the parts after the topology: the rows of listed flows, which LAN wants which flow, and the
/// certificate if there has to be one.
pub(crate) fn read_bundle_contents<R: Input>(
    alloc: Global,
    slots: &mut BundleSlots<R>,
    buffer: &mut [u8],
    topology: &Topology,
) -> Result<BundleContents, SourceFault>
    requires room { 0 < length buffer.old }
    requires failures { slots.old.parts.failed < u64.MAX }
    ensures read { IfOk result (λ read. (stream : Stream) →
        option_map (bundle_gives slots.old.parts slots.old.certified topology.now 1)
        slots.old.parts.remaining ≡ Some stream →
        (input : InputValue)
        × AreContentsOf topology.now read.kept.tables read.kept.wants.items input
        × (read_stream (read_after_topology slots.old.certified topology.now) stream
        ≡ Ok (input, certificate_text read.certificate))) }
    ensures counts { IfOk result (λ read. AreTablesFor topology.now read.kept.tables) }
    ensures answers { IfOk result (λ read. AreAnswers topology.now read.kept.wants.items) }
    ensures certified { IfOk result (λ read. is_some read.certificate ≡ slots.old.certified) }
    ensures fault { IfErr result (IsFaultOfStream
        (option_map (bundle_gives slots.old.parts slots.old.certified topology.now 1)
        slots.old.parts.remaining) (read_after_topology slots.old.certified topology.now)) }
    ensures advances { Advances slots.old.parts slots.new.parts }
    ensures failures { slots.new.parts.failed
        ≡ failures_after is_read result slots.old.parts.failed }
{
    let mut listed = listed_pairs(alloc, topology)?;
    let kept = read_contents(alloc, slots, buffer, topology, &mut listed, &mut NoLists)?;
    let certified = slots.certified;
    let certificate = read_certificate_and_end(
        alloc,
        &mut slots.parts,
        buffer,
        topology,
        certified,
    )?;
    Ok(BundleContents { kept, certificate })
}
