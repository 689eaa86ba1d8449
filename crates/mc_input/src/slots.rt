//! What gives the parts of a domain's slots, one after another.

ghost use Rattle.std.specs.Prelude.{◌≡◌, ◌<◌, ◌+◌, ℕ, Bool, true, Option, Some, IfErr, IfOk};
ghost use Rattle.std.specs.Prelude.{cond, length};
ghost use Rattle.mc_bundle.specs.Device.{failures_after};
ghost use Rattle.mc_topology.specs.Topology.{TopologyValue};
ghost use Rattle.mc_input.specs.SourceFault.{IsReadOrMemory, is_possible_for_files, is_read};
ghost use Rattle.mc_input.specs.Stream.{IsFaultBeforeOrOwn, IsFaultOfStream, IsFedPart, ReadsFirst};
ghost use Rattle.mc_input.specs.Stream.{Stream, first_part};
ghost use Rattle.mc_input.specs.declared.source_fault.SourceFault.{SourceFault as Fault};
ghost use Rattle.mc_input.specs.declared.source_fault.SourceFault.TheVariants.{Input};

use crate::fault::InputFault;
use crate::source_fault::SourceFault;
use mc_bundle::PartName;
use mc_files::NumberedSlot;
use mc_text::PieceReader;
use std::alloc::Global;

/// A source of the parts of a domain's slots.
pub(crate) trait Slots {
    // what it gives from the slot with a number on, if its bytes are known
    ghost gives: { Self → TopologyValue → ℕ → Option Stream };

    // how many calls failed
    ghost failed: { Self → ℕ };

    // it is a later state of the same source
    ghost advances: { Self → Self → Type 0 };

    // whether it can answer this fault
    ghost is_possible: { Fault → Bool };

    /// Feeds the part of a slot, which has to come next, to a reader, and answers the part's name.
    fn feed<P: PieceReader>(
        &mut self,
        alloc: Global,
        slot: &NumberedSlot<'_>,
        buffer: &mut [u8],
        reader: &mut P,
    ) -> Result<PartName, SourceFault>
        requires room { 0 < length buffer.old }
        requires start { P.size reader.old ≡ 0 }
        requires failures { failed self.old < u64.MAX }
        ensures part { IfOk result (λ name. ReadsFirst (gives self.old slot.now.topology slot.now.number)
            (gives self.new slot.now.topology (slot.now.number + 1))
            (IsFedPart name (P.result_after reader.old) (P.result_after reader.new))) }
        ensures fault { IfErr result
            (IsFaultOfStream (gives self.old slot.now.topology slot.now.number) first_part) }
        ensures faults { IfErr result (λ fault. is_possible fault ≡ true) }
        ensures advances { advances self.old self.new }
        ensures failures { failed self.new ≡ failures_after is_read result (failed self.old) };

    /// What is answered for this fault of the content of a slot's part, which was fed last: the fault
    /// itself, or one that comes before the faults of all contents.
    fn refuse(&mut self, slot: &NumberedSlot<'_>, fault: InputFault) -> SourceFault
        requires possible { is_possible_for_files (Input fault) ≡ true }
        requires failures { failed self.old < u64.MAX }
        ensures fault { (stream : Stream) →
            gives self.old slot.now.topology (slot.now.number + 1) ≡ Some stream →
            ¬ IsReadOrMemory result → IsFaultBeforeOrOwn stream fault result }
        ensures faults { is_possible result ≡ true }
        ensures advances { advances self.old self.new }
        ensures failures { failed self.new
            ≡ cond (is_read result) (failed self.old + 1) (failed self.old) };

    // so it is after two calls,
    ghost advances_twice: { (a b c : Self) → advances a b → advances b c → advances a c };

    // and after none
    ghost stays: { (a : Self) → advances a a };

    // the faults of a folder's files are possible for each source
    ghost possible: { (fault : Fault) → is_possible_for_files fault ≡ true → is_possible fault ≡ true };
}
