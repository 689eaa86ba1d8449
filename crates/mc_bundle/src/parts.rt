//! Reading a bundle part by part from an input.

ghost use Rattle.std.specs.Prelude.{◌≡◌, ◌≢◌, ◌+◌, ◌<◌, ◌≤◌, ◌⊎◌, ℕ, List, [], length, take};
ghost use Rattle.std.specs.Prelude.{Ok, Err, Some, true, false, IfOk, IfErr, IsSome, OnErr};
ghost use Rattle.mc_bundle.specs.declared.stage.Stage.TheVariants as stages;
ghost use Rattle.mc_bundle.specs.BundleFaults.{IsInputFault};
ghost use Rattle.mc_bundle.specs.BundleReading.{bundle_of};
ghost use Rattle.mc_bundle.specs.Device.{failures_after};
ghost use Rattle.mc_bundle.specs.PartsReading.{is_read, parts_from_current, current_part};
ghost use Rattle.mc_bundle.specs.RestOfBundle.{ReadsNextOfPart, SkipsCurrentPart};
ghost use Rattle.mc_bundle.specs.PartsLimits.{ConsumesWithin, max_to_come};
ghost use Rattle.mc_bundle.specs.Bundle.{max_bundle, max_line, max_part};

use crate::bundle::{MAGIC, MAX_BUNDLE, MAX_PARTS};
use crate::bundle_fault::BundleFault;
use crate::io::Input;
use crate::part_name::PartName;
use crate::parts_input::read_next;
use crate::stage::Stage;
use std::marker::Model;

/// The parts of a bundle, read one after another from an input. It allocates no memory.
#[derive(Drop)]
pub struct Parts<R: Input> {
    input: R,
    stage: Stage,
    parts: usize,
    room: usize,
    name: Option<PartName>,
    size: usize,
    left: usize,
}

impl<R: Input> Model for Parts<R> {
    ghost use Rattle.mc_bundle.specs.PartsReading.{PartsState, IsValidPartsState, parts_state};

    ghost Value = { PartsState };

    ghost view = { λ s. parts_state s.stage s.parts s.room s.name s.size s.left (R.remaining s.input)
        (R.failed s.input) (R.borrows s.input) };

    ghost invariant = { λ s. IsValidPartsState (parts_state s.stage s.parts s.room s.name s.size s.left
        (R.remaining s.input) (R.failed s.input) (R.borrows s.input)) };
}

impl<R: Input> Parts<R> {
    /// The parts of the bundle that the input gives.
    pub fn new(input: R) -> Parts<R>
        ensures remaining { result.remaining ≡ R.remaining input }
        ensures failures { result.failed ≡ R.failed input }
        ensures same { result.borrows ≡ R.borrows input }
        ensures start { result.stage ≡ stages.Start }
        // No more is read than the bytes of the greatest bundle and a line.
        ensures most { max_to_come result ≡ max_bundle + max_line }
        // The parts are those of the whole text.
        ensures parts { (text : List ℕ) → parts_from_current result [] text ≡ bundle_of text }
    {
        Parts {
            input,
            stage: Stage::Start,
            parts: MAX_PARTS,
            room: MAX_BUNDLE - MAGIC.len(),
            name: None,
            size: 0,
            left: 0,
        }
    }

    /// Skips the rest of the current part and opens the next one. Returns false after the last part,
    /// and from then on. The input's count of failures must be below `u64::MAX`.
    ///
    /// # Errors
    ///
    /// The first fault from the front, `Read` if the input failed, and `Failed` on each call after
    /// either.
    pub fn next(&mut self) -> Result<bool, BundleFault>
        requires failures { self.old.failed < u64.MAX }
        ensures borrows { self.new.borrows ≡ self.old.borrows }
        // If a part was opened, the parts that were to come are the one that was skipped, if there
        // was one, and those that are still to come.
        ensures opened { (text done : List ℕ) → self.old.remaining ≡ Some text → result ≡ Ok true →
            SkipsCurrentPart self.old self.new done text }
        // After the last part they are the one that was skipped, if there was one.
        ensures ended { (text done : List ℕ) → self.old.remaining ≡ Some text → result ≡ Ok false →
            parts_from_current self.old done text ≡ Ok (current_part self.old done text) }
        // Which fault it is, unless the input failed.
        ensures fault { (text done : List ℕ) → self.old.remaining ≡ Some text → IfErr result
            (λ fault. fault ≢ BundleFault.Read → parts_from_current self.old done text ≡ Err fault) }
        // No input gives another fault.
        ensures faults { IfErr result (λ fault. IsInputFault fault
            ⊎ ((fault ≡ BundleFault.Failed) × (self.old.stage ≡ stages.Failed))) }
        ensures open { result ≡ Ok true →
            (self.new.stage ≡ stages.Part) × (self.new.left ≡ self.new.size) }
        ensures named { result ≡ Ok true → IsSome self.new.name }
        ensures bound { result ≡ Ok true → self.new.size ≤ max_part }
        // Each part leaves fewer parts that may come.
        ensures fewer { result ≡ Ok true → self.new.parts < self.old.parts }
        ensures end { result ≡ Ok false → self.new.stage ≡ stages.End }
        ensures failed { OnErr result (self.new.stage ≡ stages.Failed) }
        // After a fault, and after the last part, nothing is read.
        ensures again { self.old.stage ≡ stages.Failed →
            (result ≡ Err BundleFault.Failed) × (self.new ≡ self.old) }
        ensures past { self.old.stage ≡ stages.End → (result ≡ Ok false) × (self.new ≡ self.old) }
        // No more is read than may come, whatever the result.
        ensures consumed { ConsumesWithin
            (max_to_come self.old) (max_to_come self.new) self.old.remaining self.new.remaining }
        ensures failures { self.new.failed ≡ failures_after is_read result self.old.failed }
    {
        let start = match self.stage {
            Stage::Failed => return Err(BundleFault::Failed),
            Stage::End => return Ok(false),
            Stage::Start => true,
            Stage::Part => false,
        };
        match read_next(&mut self.input, start, self.left, self.parts, self.room) {
            Ok(Some(part)) => {
                self.stage = Stage::Part;
                self.parts = part.parts;
                self.room = part.room;
                self.name = Some(part.name);
                self.size = part.size;
                self.left = part.size;
                Ok(true)
            }
            Ok(None) => {
                self.stage = Stage::End;
                Ok(false)
            }
            Err(fault) => Err(self.failed(fault)),
        }
    }

    /// Returns the fault, and `Failed` is returned from then on.
    fn failed(&mut self, fault: BundleFault) -> BundleFault
        ensures fault { result ≡ fault }
        ensures stage { self.new ≡ record self.old { stage = stages.Failed } }
    {
        self.stage = Stage::Failed;
        fault
    }

    /// The name of the current part. There must be one: the last `next` returned true.
    pub fn name(&self) -> PartName
        requires in_part { self.now.stage ≡ stages.Part }
        ensures item { self.now.name ≡ Some result }
    {
        self.name.unwrap()
    }

    /// The length of the current part in bytes. There must be one: the last `next` returned true.
    pub fn length(&self) -> u32
        requires in_part { self.now.stage ≡ stages.Part }
        ensures value { result ≡ self.now.size }
    {
        self.size as u32
    }

    /// Reads the next bytes of the current part to the front of the buffer, and returns how many: 0
    /// at the part's end, for an empty buffer, and if there is no current part. The input's count of
    /// failures must be below `u64::MAX`.
    ///
    /// # Errors
    ///
    /// `Truncated` if the input ends before the part does, `Read` if it failed, and `Failed` on each
    /// call after either.
    pub fn read(&mut self, buffer: &mut [u8]) -> Result<usize, BundleFault>
        requires failures { self.old.failed < u64.MAX }
        ensures borrows { self.new.borrows ≡ self.old.borrows }
        ensures bound { IfOk result (λ count. count ≤ length buffer.new) }
        // The bytes are the next ones of the part: the parts of the bundle stay the same.
        ensures bytes { (text done : List ℕ) → self.old.remaining ≡ Some text → IfOk result (λ count.
            ReadsNextOfPart self.old self.new done text (take count buffer.new)) }
        ensures left { IfOk result (λ count. self.old.stage ≡ stages.Part →
            self.new.left + count ≡ self.old.left) }
        // In a part, 0 is returned only for an empty buffer or at the part's end.
        ensures end { IfOk result (λ count. count ≡ 0 → self.old.stage ≡ stages.Part →
            (length buffer.new ≡ 0) ⊎ (self.old.left ≡ 0)) }
        ensures same { IfOk result (λ _. (self.new.stage ≡ self.old.stage)
            × (self.new.name ≡ self.old.name) × (self.new.size ≡ self.old.size)
            × (self.new.parts ≡ self.old.parts)) }
        // Which fault it is, unless the input failed.
        ensures fault { (text done : List ℕ) → self.old.remaining ≡ Some text → IfErr result
            (λ fault. fault ≢ BundleFault.Read → parts_from_current self.old done text ≡ Err fault) }
        // No input gives another fault.
        ensures faults { IfErr result (λ fault. (fault ≡ BundleFault.Truncated)
            ⊎ ((fault ≡ BundleFault.Read)
            ⊎ ((fault ≡ BundleFault.Failed) × (self.old.stage ≡ stages.Failed)))) }
        ensures failed { OnErr result (self.new.stage ≡ stages.Failed) }
        // With no current part nothing is read.
        ensures closed { (self.old.stage ≡ stages.Start) ⊎ (self.old.stage ≡ stages.End) →
            (result ≡ Ok 0) × (self.new ≡ self.old) }
        // Nor is anything read into an empty buffer or at the part's end.
        ensures nothing { self.old.stage ≡ stages.Part →
            (length buffer.old ≡ 0) ⊎ (self.old.left ≡ 0) →
            (result ≡ Ok 0) × (self.new ≡ self.old) }
        ensures again { self.old.stage ≡ stages.Failed →
            (result ≡ Err BundleFault.Failed) × (self.new ≡ self.old) }
        // No more is read than may come, whatever the result.
        ensures consumed { ConsumesWithin
            (max_to_come self.old) (max_to_come self.new) self.old.remaining self.new.remaining }
        ensures failures { self.new.failed ≡ failures_after is_read result self.old.failed }
    {
        match self.stage {
            Stage::Failed => return Err(BundleFault::Failed),
            Stage::Start | Stage::End => return Ok(0),
            Stage::Part => {}
        }
        let room = buffer.len().min(self.left);
        if room == 0 {
            return Ok(0);
        }
        match self.input.read(&mut buffer[..room]) {
            Ok(0) => Err(self.failed(BundleFault::Truncated)),
            Ok(count) => {
                self.left -= count;
                Ok(count)
            }
            Err(_) => Err(self.failed(BundleFault::Read)),
        }
    }

    /// Returns the input, with the bytes that were not read yet.
    pub fn into_input(self) -> R
        ensures remaining { R.remaining result ≡ self.remaining }
        ensures failures { R.failed result ≡ self.failed }
        ensures same { R.borrows result ≡ self.borrows }
    {
        let Parts {
            input,
            stage: _,
            parts: _,
            room: _,
            name: _,
            size: _,
            left: _,
        } = self;
        input
    }
}
