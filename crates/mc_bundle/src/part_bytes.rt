//! Collecting the bytes of a bundle's current part.

ghost use Rattle.std.specs.Prelude.{◌≡◌, ◌≢◌, ◌<◌, ◌⊎◌, ℕ, List, Some, Err, IfOk, IfErr, OnOk};
ghost use Rattle.std.specs.Prelude.{length};
ghost use Rattle.mc_bundle.specs.declared.stage.Stage.TheVariants as stages;
ghost use Rattle.mc_bundle.specs.Device.{failures_after};
ghost use Rattle.mc_bundle.specs.PartsReading.{is_read, parts_from_current};
ghost use Rattle.mc_bundle.specs.RestOfBundle.{Advances, ReadsOfPart};

use crate::bundle_fault::BundleFault;
use crate::io::Input;
use crate::parts::Parts;
use std::alloc::Global;

/// Collects the rest of the current part, piece by piece through the buffer, which must not be empty.
/// The input's count of failures must be below `u64::MAX`.
///
/// # Errors
///
/// As `Parts::read`, or `Memory` if an allocation is refused.
pub fn collect_part<R: Input>(
    alloc: Global,
    parts: &mut Parts<R>,
    buffer: &mut [u8],
) -> Result<Vec<u8>, BundleFault>
    requires open { parts.old.stage ≡ stages.Part }
    requires room { 0 < length buffer.old }
    requires failures { parts.old.failed < u64.MAX }
    // The bytes are those of the part that were still to come: the parts of the bundle stay the same.
    ensures bytes { (text done : List ℕ) → parts.old.remaining ≡ Some text → IfOk result (λ bytes.
        ReadsOfPart parts.old parts.new done text bytes.items) }
    ensures whole { OnOk result ((parts.new.stage ≡ stages.Part)
        × (parts.new.name ≡ parts.old.name) × (parts.new.left ≡ 0)) }
    ensures advances { Advances parts.old parts.new }
    // Which fault it is, unless the input failed or memory ran out.
    ensures fault { (text done : List ℕ) → parts.old.remaining ≡ Some text → IfErr result
        (λ fault. fault ≢ BundleFault.Read → fault ≢ BundleFault.Memory →
        parts_from_current parts.old done text ≡ Err fault) }
    ensures faults { IfErr result (λ fault. (fault ≡ BundleFault.Truncated)
        ⊎ ((fault ≡ BundleFault.Read) ⊎ (fault ≡ BundleFault.Memory))) }
    ensures failures { parts.new.failed ≡ failures_after is_read result parts.old.failed }
{
    let mut bytes = Vec::new(alloc);
    'pieces: loop {
        let count = parts.read(buffer)?;
        if count == 0 {
            return Ok(bytes);
        }
        if bytes.extend_from_slice(&buffer[..count]).is_err() {
            return Err(BundleFault::Memory);
        }
    }
}
