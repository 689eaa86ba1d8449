//! Feeding a bundle's current part to its reader.

ghost use Rattle.std.specs.Prelude.{◌≡◌, ◌≢◌, ◌<◌, ℕ, List, [], Some, Err, IfErr, OnOk, length};
ghost use Rattle.mc_bundle.specs.Device.{failures_after};
ghost use Rattle.mc_bundle.specs.PartsReading.{IsOpened, is_read, parts_from_current};
ghost use Rattle.mc_bundle.specs.RestOfBundle.{Advances, HasFedPart};

use crate::bundle_fault::BundleFault;
use crate::io::Input;
use crate::parts::Parts;
use mc_text::PieceReader;

/// Feeds the whole current part to a reader, in pieces through the buffer, which must not be empty. The
/// reader must not have been fed anything. The input's count of failures must be below `u64::MAX`.
///
/// # Errors
///
/// As `Parts::read`, or `Memory` if the reader's is refused.
pub fn feed_part<R: Input, P: PieceReader>(
    parts: &mut Parts<R>,
    buffer: &mut [u8],
    reader: &mut P,
) -> Result<(), BundleFault>
    requires opened { (name : List ℕ) × IsOpened parts.old name }
    requires room { 0 < length buffer.old }
    requires start { P.size reader.old ≡ 0 }
    requires failures { parts.old.failed < u64.MAX }
    // The bundle has this part, and the reader ends with the result of all its bytes.
    ensures part { (text : List ℕ) → parts.old.remaining ≡ Some text → OnOk result
        (HasFedPart parts.old parts.new text (P.result_after reader.old) (P.result_after reader.new)) }
    ensures named { OnOk result (parts.new.name ≡ parts.old.name) }
    ensures open { OnOk result (parts.new.stage ≡ parts.old.stage) }
    // The fault is that of the bundle's text, unless the input failed or memory ran out.
    ensures fault { (text : List ℕ) → parts.old.remaining ≡ Some text → IfErr result (λ fault.
        fault ≢ BundleFault.Read → fault ≢ BundleFault.Memory →
        parts_from_current parts.old [] text ≡ Err fault) }
    ensures advances { Advances parts.old parts.new }
    ensures failures { parts.new.failed ≡ failures_after is_read result parts.old.failed }
{
    'pieces: loop {
        let count = parts.read(buffer)?;
        if count == 0 {
            return Ok(());
        }
        if reader.take(&buffer[..count]).is_err() {
            return Err(BundleFault::Memory);
        }
    }
}
