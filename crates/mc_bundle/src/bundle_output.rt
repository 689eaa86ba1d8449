//! Writing a bundle.

ghost use Rattle.std.specs.Prelude.{◌≡◌, ◌≢◌, ◌+◌, ◌++◌, codes, flat_map, ◌↔◌, ◌⊎◌, ◌<◌, ◌≤◌};
ghost use Rattle.std.specs.Prelude.{length, OnOk, OnErr, IfErr, IsErrOf};
ghost use Rattle.std.specs.Bool.{OnTrue, OnFalse};
ghost use Rattle.std.specs.Io.KnownBytes.{Appends};
ghost use Rattle.std.specs.List.{AllByRecursion};
ghost use Rattle.mc_bundle.specs.Bundle.{IsPartName, part_spelling, bundle_spelling, AreWithinLimits};
ghost use Rattle.mc_bundle.specs.Bundle.{is_write, AppendsBundle};
ghost use Rattle.mc_bundle.specs.Device.{failures_after, is_failure, AppendsProperPrefix};
ghost use Rattle.mc_bundle.specs.BundleView.{part_text, part_texts};

use crate::bundle::{END_LINE, MAGIC, MAX_BUNDLE, MAX_PART, MAX_PARTS};
use crate::bundle_fault::BundleFault;
use crate::io::{DeviceFault, Output, write_all, write_pieces};
use crate::part::Part;
use itoa::Buffer;

/// Writes the bundle of the parts: at most 1,538 parts of at most 16,777,216 bytes, and 268,435,456
/// bytes in all. It allocates no memory. The output's count of failures must be below `u64::MAX`.
///
/// # Errors
///
/// `TooLarge` if the parts exceed a limit; nothing is written then. `Write` at the first call that
/// returns an error or takes no byte; a proper prefix of the bundle was written then.
pub fn write_bundle<W: Output>(parts: &[Part<'_>], output: &mut W) -> Result<(), BundleFault>
    requires failures { W.failed output.old < u64.MAX }
    ensures same { W.borrows output.new ≡ W.borrows output.old }
    ensures ok { OnOk result
        (AppendsBundle (W.written output.old) (W.written output.new) (part_texts parts.now)) }

    // No other fault is returned.
    ensures faults { IfErr result
        (λ fault. (fault ≡ BundleFault.TooLarge) ⊎ (fault ≡ BundleFault.Write)) }
    ensures too_large { IsErrOf result BundleFault.TooLarge
        ↔ ¬ AreWithinLimits (part_texts parts.now) }
    ensures unwritten { IfErr result
        (λ fault. fault ≢ BundleFault.Write → output.new ≡ output.old) }
    ensures cut { IsErrOf result BundleFault.Write
        → AppendsProperPrefix
        (W.written output.old) (W.written output.new) (bundle_spelling (part_texts parts.now)) }
    ensures cut_within { IsErrOf result BundleFault.Write → AreWithinLimits (part_texts parts.now) }
    ensures failures { W.failed output.new ≡ failures_after is_write result (W.failed output.old) }
{
    if !are_within_limits(parts) {
        return Err(BundleFault::TooLarge);
    }
    write_parts(output, parts).map_err(|_| BundleFault::Write)
}

/// Whether the parts are within a bundle's limits.
fn are_within_limits(parts: &[Part<'_>]) -> bool
    ensures within { OnTrue result (AreWithinLimits (part_texts parts.now)) }
    ensures names { OnTrue result
        (AllByRecursion (λ part. IsPartName part.name) (part_texts parts.now)) }
    ensures beyond { OnFalse result (¬ AreWithinLimits (part_texts parts.now)) }
{
    if parts.len() > MAX_PARTS {
        return false;
    }
    let mut size = MAGIC.len() + END_LINE.len();
    for part in parts {
        if part.bytes.len() > MAX_PART {
            return false;
        }
        size += encoded_part_size(part);
    }
    size <= MAX_BUNDLE
}

/// The number of bytes that a part takes, with its line.
fn encoded_part_size(part: &Part<'_>) -> usize
    requires bounded { length part.now.bytes.now ≤ MAX_PART }
    ensures size { result ≡ length (part_spelling (part_text part.now)) }
    ensures bound { result ≤ MAX_PART + 92 }
    ensures named { IsPartName part.now.name }
{
    let mut buffer = Buffer::new();
    let digits = buffer.format(part.bytes.len()).as_bytes();
    let line = 5 + part.name.as_bytes().len() + 1 + digits.len();
    line + 1 + part.bytes.len() + 1
}

/// Writes the bundle of the parts, without a check of its limits.
fn write_parts<W: Output>(output: &mut W, parts: &[Part<'_>]) -> Result<(), DeviceFault>
    requires failures { W.failed output.old < u64.MAX }
    ensures same { W.borrows output.new ≡ W.borrows output.old }
    ensures ok { OnOk result
        (Appends (W.written output.old) (W.written output.new) (bundle_spelling (part_texts parts.now))) }
    ensures err { OnErr result (AppendsProperPrefix
        (W.written output.old) (W.written output.new) (bundle_spelling (part_texts parts.now))) }
    ensures failures { W.failed output.new ≡ failures_after is_failure result (W.failed output.old) }
{
    write_all(output, MAGIC)?;
    for part in parts {
        write_part(output, part)?;
    }
    write_all(output, END_LINE)
}

/// Writes a part, with its line.
fn write_part<W: Output>(output: &mut W, part: &Part<'_>) -> Result<(), DeviceFault>
    requires failures { W.failed output.old < u64.MAX }
    ensures same { W.borrows output.new ≡ W.borrows output.old }
    ensures ok { OnOk result
        (Appends (W.written output.old) (W.written output.new) (part_spelling (part_text part.now))) }
    ensures err { OnErr result
        (AppendsProperPrefix (W.written output.old) (W.written output.new)
        (part_spelling (part_text part.now))) }
    ensures failures { W.failed output.new ≡ failures_after is_failure result (W.failed output.old) }
{
    let mut buffer = Buffer::new();
    let digits = buffer.format(part.bytes.len()).as_bytes();
    write_pieces(
        output,
        &part_pieces(part.name.as_bytes(), digits, part.bytes),
    )
}

/// The pieces that are written for a part.
fn part_pieces<'a>(name: &'a [u8], digits: &'a [u8], bytes: &'a [u8]) -> [&'a [u8]; 7]
    ensures { flat_map (λ piece. piece.now) result
        ≡ (codes "part " ++ (name.now ++ (codes " " ++ digits.now)) ++ codes "\n")
        ++ (bytes.now ++ codes "\n") }
{
    [b"part ", name, b" ", digits, b"\n", bytes, b"\n"]
}
