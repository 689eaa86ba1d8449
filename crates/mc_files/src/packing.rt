//! Packing a bundle of a folder's files.

ghost use Rattle.std.specs.Prelude.{◌≡◌, ◌≢◌, ◌<◌, ◌⊎◌, List, OnOk, Some, IfErr, IfOk, IfSome, Err};
ghost use Rattle.mc_bundle.specs.Bundle.{AreWithinLimits, PartText, bundle_spelling};
ghost use Rattle.mc_bundle.specs.Bundle.{AppendsBundle};
ghost use Rattle.mc_bundle.specs.Device.{AppendsProperPrefix, failures_after};
ghost use Rattle.mc_bundle.specs.BundleView.{part_texts};
ghost use Rattle.mc_files.specs.Files.{FileText};
ghost use Rattle.mc_files.specs.Packing.{IsPacked};
ghost use Rattle.mc_files.specs.PackRun.{IsPackAnswer, IsIoOrMemory, WritesPackedBundle, WritesPackedPrefix};
ghost use Rattle.mc_files.specs.PackRun.{is_read, is_write, from_bundle_fault};

use crate::fault::PackFault;
use crate::packed_part::{borrow_parts, read_parts};
use crate::source::FileSource;
use mc_bundle::{BundleFault, Output, Part, write_bundle};
use std::alloc::Global;

/// Why a bundle isn't written, as a fault of packing.
fn pack_fault_of(fault: BundleFault) -> PackFault
    ensures { result ≡ from_bundle_fault fault }
{
    match fault {
        BundleFault::TooLarge => PackFault::TooLarge,
        _ => PackFault::Write,
    }
}

/// Writes the bundle of the parts.
fn write_parts<W: Output>(parts: &[Part<'_>], output: &mut W) -> Result<(), PackFault>
    requires failures { W.failed output.old < u64.MAX }
    ensures same { W.borrows output.new ≡ W.borrows output.old }
    ensures ok { OnOk result
        (AppendsBundle (W.written output.old) (W.written output.new) (part_texts parts.now)) }
    ensures faults { IfErr result (λ fault. (fault ≡ PackFault.TooLarge)
        ⊎ (fault ≡ PackFault.Write)) }
    ensures too_large { result ≡ Err PackFault.TooLarge → ¬ AreWithinLimits (part_texts parts.now) }
    ensures within { result ≡ Err PackFault.Write → AreWithinLimits (part_texts parts.now) }
    ensures cut { result ≡ Err PackFault.Write
        → AppendsProperPrefix (W.written output.old) (W.written output.new)
        (bundle_spelling (part_texts parts.now)) }
    ensures unwritten { IfErr result (λ fault. fault ≢ PackFault.Write → output.new ≡ output.old) }
    ensures failures { W.failed output.new ≡ failures_after is_write result (W.failed output.old) }
{
    match write_bundle(parts, output) {
        Ok(()) => Ok(()),
        Err(fault) => Err(pack_fault_of(fault)),
    }
}

/// Packs the bundle of a folder's files: `topology`, for each router in the topology's order
/// `vif-<router>` and `cache-<router>`, for each LAN `igmp-<lan>`, and `certificate` if `certified`.
/// Each file may have up to 16,777,216 bytes, and the bundle up to 268,435,456. All files are read
/// before anything is written. The failure counts of the files and of the output have to be below
/// `u64::MAX`.
///
/// # Errors
///
/// The first fault in the bundle's order: `Read` where a file isn't there or can't be read,
/// `TooLarge` where it has too many bytes, and `Topology` before another file is read. `TooLarge`
/// last, where the bundle has too many bytes. `Write` at the first call of `write` that answers an
/// error or takes no byte: then a proper prefix of the bundle was written, and otherwise nothing.
/// Or `Memory`.
pub fn pack<F: FileSource, W: Output>(
    alloc: Global,
    files: &mut F,
    certified: bool,
    output: &mut W,
) -> Result<(), PackFault>
    requires reads { F.failed files.old < u64.MAX }
    requires writes { W.failed output.old < u64.MAX }
    ensures files_same { F.borrows files.new ≡ F.borrows files.old }
    ensures output_same { W.borrows output.new ≡ W.borrows output.old }
    ensures kept { F.contents files.new ≡ F.contents files.old }
    // There is a bundle of the files, or the answer is the first reason why there is none.
    ensures answer { IfSome (F.contents files.old) (λ contents. IsPackAnswer certified contents result) }
    // Where there is one, only a device or lack of memory keeps it from being written.
    ensures only { (contents : List FileText) (parts : List PartText) → F.contents files.old ≡ Some contents
        → IsPacked contents certified parts → IfErr result IsIoOrMemory }
    // The bundle is written whole, or a proper prefix of it where the output failed, or nothing.
    ensures written { IfOk result (λ _. IfSome (F.contents files.old) (λ contents.
        WritesPackedBundle certified contents (W.written output.old) (W.written output.new))) }
    ensures part { result ≡ Err PackFault.Write → IfSome (F.contents files.old) (λ contents.
        WritesPackedPrefix certified contents (W.written output.old) (W.written output.new)) }
    ensures unwritten { IfErr result (λ fault. fault ≢ PackFault.Write → output.new ≡ output.old) }
    // `Read` and `Write` are answered only where that device's count of failures rose in the call.
    ensures read_failures { F.failed files.new ≡ failures_after is_read result (F.failed files.old) }
    ensures write_failures { W.failed output.new ≡ failures_after is_write result (W.failed output.old) }
{
    let files = read_parts(alloc, files, certified)?;
    let parts = borrow_parts(alloc, &files)?;
    write_parts(&parts, output)
}
