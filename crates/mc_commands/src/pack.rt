//! `mcaudit pack`: the bundle of a folder's files.

ghost use Rattle.std.specs.Prelude.{◌≡◌, ◌≢◌, ◌<◌, List, Some, IfErr, IfOk, IfSome, Err};
ghost use Rattle.mc_bundle.specs.Bundle.{PartText};
ghost use Rattle.mc_files.specs.Files.{FileText};
ghost use Rattle.mc_files.specs.Packing.{IsPacked};
ghost use Rattle.mc_files.specs.PackRun.{WritesPackedBundle, WritesPackedPrefix};
ghost use Rattle.mc_bundle.specs.Device.{failures_after};
ghost use Rattle.mc_commands.specs.Failures.{is_read, is_write};
ghost use Rattle.mc_commands.specs.Faults.{IsFaultOfPack};
ghost use Rattle.mc_commands.specs.PackingRun.{IsPackRunAnswer, IsDeviceOrMemoryFault};

use crate::fault::RunFault;
use mc_bundle::Output;
use mc_files::FileSource;
use std::alloc::Global;

/// Reads the files of a domain, each at most 16,777,216 bytes, and writes the bundle of them. With
/// `certificate`, the certificate is one of the files. The topology is checked before the next file is
/// opened; no other file is checked.
///
/// # Errors
///
/// The topology's fault, or that the files are too large for a bundle; `Read` or `Write` if a device
/// fails, and `Memory` if an allocation fails. Only `Write` may leave a part of the bundle written.
pub fn run_pack<F: FileSource, W: Output>(
    alloc: Global,
    files: &mut F,
    certificate: bool,
    output: &mut W,
) -> Result<(), RunFault>
    requires reads { F.failed files.old < u64.MAX }
    requires writes { W.failed output.old < u64.MAX }
    ensures files_same { F.borrows files.new ≡ F.borrows files.old }
    ensures output_same { W.borrows output.new ≡ W.borrows output.old }
    ensures kept { F.contents files.new ≡ F.contents files.old }
    // The files have a bundle, or the answer is the first reason why they have none.
    ensures answer { IfSome (F.contents files.old) (λ contents. IsPackRunAnswer certificate contents result) }
    // If they have one, only a device's fault or `Memory` keeps it from being written.
    ensures only { (contents : List FileText) (parts : List PartText) → F.contents files.old ≡ Some contents
        → IsPacked contents certificate parts → IfErr result IsDeviceOrMemoryFault }
    // After success, the bundle is written whole.
    ensures written { IfOk result (λ _. IfSome (F.contents files.old) (λ contents.
        WritesPackedBundle certificate contents (W.written output.old) (W.written output.new))) }
    // After a `Write` fault, a proper part of the bundle was written, from its front.
    ensures part { result ≡ Err RunFault.Write → IfSome (F.contents files.old) (λ contents.
        WritesPackedPrefix certificate contents (W.written output.old) (W.written output.new)) }
    // After any fault but `Write`, nothing was written.
    ensures unwritten { IfErr result (λ fault. fault ≢ RunFault.Write → output.new ≡ output.old) }
    // A fault is the topology's, that something is too large for a bundle, a device's, or `Memory`.
    ensures faults { IfErr result IsFaultOfPack }
    // `Read` and `Write` come only where a call of that device failed.
    ensures read_failures { F.failed files.new ≡ failures_after is_read result (F.failed files.old) }
    ensures write_failures { W.failed output.new ≡ failures_after is_write result (W.failed output.old) }
{
    mc_files::pack(alloc, files, certificate, output)?;
    Ok(())
}
