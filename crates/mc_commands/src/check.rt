//! `mcaudit check`: whether a certificate proves that a domain forwards every listed flow as it
//! should.

ghost use Rattle.std.specs.Prelude.{◌≡◌, ◌≢◌, ◌<◌, ℕ, IfErr, IfOk, IfSome, IsTrue, List, Err, false};
ghost use Rattle.std.specs.Prelude.{is_some, true};
ghost use Rattle.std.specs.String.{string_bytes};
ghost use Rattle.mc_bundle.specs.Bundle.{max_input};
ghost use Rattle.mc_bundle.specs.ReadFault.{ConsumesUpTo};
ghost use Rattle.mc_cert.specs.Certificate.{BelongsTo};
ghost use Rattle.mc_forward.specs.Domains.{IsDomain};
ghost use Rattle.mc_input.specs.InputView.{certificate_text};
ghost use Rattle.mc_input.specs.Meaning.{MeansDomain};
ghost use Rattle.mc_commands.specs.InputMeaning.{IsRefusedFor, MeansCertified};
ghost use Rattle.mc_commands.specs.CheckRun.{BundleKeepsHeadline, IsTextOfVerdicts, IsVerdictText};
ghost use Rattle.mc_commands.specs.CheckRun.{KeepsHeadline, SaysYes};
ghost use Rattle.mc_bundle.specs.Device.{failures_after};
ghost use Rattle.mc_commands.specs.Failures.{IsNoDeviceFault, is_read, is_write};
ghost use Rattle.mc_commands.specs.Faults.{IsFaultOfCheck};
ghost use Rattle.mc_commands.specs.RunOutput.{Answers, IsWrittenWhole, WritesPart};

use crate::fault::RunFault;
use crate::run_output::{RunOutput, write_output};
use crate::shown::verdict_text::{are_yes, check_text};
use mc_bundle::{Input, Output};
use mc_cert::Certificate;
use mc_check::check_all;
use mc_forward::Domain;
use mc_input::{BundleDomain, read_bundle_domain};
use mc_text::Memory;
use std::alloc::Global;

/// A domain, and a certificate of its topology.
#[derive(Drop)]
struct DomainWithCertificate {
    domain: Domain,
    certificate: Certificate,
}

/// A domain that was read with a certificate's text, and the certificate, which is read here.
fn with_certificate(alloc: Global, read: BundleDomain) -> Result<DomainWithCertificate, RunFault>
    requires rules { IsDomain read.domain }
    requires certified { is_some read.certificate ≡ true }
    ensures means { (text : List ℕ) →
        MeansDomain text (certificate_text read.certificate) read.domain →
        IfOk result (λ read. MeansCertified text read.domain read.certificate) }
    ensures belongs { IfOk result (λ read. BelongsTo read.domain.topology read.certificate) }
    ensures refused { (text : List ℕ) →
        MeansDomain text (certificate_text read.certificate) read.domain →
        IfErr result (IsRefusedFor true text) }
    ensures no_device { IfErr result IsNoDeviceFault }
    ensures faults { IfErr result IsFaultOfCheck }
{
    let BundleDomain {
        domain,
        certificate,
    } = read;
    let Some(text) = certificate else {
        unreachable!()
    };
    let certificate = Certificate::read(alloc, &text, domain.topology())?;
    Ok(DomainWithCertificate {
        domain,
        certificate,
    })
}

/// The text of the verdicts on a domain's flows, by its certificate, and whether all verdicts are yes.
fn verdicts_of_domain(alloc: Global, read: &DomainWithCertificate) -> Result<RunOutput, Memory>
    requires valid { BelongsTo read.now.domain.topology read.now.certificate }
    ensures text { IfOk result (λ run_output. IsTextOfVerdicts read.now.domain read.now.certificate
        run_output.yes (string_bytes run_output.text)) }
    ensures headline { IfOk result (λ run_output.
        IsTrue run_output.yes → KeepsHeadline read.now.domain read.now.certificate) }
{
    let verdicts = check_all(alloc, &read.domain, &read.certificate)?;
    let text = check_text(alloc, read.domain.topology(), &verdicts)?;
    let yes = are_yes(&verdicts);
    Ok(RunOutput { text, yes })
}

/// The text of the verdicts on the flows of an input's bundle, by its certificate.
fn verdicts_of_input<R: Input>(alloc: Global, input: &mut R) -> Result<RunOutput, RunFault>
    requires failures { R.failed input.old < u64.MAX }
    ensures same { R.borrows input.new ≡ R.borrows input.old }
    ensures text { IfOk result (λ run_output. IfSome (R.remaining input.old) (λ text.
        IsVerdictText text run_output.yes (string_bytes run_output.text))) }
    ensures headline { IfOk result (λ run_output.
        IsTrue run_output.yes → IfSome (R.remaining input.old) BundleKeepsHeadline) }
    ensures refused { IfErr result (λ fault.
        IfSome (R.remaining input.old) (λ text. IsRefusedFor true text fault)) }
    ensures consumed { ConsumesUpTo max_input (R.remaining input.old) (R.remaining input.new) }
    ensures no_write { IfErr result (λ fault. is_write fault ≡ false) }
    ensures faults { IfErr result IsFaultOfCheck }
    ensures failures { R.failed input.new ≡ failures_after is_read result (R.failed input.old) }
{
    let read = read_bundle_domain(alloc, input, true)?;
    let certified = with_certificate(alloc, read)?;
    let run_output = verdicts_of_domain(alloc, &certified);
    drop(certified);
    match run_output {
        Ok(run_output) => Ok(run_output),
        Err(_) => Err(RunFault::Memory),
    }
}

/// Reads a bundle with a certificate from the input, at most 268,435,552 bytes, and writes for each
/// flow of its topology, in order, the verdict on it, and last `verdict yes` or `verdict no`. Returns
/// whether all verdicts are yes.
///
/// # Errors
///
/// The first fault of the bundle; `Read` or `Write` if a device fails, and `Memory` if an allocation
/// fails. Only `Write` may leave a part of the text written.
pub fn run_check<R: Input, W: Output>(
    alloc: Global,
    input: &mut R,
    output: &mut W,
) -> Result<bool, RunFault>
    requires reads { R.failed input.old < u64.MAX }
    requires writes { W.failed output.old < u64.MAX }
    ensures input_same { R.borrows input.new ≡ R.borrows input.old }
    ensures output_same { W.borrows output.new ≡ W.borrows output.old }
    // The answer is right, with some text, or is the first fault of the bundle.
    ensures answer { IfSome (R.remaining input.old) (λ text.
        Answers IsVerdictText (IsRefusedFor true) text result) }
    // At most the size of the greatest bundle and one line is read, whatever the answer.
    ensures consumed { ConsumesUpTo max_input (R.remaining input.old) (R.remaining input.new) }
    // After an answer, its text is written whole.
    ensures written { IsWrittenWhole IsVerdictText (R.remaining input.old) result
        (W.written output.old) (W.written output.new) }
    // After a `Write` fault, a proper part of a right text was written, from its front.
    ensures part { result ≡ Err RunFault.Write → IfSome (R.remaining input.old) (λ text.
        WritesPart IsVerdictText text (W.written output.old) (W.written output.new)) }
    // After any fault but `Write`, nothing was written.
    ensures unwritten { IfErr result (λ fault. fault ≢ RunFault.Write → output.new ≡ output.old) }
    // A fault is one of a bundle with a certificate, a device's, or `Memory`.
    ensures faults { IfErr result IsFaultOfCheck }
    // `Read` and `Write` come only where a call of that device failed.
    ensures read_failures { R.failed input.new ≡ failures_after is_read result (R.failed input.old) }
    ensures write_failures { W.failed output.new ≡ failures_after is_write result (W.failed output.old) }
    // After a yes, the headline holds for what was read.
    ensures headline { SaysYes result (W.written output.old) (W.written output.new)
        → IfSome (R.remaining input.old) BundleKeepsHeadline }
{
    write_output(verdicts_of_input(alloc, input), output)
}
