//! `mcaudit make`: the certificate of a domain, or for each flow that has none the finding of a packet.

ghost use Rattle.std.specs.Prelude.{◌≡◌, ◌≢◌, ◌++◌, ◌<◌, IfErr, IfOk, IfSome, Err, codes, false};
ghost use Rattle.std.specs.String.{string_bytes};
ghost use Rattle.mc_bundle.specs.Bundle.{max_input};
ghost use Rattle.mc_bundle.specs.ReadFault.{ConsumesUpTo};
ghost use Rattle.mc_cert.specs.Certificate.{BelongsTo};
ghost use Rattle.mc_cert.specs.CertificateText.{certificate_json as text_of_certificate};
ghost use Rattle.mc_commands.specs.InputMeaning.{IsRefusedFor};
ghost use Rattle.mc_bundle.specs.Device.{failures_after};
ghost use Rattle.mc_commands.specs.Failures.{is_read, is_write};
ghost use Rattle.mc_commands.specs.Faults.{IsFaultOfMake};
ghost use Rattle.mc_commands.specs.MakeRun.{AreMadeListsAndLines, IsMadeText, IsMakeOutput, SaysAllRight};
ghost use Rattle.mc_commands.specs.RunOutput.{Answers, IsWrittenWhole, WritesPart};

use crate::domain_input::read_domain;
use crate::fault::RunFault;
use crate::run_output::{RunOutput, write_output};
use crate::shown::found_text::push_found_lines;
use mc_bundle::{Input, Output};
use mc_cert::Trees;
use mc_forward::Domain;
use mc_maker::{Examined, examine};
use mc_text::Memory;
use mc_topology::Topology;
use std::alloc::Global;

/// The lists of the flows that are certified, and the lines of those that aren't.
#[derive(Drop)]
struct MadeLists {
    lists: Trees,
    lines: String,
}

/// Examines each flow of a domain, in order.
fn examine_all(alloc: Global, domain: &Domain) -> Result<MadeLists, Memory>
    ensures { IfOk result (λ made. AreMadeListsAndLines domain.now made.lists (string_bytes made.lines)) }
{
    let topology = domain.topology();
    let mut lists = Trees::new(alloc);
    let mut lines = String::new(alloc);
    for flow in 0..topology.flows() {
        match examine(alloc, domain, flow)? {
            Examined::Certified(entries) => lists.push(entries)?,
            Examined::Found { ttl, travel } => {
                push_found_lines(
                    &mut lines,
                    topology,
                    topology.flow(flow),
                    ttl,
                    travel.finding,
                )?;
            }
        }
    }
    Ok(MadeLists { lists, lines })
}

/// The text of the certificate with these lists, one for each flow of the topology, and a line feed.
fn certificate_json(alloc: Global, topology: &Topology, lists: Trees) -> Result<String, Memory>
    requires valid { BelongsTo topology.now lists }
    ensures ok { IfOk result (λ text. string_bytes text ≡
        text_of_certificate topology.now lists ++ codes "\n") }
{
    let mut text = lists.to_json(alloc, topology)?;
    text.push_str("\n").map_err(|_| Memory)?;
    Ok(text)
}

/// The text for a domain, and whether it is a certificate.
fn make_for_domain(alloc: Global, domain: &Domain) -> Result<RunOutput, Memory>
    ensures { IfOk result (λ run_output. IsMakeOutput domain.now run_output.yes
        (string_bytes run_output.text)) }
{
    let made = examine_all(alloc, domain)?;
    if !made.lines.is_empty() {
        return Ok(RunOutput {
            text: made.lines,
            yes: false,
        });
    }
    let text = certificate_json(alloc, domain.topology(), made.lists)?;
    Ok(RunOutput { text, yes: true })
}

/// The text for the domain of an input's bundle.
fn make_for_input<R: Input>(alloc: Global, input: &mut R) -> Result<RunOutput, RunFault>
    requires failures { R.failed input.old < u64.MAX }
    ensures same { R.borrows input.new ≡ R.borrows input.old }
    ensures text { IfOk result (λ run_output. IfSome (R.remaining input.old) (λ text.
        IsMadeText text run_output.yes (string_bytes run_output.text))) }
    ensures refused { IfErr result (λ fault.
        IfSome (R.remaining input.old) (λ text. IsRefusedFor false text fault)) }
    ensures consumed { ConsumesUpTo max_input (R.remaining input.old) (R.remaining input.new) }
    ensures no_write { IfErr result (λ fault. is_write fault ≡ false) }
    ensures faults { IfErr result IsFaultOfMake }
    ensures failures { R.failed input.new ≡ failures_after is_read result (R.failed input.old) }
{
    let domain = read_domain(alloc, input)?;
    let run_output = make_for_domain(alloc, &domain);
    drop(domain);
    match run_output {
        Ok(run_output) => Ok(run_output),
        Err(_) => Err(RunFault::Memory),
    }
}

/// Reads a bundle without a certificate from the input, at most 268,435,552 bytes, and examines
/// each flow of its topology. If all flows are right, it writes their certificate, as JSON of version
/// 2 with a line feed. Otherwise it writes for each flow that isn't right, in order, that it has no
/// certificate, and the finding of a packet. Returns whether a certificate is written.
///
/// # Errors
///
/// The first fault of the bundle; `Read` or `Write` if a device fails, and `Memory` if an allocation
/// fails. Only `Write` may leave a part of the text written.
pub fn run_make<R: Input, W: Output>(
    alloc: Global,
    input: &mut R,
    output: &mut W,
) -> Result<bool, RunFault>
    requires reads { R.failed input.old < u64.MAX }
    requires writes { W.failed output.old < u64.MAX }
    ensures input_same { R.borrows input.new ≡ R.borrows input.old }
    ensures output_same { W.borrows output.new ≡ W.borrows output.old }
    // The answer is right, with some text, or is the first fault of the bundle.
    ensures answer { IfSome (R.remaining input.old) (λ text.
        Answers IsMadeText (IsRefusedFor false) text result) }
    // It is true exactly if every listed flow is right.
    ensures right { IfOk result (λ certified.
        IfSome (R.remaining input.old) (λ text. SaysAllRight text certified)) }
    // At most the size of the greatest bundle and one line is read, whatever the answer.
    ensures consumed { ConsumesUpTo max_input (R.remaining input.old) (R.remaining input.new) }
    // After an answer, its text is written whole.
    ensures written { IsWrittenWhole IsMadeText (R.remaining input.old) result
        (W.written output.old) (W.written output.new) }
    // After a `Write` fault, a proper part of a right text was written, from its front.
    ensures part { result ≡ Err RunFault.Write → IfSome (R.remaining input.old) (λ text.
        WritesPart IsMadeText text (W.written output.old) (W.written output.new)) }
    // After any fault but `Write`, nothing was written.
    ensures unwritten { IfErr result (λ fault. fault ≢ RunFault.Write → output.new ≡ output.old) }
    // A fault is one of a bundle without a certificate, a device's, or `Memory`.
    ensures faults { IfErr result IsFaultOfMake }
    // `Read` and `Write` come only where a call of that device failed.
    ensures read_failures { R.failed input.new ≡ failures_after is_read result (R.failed input.old) }
    ensures write_failures { W.failed output.new ≡ failures_after is_write result (W.failed output.old) }
{
    write_output(make_for_input(alloc, input), output)
}
