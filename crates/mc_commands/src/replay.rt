//! `mcaudit replay`: the travel of one packet through a domain, event by event, and its finding.

ghost use Rattle.std.specs.Prelude.{◌≡◌, ◌≢◌, ◌+◌, ◌<◌, ◌⊎◌, IfErr, IfOk, IfSome, Err, false, length};
ghost use Rattle.std.specs.String.{string_bytes};
ghost use Rattle.mc_bundle.specs.Bundle.{max_input};
ghost use Rattle.mc_bundle.specs.ReadFault.{ConsumesUpTo};
ghost use Rattle.mc_bundle.specs.Device.{failures_after};
ghost use Rattle.mc_commands.specs.Failures.{is_read, is_write};
ghost use Rattle.mc_commands.specs.Faults.{IsFaultOfReplay};
ghost use Rattle.mc_commands.specs.ReplayRun.{HasNoTravel, IsReplayRefused, IsTextOfTravel, IsTravelText};
ghost use Rattle.mc_commands.specs.RunOutput.{Answers, IsWrittenWhole, WritesPart};

use crate::domain_input::read_domain;
use crate::fault::RunFault;
use crate::run_output::{RunOutput, write_output};
use crate::shown::travel_text::{is_clean, travel_text};
use mc_bundle::{Input, Output};
use mc_forward::Domain;
use mc_replay::{Picker, replay};
use std::alloc::Global;

/// The index, counted from 0, of the flow with this number, counted from 1.
fn flow_index(domain: &Domain, flow: u32) -> Result<u32, RunFault>
    ensures counted { IfOk result (λ place. flow ≡ place + 1) }
    ensures listed { IfOk result (λ place. place < length domain.now.topology.flows) }
    ensures fault { IfErr result (λ fault. fault ≡ RunFault.NoSuchFlow flow) }
    ensures none { IfErr result (λ _. (flow ≡ 0) ⊎ (length domain.now.topology.flows < flow)) }
{
    if flow == 0 || domain.topology().flows() < flow {
        return Err(RunFault::NoSuchFlow(flow));
    }
    Ok(flow - 1)
}

/// The text of the travel of a packet through a domain, and whether the finding is `Clean`.
fn travel_in_domain<P: Picker>(
    alloc: Global,
    domain: &Domain,
    flow: u32,
    ttl: u8,
    picker: &mut P,
) -> Result<RunOutput, RunFault>
    requires ttl { 0 < ttl }
    ensures text { IfOk result (λ run_output. IsTextOfTravel domain.now flow ttl (P.choices picker.old)
        run_output.yes (string_bytes run_output.text)) }
    ensures none { IfErr result (HasNoTravel domain.now flow) }
    ensures faults { IfErr result (IsFaultOfReplay flow) }
{
    let place = flow_index(domain, flow)?;
    let travel = replay(alloc, domain, place, ttl, picker)?;
    let topology = domain.topology();
    let text = travel_text(alloc, topology, topology.flow(place), ttl, &travel)?;
    let clean = is_clean(travel.finding);
    Ok(RunOutput { text, yes: clean })
}

/// The text of the travel of a packet through the domain of an input's bundle.
fn travel_of_input<P: Picker, R: Input>(
    alloc: Global,
    flow: u32,
    ttl: u8,
    picker: &mut P,
    input: &mut R,
) -> Result<RunOutput, RunFault>
    requires ttl { 0 < ttl }
    requires reads { R.failed input.old < u64.MAX }
    ensures same { R.borrows input.new ≡ R.borrows input.old }
    ensures text { IfOk result (λ run_output. IfSome (R.remaining input.old) (λ text. IsTravelText flow ttl
        (P.choices picker.old) text run_output.yes (string_bytes run_output.text))) }
    ensures refused { IfErr result (λ fault.
        IfSome (R.remaining input.old) (λ text. IsReplayRefused flow text fault)) }
    ensures consumed { ConsumesUpTo max_input (R.remaining input.old) (R.remaining input.new) }
    ensures no_write { IfErr result (λ fault. is_write fault ≡ false) }
    ensures faults { IfErr result (IsFaultOfReplay flow) }
    ensures failures { R.failed input.new ≡ failures_after is_read result (R.failed input.old) }
{
    let domain = read_domain(alloc, input)?;
    travel_in_domain(alloc, &domain, flow, ttl, picker)
}

/// Reads a bundle without a certificate from the input, at most 268,435,552 bytes, and writes the
/// travel of one packet of the flow with this number, counted from 1, sent with this time to live,
/// 1 to 255, whose copies are handled in the order that the picker chooses: its events, and last its
/// finding. Returns whether the finding is `Clean`.
///
/// # Errors
///
/// The first fault of the bundle, or `NoSuchFlow`; `Read` or `Write` if a device fails, and `Memory` if
/// an allocation fails. Only `Write` may leave a part of the text written.
pub fn run_replay<P: Picker, R: Input, W: Output>(
    alloc: Global,
    flow: u32,
    ttl: u8,
    picker: &mut P,
    input: &mut R,
    output: &mut W,
) -> Result<bool, RunFault>
    requires ttl { 0 < ttl }
    requires reads { R.failed input.old < u64.MAX }
    requires writes { W.failed output.old < u64.MAX }
    ensures input_same { R.borrows input.new ≡ R.borrows input.old }
    ensures output_same { W.borrows output.new ≡ W.borrows output.old }
    // The answer is right, with some text, or is the first fault of the bundle, or that the bundle's
    // topology lists no such flow.
    ensures answer { IfSome (R.remaining input.old) (λ text.
        Answers (IsTravelText flow ttl (P.choices picker.old)) (IsReplayRefused flow) text result) }
    // At most the size of the greatest bundle and one line is read, whatever the answer.
    ensures consumed { ConsumesUpTo max_input (R.remaining input.old) (R.remaining input.new) }
    // After an answer, its text is written whole.
    ensures written { IsWrittenWhole (IsTravelText flow ttl (P.choices picker.old))
        (R.remaining input.old) result (W.written output.old) (W.written output.new) }
    // After a `Write` fault, a proper part of a right text was written, from its front.
    ensures part { result ≡ Err RunFault.Write → IfSome (R.remaining input.old) (λ text.
        WritesPart (IsTravelText flow ttl (P.choices picker.old)) text
        (W.written output.old) (W.written output.new)) }
    // After any fault but `Write`, nothing was written.
    ensures unwritten { IfErr result (λ fault. fault ≢ RunFault.Write → output.new ≡ output.old) }
    // A fault is one of a bundle without a certificate, that its topology lists no flow with this number,
    // a device's, or `Memory`.
    ensures faults { IfErr result (IsFaultOfReplay flow) }
    // `Read` and `Write` come only where a call of that device failed.
    ensures read_failures { R.failed input.new ≡ failures_after is_read result (R.failed input.old) }
    ensures write_failures { W.failed output.new ≡ failures_after is_write result (W.failed output.old) }
{
    write_output(travel_of_input(alloc, flow, ttl, picker, input), output)
}
