//! Reads a domain from the bundle of a run's input.

ghost use Rattle.std.specs.Prelude.{◌≡◌, ◌<◌, IfErr, IfOk, IfSome, false};
ghost use Rattle.mc_bundle.specs.ReadFault.{ConsumesUpTo};
ghost use Rattle.mc_bundle.specs.Bundle.{max_input};
ghost use Rattle.mc_bundle.specs.Device.{failures_after};
ghost use Rattle.mc_input.specs.Meaning.{MeansUncertifiedDomain};
ghost use Rattle.mc_commands.specs.InputMeaning.{IsRefusedFor};
ghost use Rattle.mc_commands.specs.Failures.{is_read, is_write};
ghost use Rattle.mc_commands.specs.Faults.{IsFaultOfMake};

use crate::fault::RunFault;
use mc_bundle::Input;
use mc_forward::Domain;
use mc_input::read_bundle_domain;
use std::alloc::Global;

/// Reads the domain of an input's bundle, which has no certificate.
pub(crate) fn read_domain<R: Input>(alloc: Global, input: &mut R) -> Result<Domain, RunFault>
    requires failures { R.failed input.old < u64.MAX }
    ensures same { R.borrows input.new ≡ R.borrows input.old }
    ensures means { IfOk result (λ domain.
        IfSome (R.remaining input.old) (λ text. MeansUncertifiedDomain text domain)) }
    ensures refused { IfErr result (λ fault.
        IfSome (R.remaining input.old) (λ text. IsRefusedFor false text fault)) }
    ensures consumed { ConsumesUpTo max_input (R.remaining input.old) (R.remaining input.new) }
    ensures no_write { IfErr result (λ fault. is_write fault ≡ false) }
    ensures faults { IfErr result IsFaultOfMake }
    ensures failures { R.failed input.new ≡ failures_after is_read result (R.failed input.old) }
{
    let read = read_bundle_domain(alloc, input, false)?;
    Ok(read.domain)
}
