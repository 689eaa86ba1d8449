//! The text of an audit, and its answer.

ghost use Rattle.std.specs.Prelude.{◌≡◌, IfOk, Ok};
ghost use Rattle.mc_run.specs.AuditPieces.{output_of, yes_of};
ghost use Rattle.mc_run.specs.declared.audit.audit_output.AuditOutput.{AuditOutput as AuditOutputValue};

use mc_commands::{RunFault, RunOutput};

/// What an audit counts beside its verdict.
#[derive(Clone, Copy, Debug, PartialEq, Eq)]
pub struct AuditCounts {
    /// How many flows have no finding and are wanted by no LAN.
    pub unwanted: u32,
    /// How many wants of LANs no flow answers.
    pub asked: u64,
}

/// The answer of an audit.
#[derive(Clone, Copy, Debug, PartialEq, Eq)]
pub struct AuditAnswer {
    /// Whether every listed flow is right, and no router is excluded.
    pub yes: bool,
    /// What is counted beside that.
    pub counts: AuditCounts,
}

/// The text of an audit, with its answer.
#[derive(Drop)]
pub(crate) struct AuditOutput {
    /// The text, and whether every listed flow is right and no router is excluded.
    pub(crate) run_output: RunOutput,
    /// What is counted beside that.
    pub(crate) counts: AuditCounts,
}

impl AuditOutput {
    /// The output of the run, and what was counted, nothing for a fault.
    pub(crate) fn parts(
        audit: Result<AuditOutput, RunFault>,
    ) -> (Result<RunOutput, RunFault>, AuditCounts)
        ensures run_output { result.0 ≡ output_of audit }
        ensures counts { (run_output : AuditOutputValue) → audit ≡ Ok run_output → result.1
            ≡ run_output.counts }
    {
        match audit {
            Ok(AuditOutput { run_output, counts }) => (Ok(run_output), counts),
            Err(fault) => {
                let none = AuditCounts {
                    unwanted: 0,
                    asked: 0,
                };
                (Err(fault), none)
            }
        }
    }
}

/// The answer, with what was counted.
pub(crate) fn with_counts(
    yes: Result<bool, RunFault>,
    counts: AuditCounts,
) -> Result<AuditAnswer, RunFault>
    ensures yes { yes_of result ≡ yes }
    ensures counts { IfOk result (λ answer. answer.counts ≡ counts) }
{
    match yes {
        Ok(yes) => Ok(AuditAnswer { yes, counts }),
        Err(fault) => Err(fault),
    }
}
