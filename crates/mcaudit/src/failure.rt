//! The program's failures, and the exit status of each.

ghost use Rattle.std.specs.Prelude.{◌≡◌};
ghost use Rattle.mcaudit.specs.declared.failure.Failure.TheVariants.{Words, Run};
ghost use Rattle.mcaudit.specs.Status.{exit_status_of_failure};

use mc_cli::WordsFault;
use mc_commands::RunFault;
use thiserror::Error;

/// Why the program gives no answer. `Display` gives the text for standard error.
#[derive(Debug, Drop, Error)]
pub enum Failure {
    /// The command line gives no task.
    #[error("{0}")]
    Words(WordsFault),
    /// The task's run gives no answer.
    #[error("{0}")]
    Run(RunFault),
}

impl Failure {
    /// The exit status: 2 for a refused input, 3 for a failed device, 4 for lack of memory, 5 for a
    /// wrong command line.
    pub fn status(&self) -> u8
        ensures { result ≡ exit_status_of_failure self.now }
    {
        match self {
            Failure::Words(WordsFault::Wrong(_)) => 5,
            Failure::Run(
                RunFault::Bundle(_)
                | RunFault::Parts(_)
                | RunFault::Topology(_)
                | RunFault::Vif(_, _)
                | RunFault::Cache(_, _)
                | RunFault::PartReports(_, _)
                | RunFault::Reports(_)
                | RunFault::Certificate(_)
                | RunFault::NoSuchFlow(_)
                | RunFault::NoSuchRouter(_),
            ) => 2,
            Failure::Run(RunFault::Read | RunFault::Write) => 3,
            Failure::Words(WordsFault::Memory) | Failure::Run(RunFault::Memory) => 4,
        }
    }
}

impl From<WordsFault> for Failure {
    ghost from_gives = { λ fault failure. failure ≡ Words fault };

    fn from(fault: WordsFault) -> Failure {
        Failure::Words(fault)
    }
}

impl From<RunFault> for Failure {
    ghost from_gives = { λ fault failure. failure ≡ Run fault };

    fn from(fault: RunFault) -> Failure {
        Failure::Run(fault)
    }
}
