//! Ends the program: with the status of its answer, or with a failure's status and text on standard
//! error.

ghost use Rattle.std.specs.Prelude.{◌≡◌};
ghost use Rattle.std.specs.Process.{exit_status};
ghost use Rattle.mcaudit.specs.Status.{exit_status_of_answer};

use crate::failure::Failure;
use crate::standard_error::ToStandardError;
use mc_cli::{AuditWords, Task};
use mc_commands::{RunFault, print_refused_files};
use mc_files::PieceSource;
use std::process::ExitCode;

/// The status of an answer: 0 for yes, 1 for no, and the failure's own where there is none.
fn exit_code_of(answer: &Result<bool, Failure>) -> ExitCode
    ensures { exit_status result ≡ exit_status_of_answer answer.now }
{
    match answer {
        Ok(true) => ExitCode::SUCCESS,
        Ok(false) => ExitCode::from(1),
        Err(failure) => ExitCode::from(failure.status()),
    }
}

/// Ends with the status of an answer. A failure is written to standard error.
pub(crate) fn end(rt: &impl Eprint, answer: Result<bool, Failure>) -> ExitCode
    ensures { exit_status result ≡ exit_status_of_answer answer }
{
    if let Err(failure) = &answer {
        let _ = eprintln!(rt; "{failure}");
    }
    exit_code_of(&answer)
}

/// Lists the refused files of an audit on standard error. Where memory runs out, the list ends.
fn list_refused_files(
    rt: &(impl AllocGlobal + Eprint),
    words: &AuditWords<'_>,
    files: &mut impl PieceSource,
) {
    let mut output = ToStandardError::new(rt);
    let _ = print_refused_files(rt.alloc(), files, &words.without, &mut output);
}

/// Writes an audit's failure to standard error: the name of an excluded router that the topology
/// doesn't have, or the fault followed by the refused files.
fn print_failure(
    rt: &(impl AllocGlobal + Eprint),
    words: &AuditWords<'_>,
    files: &mut impl PieceSource,
    failure: &Failure,
) {
    if let Failure::Run(RunFault::NoSuchRouter(place)) = failure {
        let name = words
            .without
            .get(place.saturating_sub(1) as usize)
            .unwrap_or(&"");
        let _ = eprintln!(rt; "refused: without: {name}");
        return;
    }
    let _ = eprintln!(rt; "{failure}");
    if is_input_failure(failure) {
        list_refused_files(rt, words, files);
    }
}

/// Whether the failure is that of the files or of reading them.
fn is_input_failure(failure: &Failure) -> bool {
    !matches!(
        failure,
        Failure::Words(_) | Failure::Run(RunFault::Write | RunFault::Memory)
    )
}

/// Ends with the status of an audit's answer. A failure is written to standard error, with the refused
/// files of the audit.
fn end_audit(
    rt: &(impl AllocGlobal + Eprint),
    words: &AuditWords<'_>,
    files: &mut impl PieceSource,
    answer: Result<bool, Failure>,
) -> ExitCode
    ensures { exit_status result ≡ exit_status_of_answer answer }
{
    let code = exit_code_of(&answer);
    if let Err(failure) = answer {
        print_failure(rt, words, files, &failure);
    }
    code
}

/// Ends with the status of a task's answer. A failure is written to standard error, with what the files
/// of an audit are refused for.
pub(crate) fn end_task(
    rt: &(impl AllocGlobal + Eprint),
    task: &Task<'_>,
    files: &mut impl PieceSource,
    answer: Result<bool, Failure>,
) -> ExitCode
    ensures { exit_status result ≡ exit_status_of_answer answer }
{
    match task {
        Task::Audit(words) => end_audit(rt, words, files, answer),
        _ => end(rt, answer),
    }
}
