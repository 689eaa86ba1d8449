//! mcaudit: an auditor of the multicast forwarding state of a domain of Linux routers.
#![tactic(auto)]

ghost use Rattle.std.specs.Prelude.{◌≡◌, ◌<◌, IfErr, IfOk};
ghost use Rattle.mc_cli.specs.Task.{IsAllowed};

mod end;
mod failure;
mod folder;
mod standard_error;

use end::{end, end_task};
use failure::Failure;
use folder::folder_of;
use mc_bundle::{FromReader, ToWriter};
use mc_cli::{Task, borrow_words, command_of, words_of};
use mc_commands::RunFault;
use mc_files::PieceSource;
use mc_run::run_task;
use std::env::Env;
use std::io::{self, BufReader, Input, Read};
use std::process::ExitCode;
use std::rt::Files;

/// An input over a reader with a buffer of 8,192 bytes, since a bundle's lines are read byte by byte.
fn buffered_input<R: Read + Drop>(
    rt: &impl AllocGlobal,
    reader: R,
) -> Result<FromReader<BufReader<R>>, RunFault>
    ensures remaining { IfOk result (λ input. input.remaining ≡ R.remaining reader) }
    ensures failures { IfOk result (λ input. input.failed ≡ 0) }
    ensures memory { IfErr result (λ fault. fault ≡ RunFault.Memory) }
{
    match BufReader::new(rt.alloc(), reader) {
        Ok(reader) => Ok(FromReader::new(reader)),
        Err(_) => Err(RunFault::Memory),
    }
}

/// Does a task that reads its input in large pieces, or not at all.
fn run_unbuffered<F: PieceSource>(
    rt: &(impl AllocGlobal + Input + Print),
    task: &Task<'_>,
    files: &mut F,
) -> Result<bool, RunFault>
    requires allowed { IsAllowed task.now }
    requires reads_files { F.failed files.old < u64.MAX }
{
    let mut input = FromReader::new(rt.reader());
    let mut output = ToWriter::new(io::writer(rt));
    run_task(rt.alloc(), task, &mut input, files, &mut output)
}

/// Does a task that reads a bundle, through a buffer.
fn run_buffered<F: PieceSource>(
    rt: &(impl AllocGlobal + Input + Print),
    task: &Task<'_>,
    files: &mut F,
) -> Result<bool, RunFault>
    requires allowed { IsAllowed task.now }
    requires reads_files { F.failed files.old < u64.MAX }
{
    let mut input = buffered_input(rt, rt.reader())?;
    let mut output = ToWriter::new(io::writer(rt));
    run_task(rt.alloc(), task, &mut input, files, &mut output)
}

/// Does the task, over the standard streams and the files of its folder.
fn run<F: PieceSource>(
    rt: &(impl AllocGlobal + Input + Print),
    task: &Task<'_>,
    files: &mut F,
) -> Result<bool, Failure>
    requires allowed { IsAllowed task.now }
    requires reads_files { F.failed files.old < u64.MAX }
{
    let answer = match task {
        Task::Check | Task::Make | Task::Replay { .. } => run_buffered(rt, task, files),
        _ => run_unbuffered(rt, task, files),
    };
    Ok(answer?)
}

/// Does a task and ends with its answer's status. One source gives the files to its run and to the list
/// of those that are refused, so that both are of one folder.
fn run_and_end(
    rt: &(impl AllocGlobal + Files + Input + Print + Eprint),
    task: &Task<'_>,
) -> ExitCode
    requires { IsAllowed task.now }
{
    let mut files = folder_of(rt, task);
    let answer = run(rt, task, &mut files);
    end_task(rt, task, &mut files, answer)
}

/// Does the task of the command line.
fn run_command_line<'a>(
    rt: &(impl Env + AllocGlobal + Files + Input + Print + Eprint),
    words: &'a [&'a str],
) -> Result<ExitCode, Failure> {
    let task = command_of(rt.alloc(), words)?;
    Ok(run_and_end(rt, &task))
}

fn try_main(
    rt: &(impl Env + AllocGlobal + Files + Input + Print + Eprint),
) -> Result<ExitCode, Failure> {
    let words = words_of(rt)?;
    let words = borrow_words(rt.alloc(), &words)?;
    run_command_line(rt, &words)
}

fn main(rt: HostRuntime) -> ExitCode {
    match try_main(&rt) {
        Ok(code) => code,
        Err(failure) => end(&rt, Err(failure)),
    }
}
