//! Prints all refused files of a folder, with the fault of each and the front of the line that has it.

ghost use Rattle.std.specs.Prelude.{◌≡◌, ◌≢◌, ◌<◌, ◌++◌, ℕ, List, [], IfErr, IfOk, IfSome, OnOk, codes};
ghost use Rattle.std.specs.Prelude.{length, map, option_map, unwrap_or};
ghost use Rattle.std.specs.String.{string_bytes};
ghost use Rattle.mc_bundle.specs.Device.{failures_after};
ghost use Rattle.mc_files.specs.FilePart.{unread_text};
ghost use Rattle.mc_input.specs.declared.refused_file.Refusal.TheVariants.{Fault};
ghost use Rattle.mc_commands.specs.Failures.{is_write};
ghost use Rattle.mc_commands.specs.RefusalText.{AppendsWithFailures, AreFirst50Lines, AreRefusedFileLines};
ghost use Rattle.mc_commands.specs.RefusalText.{IsFrontText, IsReasonOfFile, IsRefusalReason};
ghost use Rattle.mc_commands.specs.RefusalText.{IsRefusedFileLine, IsRefusalText, IsTextWritten, more_line};
ghost use Rattle.mc_commands.specs.RefusalText.{quoted};

use crate::fault::RunFault;
use crate::refusals::fault_text::{ShownFault, line_of_fault};
use crate::refusals::line_front::front_of_line;
use crate::refusals::quoted::Quoted;
use mc_bundle::{Output, write_all};
use mc_files::{PieceSource, Unread};
use mc_input::{InputFault, PIECE, Refusal, RefusedFile, refused_files};
use mc_text::Memory;
use std::alloc::Global;

/// The most files that are printed.
const MAX_SHOWN_FILES: usize = 50;

/// Writes the front of a line in quotes; none is written as an empty one.
fn push_quoted(text: &mut String, front: &Option<Vec<u8>>) -> Result<(), Memory>
    ensures { OnOk result (string_bytes text.new ≡ string_bytes text.old ++ (codes ": \""
        ++ (quoted (unwrap_or (option_map (λ front. front.items) front.now) []) ++ codes "\""))) }
{
    match front {
        Some(front) => {
            let quoted = Quoted { bytes: front };
            write!(text, ": \"{quoted}\"").map_err(|_| Memory)
        }
        None => text.push_str(": \"\"").map_err(|_| Memory),
    }
}

/// Writes the front of the line of a file's fault, if the fault is in a line.
fn push_line_front<F: PieceSource>(
    alloc: Global,
    files: &mut F,
    buffer: &mut [u8],
    name: &str,
    line: Option<u32>,
    text: &mut String,
) -> Result<(), Memory>
    requires room { 0 < length buffer.old }
    ensures same { F.borrows files.new ≡ F.borrows files.old }
    ensures kept { F.contents files.new ≡ F.contents files.old }
    ensures adds { OnOk result (AppendsWithFailures (IsFrontText (F.contents files.old) name.now line)
        (string_bytes text.old) (string_bytes text.new) (F.failed files.old) (F.failed files.new)) }
{
    let Some(line) = line else {
        return Ok(());
    };
    let front = front_of_line(alloc, files, buffer, name, line)?;
    push_quoted(text, &front)
}

/// Writes the fault of a file's contents, and the front of its line.
fn push_fault<F: PieceSource>(
    alloc: Global,
    files: &mut F,
    buffer: &mut [u8],
    name: &str,
    fault: &InputFault,
    text: &mut String,
) -> Result<(), Memory>
    requires room { 0 < length buffer.old }
    ensures same { F.borrows files.new ≡ F.borrows files.old }
    ensures kept { F.contents files.new ≡ F.contents files.old }
    ensures adds { OnOk result (AppendsWithFailures (IsRefusalReason (F.contents files.old) name.now
        (Fault fault.now))
        (string_bytes text.old) (string_bytes text.new) (F.failed files.old) (F.failed files.new)) }
{
    let shown = ShownFault { fault };
    write!(text, "{shown}")?;
    push_line_front(alloc, files, buffer, name, line_of_fault(fault), text)
}

/// Writes why a file couldn't be read.
fn push_unread(alloc: Global, text: &mut String, unread: &Unread) -> Result<(), Memory>
    ensures { OnOk result ((words : List ℕ)
        × IfSome (unread_text unread.now) (λ known. words ≡ known)
        × (string_bytes text.new ≡ string_bytes text.old ++ words)) }
{
    let words = format!(in alloc; "{unread}")?;
    text.push_str(&words)?;
    Ok(())
}

/// Writes why a file is refused.
fn push_refusal<F: PieceSource>(
    alloc: Global,
    files: &mut F,
    buffer: &mut [u8],
    refused: &RefusedFile,
    text: &mut String,
) -> Result<(), Memory>
    requires room { 0 < length buffer.old }
    ensures same { F.borrows files.new ≡ F.borrows files.old }
    ensures kept { F.contents files.new ≡ F.contents files.old }
    ensures adds { OnOk result (AppendsWithFailures (IsReasonOfFile (F.contents files.old) refused.now)
        (string_bytes text.old) (string_bytes text.new) (F.failed files.old) (F.failed files.new)) }
{
    let name = refused.name.as_str();
    match &refused.refusal {
        Refusal::Unread(unread) => push_unread(alloc, text, unread),
        Refusal::Fault(fault) => push_fault(alloc, files, buffer, name, fault, text),
    }
}

/// Writes the line of a refused file.
fn push_refused_file<F: PieceSource>(
    alloc: Global,
    files: &mut F,
    buffer: &mut [u8],
    refused: &RefusedFile,
    text: &mut String,
) -> Result<(), Memory>
    requires room { 0 < length buffer.old }
    ensures same { F.borrows files.new ≡ F.borrows files.old }
    ensures kept { F.contents files.new ≡ F.contents files.old }
    ensures adds { OnOk result (AppendsWithFailures (IsRefusedFileLine (F.contents files.old) refused.now)
        (string_bytes text.old) (string_bytes text.new) (F.failed files.old) (F.failed files.new)) }
{
    let name = refused.name.as_str();
    write!(text, "  {name}: ")?;
    push_refusal(alloc, files, buffer, refused, text)?;
    text.push_str("\n")?;
    Ok(())
}

/// Writes a line for each of the files.
fn push_refused_files<F: PieceSource>(
    alloc: Global,
    files: &mut F,
    buffer: &mut [u8],
    refused: &[RefusedFile],
    text: &mut String,
) -> Result<(), Memory>
    requires room { 0 < length buffer.old }
    ensures same { F.borrows files.new ≡ F.borrows files.old }
    ensures kept { F.contents files.new ≡ F.contents files.old }
    ensures adds { OnOk result (AppendsWithFailures (AreRefusedFileLines (F.contents files.old) refused.now)
        (string_bytes text.old) (string_bytes text.new) (F.failed files.old) (F.failed files.new)) }
{
    for file in refused {
        push_refused_file(alloc, files, buffer, file, text)?;
    }
    Ok(())
}

/// Writes how many further files are refused, if there are any.
fn push_more_files(text: &mut String, more: usize) -> Result<(), Memory>
    ensures { OnOk result (string_bytes text.new ≡ string_bytes text.old ++ more_line more) }
{
    if more == 0 {
        return Ok(());
    }
    writeln!(text, "  and {more} more").map_err(|_| Memory)
}

/// Writes a line for each of the first 50 files, and how many further ones there are.
fn push_first_files<F: PieceSource>(
    alloc: Global,
    files: &mut F,
    refused: &[RefusedFile],
    text: &mut String,
) -> Result<(), Memory>
    ensures same { F.borrows files.new ≡ F.borrows files.old }
    ensures kept { F.contents files.new ≡ F.contents files.old }
    ensures adds { OnOk result (AppendsWithFailures (AreFirst50Lines (F.contents files.old) refused.now)
        (string_bytes text.old) (string_bytes text.new) (F.failed files.old) (F.failed files.new)) }
{
    let mut buffer = Vec::from_elem(alloc, 0u8, PIECE)?;
    let first = refused.len().min(MAX_SHOWN_FILES);
    push_refused_files(alloc, files, &mut buffer, &refused[..first], text)?;
    push_more_files(text, refused.len() - first)
}

/// A line for each refused file of a folder, in the order of a domain's files, with the first fault and
/// the front of the line that has it: at most 50 lines, and one with the number of further refused
/// files. If the topology is refused, it is the only one, since it names the other files. The text is
/// empty if no file is refused. The files of the routers with the names `without` aren't opened.
///
/// # Errors
///
/// `Memory` if an allocation fails.
pub fn refusal_lines<F: PieceSource>(
    alloc: Global,
    files: &mut F,
    without: &[&str],
) -> Result<String, Memory>
    ensures same { F.borrows files.new ≡ F.borrows files.old }
    ensures kept { F.contents files.new ≡ F.contents files.old }
    // The text has a line for each refused file, with its own first fault and the front of the fault's
    // line in the source's file.
    ensures text { IfOk result (λ text. IsRefusalText (map (λ name. name.now) without.now)
        (F.contents files.old) (F.failed files.old) (F.failed files.new) (string_bytes text)) }
{
    let refused = refused_files(alloc, files, without)?;
    let mut text = String::new(alloc);
    push_first_files(alloc, files, &refused, &mut text)?;
    Ok(text)
}

/// Writes the lines of [`refusal_lines`] to the output.
///
/// # Errors
///
/// `Memory` if an allocation fails, before anything is written; `Write` if the output fails, or takes
/// no byte of a nonempty text, after a part of the lines was written, from their front.
pub fn print_refused_files<F: PieceSource, W: Output>(
    alloc: Global,
    files: &mut F,
    without: &[&str],
    output: &mut W,
) -> Result<(), RunFault>
    requires writes { W.failed output.old < u64.MAX }
    ensures files_same { F.borrows files.new ≡ F.borrows files.old }
    ensures output_same { W.borrows output.new ≡ W.borrows output.old }
    ensures kept { F.contents files.new ≡ F.contents files.old }
    // The lines are written whole; a part of them after a `Write` fault; nothing after `Memory`.
    ensures printed { IsTextWritten (IsRefusalText (map (λ name. name.now) without.now)
        (F.contents files.old) (F.failed files.old) (F.failed files.new))
        result (W.written output.old) (W.written output.new) }
    // After any fault but `Write`, nothing was written.
    ensures unwritten { IfErr result (λ fault. fault ≢ RunFault.Write → output.new ≡ output.old) }
    ensures failures { W.failed output.new ≡ failures_after is_write result (W.failed output.old) }
{
    let Ok(lines) = refusal_lines(alloc, files, without) else {
        return Err(RunFault::Memory);
    };
    match write_all(output, lines.as_bytes()) {
        Ok(()) => Ok(()),
        Err(_) => Err(RunFault::Write),
    }
}
