//! `mcaudit wants`: whether the LAN whose reports are read wants what a source sends to a group.

ghost use Rattle.std.specs.Prelude.{◌≡◌, ◌≢◌, ◌⊎◌, ◌+◌, ◌<◌, IfOk, IfErr, IfSome, OnOk, Err, length, min};
ghost use Rattle.std.specs.Io.KnownBytes.{Appends, IsAtEnd};
ghost use Rattle.mc_text.specs.Lines.{max_text};
ghost use Rattle.mc_bundle.specs.ReadFault.{ConsumesUpTo};
ghost use Rattle.mc_bundle.specs.Device.{failures_after};
ghost use Rattle.mc_commands.specs.Failures.{is_read, is_write};
ghost use Rattle.mc_commands.specs.Faults.{IsFaultOfWants};
ghost use Rattle.mc_commands.specs.WantsRun.{answer_line, AnswersWants, WritesPartOfLine};
ghost use Rattle.mc_commands.specs.WantsSoFar.{ReadsPiece, ReadsPieces};

use crate::fault::RunFault;
use mc_bundle::{Input, Output, write_all};
use mc_filter::is_wanted;
use mc_igmp::ListReader;
use mc_text::{Addr, Memory};
use std::alloc::Global;

/// The number of bytes that are read from the input at once.
const PIECE: usize = 65_536;

/// Reads the records of the lines that end in a piece, and returns whether one of them wants what the
/// source sends to the group.
fn wanted_in_piece(
    reader: &mut ListReader,
    piece: &[u8],
    group: Addr,
    source: Addr,
) -> Result<bool, Memory>
    ensures pieces_read { IfOk result (λ wanted.
        ReadsPiece reader.old reader.new piece.now group source wanted) }
    ensures size { OnOk result
        (reader.new.size ≡ min (reader.old.size + length piece.now) (max_text + 1)) }
{
    reader.feed(piece)?;
    let wanted = is_wanted(reader.records(), group, source);
    reader.forget_records();
    Ok(wanted)
}

/// Reads the records of all complete lines, until the input ends or the list is too large. Returns
/// whether one of them wants what the source sends to the group.
fn wanted_in_pieces<R: Input>(
    input: &mut R,
    buffer: &mut [u8],
    reader: &mut ListReader,
    group: Addr,
    source: Addr,
) -> Result<bool, RunFault>
    requires room { 0 < length buffer.old }
    requires start { reader.old.size ≡ 0 }
    requires failures { R.failed input.old < u64.MAX }
    ensures same { R.borrows input.new ≡ R.borrows input.old }
    ensures pieces_read { IfOk result (λ wanted. ReadsPieces (R.remaining input.old) (R.remaining input.new)
        reader.old reader.new group source wanted) }
    ensures end { OnOk result (reader.new.size < max_text + 1 → IsAtEnd (R.remaining input.new)) }
    ensures consumed { ConsumesUpTo (max_text + 1) (R.remaining input.old) (R.remaining input.new) }
    ensures kind { IfErr result (λ fault.
        (fault ≡ RunFault.Read) ⊎ (fault ≡ RunFault.Memory)) }
    ensures failures { R.failed input.new ≡ failures_after is_read result (R.failed input.old) }
{
    let mut wanted = false;
    'reading: while 0 < reader.room() {
        let room = buffer.len().min(reader.room());
        match input.read(&mut buffer[..room]) {
            Ok(0) => return Ok(wanted),
            Ok(count) => wanted |= wanted_in_piece(reader, &buffer[..count], group, source)?,
            Err(_) => return Err(RunFault::Read),
        }
    }
    Ok(wanted)
}

/// Whether some record of the input's list wants what the source sends to the group.
fn wanted_in_input<R: Input>(
    alloc: Global,
    group: Addr,
    source: Addr,
    input: &mut R,
) -> Result<bool, RunFault>
    requires failures { R.failed input.old < u64.MAX }
    ensures same { R.borrows input.new ≡ R.borrows input.old }
    ensures answer { IfSome (R.remaining input.old) (λ text. AnswersWants text group source result) }
    ensures consumed { ConsumesUpTo (max_text + 1) (R.remaining input.old) (R.remaining input.new) }
    ensures kind { IfErr result (λ fault. fault ≢ RunFault.Write) }
    ensures faults { IfErr result IsFaultOfWants }
    ensures failures { R.failed input.new ≡ failures_after is_read result (R.failed input.old) }
{
    let Ok(mut buffer) = Vec::from_elem(alloc, 0u8, PIECE) else {
        return Err(RunFault::Memory);
    };
    let mut reader = ListReader::new(alloc);
    let wanted = wanted_in_pieces(input, &mut buffer, &mut reader, group, source)?;
    let last = reader.finish()?;
    let wanted_by_last = is_wanted(last.records(), group, source);
    Ok(wanted | wanted_by_last)
}

/// The line of the answer.
fn answer_text(wanted: bool) -> &'static str
    ensures { result.now ≡ answer_line wanted }
{
    if wanted { "wanted\n" } else { "not wanted\n" }
}

/// Reads a report list of one LAN from the input, at most 16,777,216 bytes, and writes `wanted` or
/// `not wanted` with a line feed to the output. Returns whether the LAN wants what the source sends to
/// the group.
///
/// # Errors
///
/// The first fault of the list; `Read` or `Write` if a device fails, and `Memory` if an allocation
/// fails. Only `Write` may leave a part of the line written.
pub fn run_wants<R: Input, W: Output>(
    alloc: Global,
    group: Addr,
    source: Addr,
    input: &mut R,
    output: &mut W,
) -> Result<bool, RunFault>
    requires reads { R.failed input.old < u64.MAX }
    requires writes { W.failed output.old < u64.MAX }
    ensures input_same { R.borrows input.new ≡ R.borrows input.old }
    ensures output_same { W.borrows output.new ≡ W.borrows output.old }
    // The answer is right, or is the first fault of the list.
    ensures answer { IfSome (R.remaining input.old) (λ text. AnswersWants text group source result) }
    // At most the size of the greatest list and one byte is read, whatever the answer.
    ensures consumed { ConsumesUpTo (max_text + 1) (R.remaining input.old) (R.remaining input.new) }
    // After an answer, its line is written whole.
    ensures written { IfOk result (λ wanted.
        Appends (W.written output.old) (W.written output.new) (answer_line wanted)) }
    // After a `Write` fault, a proper part of the line was written, from its front.
    ensures part { result ≡ Err RunFault.Write
        → WritesPartOfLine (R.remaining input.old) group source (W.written output.old)
        (W.written output.new) }
    // After any fault but `Write`, nothing was written.
    ensures unwritten { IfErr result (λ fault. fault ≢ RunFault.Write → output.new ≡ output.old) }
    // A fault is the list's, a device's, or `Memory`.
    ensures faults { IfErr result IsFaultOfWants }
    // `Read` and `Write` come only where a call of that device failed.
    ensures read_failures { R.failed input.new ≡ failures_after is_read result (R.failed input.old) }
    ensures write_failures { W.failed output.new ≡ failures_after is_write result (W.failed output.old) }
{
    let wanted = wanted_in_input(alloc, group, source, input)?;
    match write_all(output, answer_text(wanted).as_bytes()) {
        Ok(()) => Ok(wanted),
        Err(_) => Err(RunFault::Write),
    }
}
