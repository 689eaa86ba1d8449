//! Feeds files of a folder to their readers in pieces.

ghost use Rattle.std.specs.Prelude.{◌≡◌, ◌<◌, ◌≤◌, ◌+◌, ◌++◌, ℕ, List, [], Some, Err, false};
ghost use Rattle.std.specs.Prelude.{IfErr, IfOk, IfSome, OnOk, length};
ghost use Rattle.mc_bundle.specs.Bundle.{max_part};
ghost use Rattle.mc_bundle.specs.Device.{failures_after};
ghost use Rattle.mc_files.specs.FilePart.{IsFailedOrMemory, bytes_within_max_part};
ghost use Rattle.mc_files.specs.Files.{FileText, file_named, is_failure};
ghost use Rattle.mc_files.specs.Layout.{file_name};
ghost use Rattle.mc_input.specs.Feeding.{HasFedFile, SeesHeaderOrFile};

use mc_bundle::MAX_PART;
use mc_files::{FileFault, PieceSource, Slot};
use mc_text::PieceReader;
use std::alloc::Global;

/// Feeds a piece of a file to a reader, unless it is longer than the `left` bytes that the file may still
/// have. Answers how many bytes are left after it.
fn feed_piece<P: PieceReader>(reader: &mut P, piece: &[u8], left: usize) -> Result<usize, FileFault>
    ensures left { IfOk result (λ after. after + length piece.now ≡ left) }
    // Whatever bytes follow, the result is that of the piece and those bytes before the call.
    ensures fed { (more : List ℕ) → P.size reader.old + length (piece.now ++ more) ≤ max_part → OnOk result
        (P.result_after reader.new more ≡ P.result_after reader.old (piece.now ++ more)) }
    ensures size { P.size reader.new ≤ P.size reader.old + length piece.now }
    ensures too_large { IfErr result (λ fault. fault ≡ FileFault.TooLarge → left < length piece.now) }
    ensures no_failure { IfErr result (λ fault. is_failure fault ≡ false) }
{
    if piece.len() > left {
        return Err(FileFault::TooLarge);
    }
    if reader.take(piece).is_err() {
        return Err(FileFault::Memory);
    }
    Ok(left - piece.len())
}

/// Feeds the whole open file to a reader, in pieces through the buffer. A file that has more bytes than the
/// limit or can't be read is refused for that, whatever its text.
fn feed_open<F: PieceSource, P: PieceReader>(
    files: &mut F,
    buffer: &mut [u8],
    limit: usize,
    reader: &mut P,
) -> Result<(), FileFault>
    requires limit { limit ≤ max_part }
    requires room { 0 < length buffer.old }
    requires start { P.size reader.old ≡ 0 }
    requires reads { F.failed files.old < u64.MAX }
    ensures same { F.borrows files.new ≡ F.borrows files.old }
    ensures kept { F.contents files.new ≡ F.contents files.old }
    // The reader ends with the result of the whole file.
    ensures within { (bytes : List ℕ) → F.left files.old ≡ Some bytes → OnOk result
        ((length bytes ≤ limit) × (P.result_after reader.old bytes ≡ P.result_after reader.new [])) }
    ensures too_large { (bytes : List ℕ) → F.left files.old ≡ Some bytes → IfErr result (λ fault.
        fault ≡ FileFault.TooLarge → limit < length bytes) }
    ensures failures { F.failed files.new ≡ failures_after is_failure result (F.failed files.old) }
{
    let mut left = limit;
    'pieces: loop {
        let count = files.read_piece(buffer)?;
        if count == 0 {
            return Ok(());
        }
        left = feed_piece(reader, &buffer[..count], left)?;
    }
}

/// Feeds the file with this name to a reader, and closes it.
fn feed_file<F: PieceSource, P: PieceReader>(
    alloc: Global,
    files: &mut F,
    name: &str,
    buffer: &mut [u8],
    reader: &mut P,
) -> Result<(), FileFault>
    requires room { 0 < length buffer.old }
    requires start { P.size reader.old ≡ 0 }
    requires reads { F.failed files.old < u64.MAX }
    ensures same { F.borrows files.new ≡ F.borrows files.old }
    ensures kept { F.contents files.new ≡ F.contents files.old }
    ensures bytes { (contents : List FileText) → F.contents files.old ≡ Some contents → OnOk result
        (HasFedFile contents name.now (P.result_after reader.old) (P.result_after reader.new)) }
    ensures fault { (contents : List FileText) → F.contents files.old ≡ Some contents → IfErr result (λ fault.
        (¬ IsFailedOrMemory fault) → bytes_within_max_part (file_named contents name.now) ≡ Err fault) }
    ensures failures { F.failed files.new ≡ failures_after is_failure result (F.failed files.old) }
{
    files.open(alloc, name)?;
    let fed = feed_open(files, buffer, MAX_PART, reader);
    files.close();
    fed
}

/// Feeds a table's header to a reader.
fn feed_header<P: PieceReader>(header: &[u8], reader: &mut P) -> Result<(), FileFault>
    requires small { length header.now ≤ 100 }
    requires start { P.size reader.old ≡ 0 }
    ensures fed { OnOk result (P.result_after reader.old header.now ≡ P.result_after reader.new []) }
    ensures fault { IfErr result (λ fault. fault ≡ FileFault.Memory) }
{
    match reader.take(header) {
        Ok(()) => Ok(()),
        Err(_) => Err(FileFault::Memory),
    }
}

/// Feeds this header to a reader, if there is one, or else the slot's file. The files are seen with the
/// header in that file's place.
pub(crate) fn feed_header_or_file<F: PieceSource, P: PieceReader>(
    alloc: Global,
    files: &mut F,
    slot: &Slot<'_>,
    header: Option<&[u8]>,
    buffer: &mut [u8],
    reader: &mut P,
) -> Result<(), FileFault>
    requires small { IfSome header (λ header. length header.now ≤ 100) }
    requires room { 0 < length buffer.old }
    requires start { P.size reader.old ≡ 0 }
    requires reads { F.failed files.old < u64.MAX }
    ensures same { F.borrows files.new ≡ F.borrows files.old }
    ensures kept { F.contents files.new ≡ F.contents files.old }
    ensures bytes { (contents seen : List FileText) → F.contents files.old ≡ Some contents →
        SeesHeaderOrFile contents seen slot.now header.entry → OnOk result
        (HasFedFile seen (file_name slot.now) (P.result_after reader.old) (P.result_after reader.new)) }
    ensures fault { (contents seen : List FileText) → F.contents files.old ≡ Some contents →
        SeesHeaderOrFile contents seen slot.now header.entry → IfErr result (λ fault.
        (¬ IsFailedOrMemory fault) →
        bytes_within_max_part (file_named seen (file_name slot.now)) ≡ Err fault) }
    ensures failures { F.failed files.new ≡ failures_after is_failure result (F.failed files.old) }
{
    match header {
        Some(header) => feed_header(header, reader),
        None => {
            let file = slot.file_name(alloc)?;
            feed_file(alloc, files, &file, buffer, reader)
        }
    }
}
