//! Reads the front of one line of a file, whose bytes come in pieces.

ghost use Rattle.std.specs.Prelude.{◌≡◌, ◌≢◌, ◌<◌, ◌≤◌, ◌∷◌, ℕ, List, [], Some, IfErr, IfOk, IfSome};
ghost use Rattle.std.specs.Prelude.{OnOk, length, option_map, take, vec_len};
ghost use Rattle.mc_bundle.specs.Device.{failures_after};
ghost use Rattle.mc_files.specs.Files.{is_failure};
ghost use Rattle.mc_input.specs.RefusedFiles.{saturating_failures};
ghost use Rattle.mc_commands.specs.LineFront.{TakesPiece, front_after_more, line_front};
ghost use Rattle.mc_commands.specs.RefusalText.{IsFrontInFile, lost_calls};

use mc_bundle::MAX_PART;
use mc_files::{FileFault, PieceSource};
use mc_text::Memory;
use std::alloc::Global;

/// The most bytes of a line that are printed.
const MAX_SHOWN: usize = 100;

/// The front of a line, as far as its bytes came.
#[derive(Drop)]
pub(crate) struct LineFront {
    /// The number of line feeds that still come before the line.
    before: u32,
    /// The bytes of the line so far.
    front: Vec<u8>,
}

impl LineFront {
    /// The empty front of the line with this number, counted from 1; 0 means the first line too.
    fn new(alloc: Global, line: u32) -> LineFront
        ensures bounded { vec_len result.front ≤ MAX_SHOWN }
        ensures front { (text : List ℕ) → front_after_more result text ≡ line_front line text }
    {
        LineFront {
            before: line.saturating_sub(1),
            front: Vec::new(alloc),
        }
    }

    /// Takes the next byte of the line itself, and returns whether the front is complete.
    fn take_shown(&mut self, byte: u8) -> Result<bool, Memory>
        requires here { self.old.before ≡ 0 }
        requires bounded { vec_len self.old.front ≤ MAX_SHOWN }
        ensures bounded { vec_len self.new.front ≤ MAX_SHOWN }
        ensures takes { IfOk result (TakesPiece self.old self.new (byte ∷ [])) }
    {
        if byte == b'\n' {
            return Ok(true);
        }
        if self.front.len() >= MAX_SHOWN {
            return Ok(true);
        }
        self.front.push(byte)?;
        Ok(false)
    }

    /// Takes the next byte of the text, and returns whether the front is complete.
    fn take_byte(&mut self, byte: u8) -> Result<bool, Memory>
        requires bounded { vec_len self.old.front ≤ MAX_SHOWN }
        ensures bounded { vec_len self.new.front ≤ MAX_SHOWN }
        ensures takes { IfOk result (TakesPiece self.old self.new (byte ∷ [])) }
    {
        if self.before == 0 {
            return self.take_shown(byte);
        }
        if byte == b'\n' {
            self.before -= 1;
        }
        Ok(false)
    }

    /// Takes the next piece of the text, and returns whether the front is complete.
    fn take(&mut self, piece: &[u8]) -> Result<bool, Memory>
        requires bounded { vec_len self.old.front ≤ MAX_SHOWN }
        ensures bounded { vec_len self.new.front ≤ MAX_SHOWN }
        ensures takes { IfOk result (TakesPiece self.old self.new piece.now) }
    {
        for byte in piece {
            if self.take_byte(*byte)? {
                return Ok(true);
            }
        }
        Ok(false)
    }

    /// The bytes of the front.
    fn into_front(self) -> Vec<u8>
        ensures { result.items ≡ self.front.items }
    {
        let LineFront { before: _, front } = self;
        front
    }
}

/// Reads the front from the open file, of which it reads at most the size of a bundle's part.
fn seek_front<F: PieceSource>(
    files: &mut F,
    buffer: &mut [u8],
    sought: &mut LineFront,
) -> Result<(), FileFault>
    requires reads { F.failed files.old < u64.MAX }
    requires room { 0 < length buffer.old }
    requires bounded { vec_len sought.old.front ≤ MAX_SHOWN }
    ensures same { F.borrows files.new ≡ F.borrows files.old }
    ensures kept { F.contents files.new ≡ F.contents files.old }
    ensures bounded { vec_len sought.new.front ≤ MAX_SHOWN }
    ensures front { (text : List ℕ) → F.left files.old ≡ Some text →
        OnOk result (sought.new.front.items ≡ front_after_more sought.old (take MAX_PART text)) }
    ensures fault { IfErr result (λ fault. fault ≢ FileFault.TooLarge) }
    ensures failures { F.failed files.new ≡ failures_after is_failure result (F.failed files.old) }
{
    let mut left = MAX_PART;
    'reading: while 0 < left {
        let room = buffer.len().min(left);
        match files.read_piece(&mut buffer[..room]) {
            Ok(0) => return Ok(()),
            Ok(count) => {
                left -= count;
                match sought.take(&buffer[..count]) {
                    Ok(false) => {}
                    Ok(true) => return Ok(()),
                    Err(Memory) => return Err(FileFault::Memory),
                }
            }
            Err(fault) => return Err(fault),
        }
    }
    Ok(())
}

/// The front of a line of the open file, which it closes; none if the source fails to give it.
fn front_in_open_file<F: PieceSource>(
    alloc: Global,
    files: &mut F,
    buffer: &mut [u8],
    line: u32,
) -> Result<Option<Vec<u8>>, Memory>
    requires reads { F.failed files.old < u64.MAX }
    requires room { 0 < length buffer.old }
    ensures same { F.borrows files.new ≡ F.borrows files.old }
    ensures kept { F.contents files.new ≡ F.contents files.old }
    ensures bounded { IfOk result (λ found. IfSome found (λ front. length front.items ≤ MAX_SHOWN)) }
    ensures front { (text : List ℕ) → F.left files.old ≡ Some text → IfOk result (λ found.
        IfSome found (λ front. front.items ≡ line_front line (take MAX_PART text))) }
    ensures failures { IfOk result (λ found. F.failed files.new
        ≡ saturating_failures (lost_calls (option_map (λ front. front.items) found)) (F.failed files.old)) }
{
    let mut sought = LineFront::new(alloc, line);
    let found = seek_front(files, buffer, &mut sought);
    files.close();
    match found {
        Ok(()) => Ok(Some(sought.into_front())),
        Err(FileFault::Memory) => Err(Memory),
        Err(_) => Ok(None),
    }
}

/// The front of the line with this number, counted from 1, of the file with this name: at most 100
/// bytes; none if the source fails to give the file.
///
/// # Errors
///
/// `Memory` if an allocation fails.
pub(crate) fn front_of_line<F: PieceSource>(
    alloc: Global,
    files: &mut F,
    buffer: &mut [u8],
    name: &str,
    line: u32,
) -> Result<Option<Vec<u8>>, Memory>
    requires room { 0 < length buffer.old }
    ensures same { F.borrows files.new ≡ F.borrows files.old }
    ensures kept { F.contents files.new ≡ F.contents files.old }
    ensures front { IfOk result (λ found. IfSome (option_map (λ front. front.items) found)
        (IsFrontInFile (F.contents files.old) name.now line)) }
    ensures failures { IfOk result (λ found. F.failed files.new
        ≡ saturating_failures (lost_calls (option_map (λ front. front.items) found)) (F.failed files.old)) }
{
    if files.failures() == u64::MAX {
        return Ok(None);
    }
    match files.open(alloc, name) {
        Ok(()) => front_in_open_file(alloc, files, buffer, line),
        Err(FileFault::Memory) => Err(Memory),
        Err(_) => Ok(None),
    }
}
