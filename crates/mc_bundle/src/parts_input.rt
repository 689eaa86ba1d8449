//! The pieces of a bundle, read from an input: its lines, and the rest of a part.

ghost use Rattle.std.specs.Prelude.{◌≡◌, ◌+◌, ◌<◌, ◌≤◌, length, take, min, IfOk, IfErr};
ghost use Rattle.std.specs.Prelude.{Ok, Err, Some, None, IfSome, option_map, ℕ, List, [], ◌∷◌, Option};
ghost use Rattle.std.specs.Io.KnownBytes.{Consumes, IsAtEnd};
ghost use Rattle.mc_bundle.specs.BundleFaults.{IsFramingFault, IsInputFault};
ghost use Rattle.mc_bundle.specs.BundleReading.{line_at as line_of};
ghost use Rattle.mc_bundle.specs.Device.{failures_after};
ghost use Rattle.mc_bundle.specs.PartsReading.{ReadsAs, magic_of, rest_of_part, opened_end, opened_part};
ghost use Rattle.mc_bundle.specs.PartsReading.{is_read, opened_next, opened_at};
ghost use Rattle.mc_bundle.specs.PartsLimits.{ConsumesWithin, bytes_before_line, max_to_come_in};
ghost use Rattle.mc_bundle.specs.PartsLimits.{max_to_come_after};
ghost use Rattle.mc_bundle.specs.ReadFault.{ConsumesUpTo};

use crate::bundle::{END_LINE, MAGIC, MAX_PART};
use crate::bundle_fault::BundleFault;
use crate::io::Input;
use crate::part_line::{MAX_LINE, parse_part_line};
use crate::part_name::PartName;
use crate::stage::OpenPart;

/// The length of the first line, with its line feed.
const MAGIC_LEN: usize = 17;

/// Reads until the buffer is full or the input ends, and returns how many bytes were read.
pub(crate) fn fill_buffer<R: Input>(input: &mut R, buffer: &mut [u8]) -> Result<usize, BundleFault>
    requires failures { R.failed input.old < u64.MAX }
    ensures same { R.borrows input.new ≡ R.borrows input.old }
    ensures bound { IfOk result (λ count. count ≤ length buffer.new) }
    ensures bytes { IfOk result
        (λ count. Consumes (R.remaining input.old) (R.remaining input.new) (take count buffer.new)) }
    ensures end { IfOk result (λ count. count < length buffer.new → IsAtEnd (R.remaining input.new)) }
    ensures consumed { ConsumesUpTo (length buffer.new) (R.remaining input.old) (R.remaining input.new) }
    ensures fault { IfErr result (λ fault. fault ≡ BundleFault.Read) }
    ensures failures { R.failed input.new ≡ failures_after is_read result (R.failed input.old) }
{
    let mut count = 0;
    'filling: while count < buffer.len() {
        match input.read(&mut buffer[count..]) {
            Ok(0) => return Ok(count),
            Ok(more) => count += more,
            Err(_) => return Err(BundleFault::Read),
        }
    }
    Ok(count)
}

/// Reads the first line.
pub(crate) fn read_magic<R: Input>(input: &mut R) -> Result<(), BundleFault>
    requires failures { R.failed input.old < u64.MAX }
    ensures same { R.borrows input.new ≡ R.borrows input.old }
    ensures reads { ReadsAs (λ x. x) (R.remaining input.old) (R.remaining input.new) result magic_of }
    ensures consumed { ConsumesUpTo MAGIC_LEN (R.remaining input.old) (R.remaining input.new) }
    ensures faults { IfErr result IsInputFault }
    ensures failures { R.failed input.new ≡ failures_after is_read result (R.failed input.old) }
{
    let mut line = [0u8; MAGIC_LEN];
    let count = fill_buffer(input, &mut line)?;
    if &line[..count] != MAGIC {
        return Err(BundleFault::NoMagic);
    }
    Ok(())
}

/// Reads the next byte, if there is one.
fn next_byte<R: Input>(input: &mut R) -> Result<Option<u8>, BundleFault>
    requires failures { R.failed input.old < u64.MAX }
    ensures same { R.borrows input.new ≡ R.borrows input.old }
    ensures none { IfOk result (λ byte. byte ≡ None →
        Consumes (R.remaining input.old) (R.remaining input.new) [] × IsAtEnd (R.remaining input.new)) }
    ensures some { IfOk result (λ byte. IfSome byte (λ b.
        Consumes (R.remaining input.old) (R.remaining input.new) (b ∷ []))) }
    ensures consumed { ConsumesUpTo 1 (R.remaining input.old) (R.remaining input.new) }
    ensures fault { IfErr result (λ fault. fault ≡ BundleFault.Read) }
    ensures failures { R.failed input.new ≡ failures_after is_read result (R.failed input.old) }
{
    let mut byte = [0u8; 1];
    match input.read(&mut byte) {
        Ok(0) => Ok(None),
        Ok(_) => Ok(Some(byte[0])),
        Err(_) => Err(BundleFault::Read),
    }
}

/// Reads a line without its line feed to the front of the buffer, and returns its length.
fn read_line<R: Input>(input: &mut R, line: &mut [u8; MAX_LINE]) -> Result<usize, BundleFault>
    requires failures { R.failed input.old < u64.MAX }
    ensures same { R.borrows input.new ≡ R.borrows input.old }
    ensures bound { IfOk result (λ count. count < MAX_LINE) }
    ensures reads { ReadsAs (λ count. take count line.new) (R.remaining input.old)
        (R.remaining input.new) result
        line_of }
    ensures consumed { ConsumesUpTo MAX_LINE (R.remaining input.old) (R.remaining input.new) }
    ensures taken { IfOk result
        (λ number. ConsumesUpTo (number + 1) (R.remaining input.old) (R.remaining input.new)) }
    ensures faults { IfErr result IsInputFault }
    ensures failures { R.failed input.new ≡ failures_after is_read result (R.failed input.old) }
{
    let mut count = 0;
    'bytes: while count < MAX_LINE {
        match next_byte(input)? {
            None => return Err(BundleFault::NoEnd),
            Some(b'\n') => return Ok(count),
            Some(byte) => {
                line[count] = byte;
                count += 1;
            }
        }
    }
    Err(BundleFault::BadPartLine)
}

/// Skips the rest of a part, `left` bytes, and its line feed.
pub(crate) fn skip_rest<R: Input>(input: &mut R, left: usize) -> Result<(), BundleFault>
    requires failures { R.failed input.old < u64.MAX }
    ensures same { R.borrows input.new ≡ R.borrows input.old }
    ensures reads { ReadsAs (λ x. x) (R.remaining input.old) (R.remaining input.new) result
        (rest_of_part left) }
    ensures consumed { ConsumesUpTo (left + 1) (R.remaining input.old) (R.remaining input.new) }
    ensures faults { IfErr result IsInputFault }
    ensures failures { R.failed input.new ≡ failures_after is_read result (R.failed input.old) }
{
    let mut buffer = [0u8; 4096];
    let mut unread = left;
    'skipping: while unread > 0 {
        let size = unread.min(buffer.len());
        if fill_buffer(input, &mut buffer[..size])? < size {
            return Err(BundleFault::Truncated);
        }
        unread -= size;
    }
    match next_byte(input)? {
        None => Err(BundleFault::Truncated),
        Some(b'\n') => Ok(()),
        Some(_) => Err(BundleFault::BadPartLine),
    }
}

/// Checks that there is room for the line `end`, and that nothing follows it.
fn read_end<R: Input>(input: &mut R, room: usize) -> Result<(), BundleFault>
    requires failures { R.failed input.old < u64.MAX }
    ensures same { R.borrows input.new ≡ R.borrows input.old }
    ensures reads { ReadsAs (λ _. None) (R.remaining input.old) (R.remaining input.new) result
        (opened_end room) }
    ensures consumed { ConsumesUpTo 1 (R.remaining input.old) (R.remaining input.new) }
    ensures faults { IfErr result IsInputFault }
    ensures failures { R.failed input.new ≡ failures_after is_read result (R.failed input.old) }
{
    if room < END_LINE.len() {
        return Err(BundleFault::TooLarge);
    }
    match next_byte(input)? {
        None => Ok(()),
        Some(_) => Err(BundleFault::AfterEnd),
    }
}

/// The part that a line with this header opens, if it is within the limits.
fn open_part(
    parts: usize,
    room: usize,
    line: &[u8],
    header: Option<(PartName, u64)>,
) -> Result<OpenPart, BundleFault>
    requires bounded { length line.now < MAX_LINE }
    ensures opened { (exact : Option (List ℕ × ℕ)) →
        header ≡ option_map (λ s. (s.0, min s.1 u64.MAX)) exact →
        result ≡ opened_part parts room line.now exact }
    ensures faults { IfErr result IsFramingFault }
    ensures bound { IfOk result (λ part. part.size ≤ MAX_PART) }
    ensures fewer { IfOk result (λ part. part.parts < parts) }
    ensures room { IfOk result
        (λ part. length line.now + 1 + max_to_come_in part ≡ room + MAX_LINE) }
{
    let Some((name, size)) = header else {
        return Err(BundleFault::BadPartLine);
    };
    if parts == 0 || size > MAX_PART as u64 {
        return Err(BundleFault::TooLarge);
    }
    let size = size as usize;
    let taken = line.len() + 1 + (size + 1);
    if room < taken {
        return Err(BundleFault::TooLarge);
    }
    Ok(OpenPart {
        name,
        size,
        parts: parts - 1,
        room: room - taken,
    })
}

/// Reads a part's line, or the line `end`, where so many parts and bytes may still come.
pub(crate) fn open_next<R: Input>(
    input: &mut R,
    parts: usize,
    room: usize,
) -> Result<Option<OpenPart>, BundleFault>
    requires failures { R.failed input.old < u64.MAX }
    ensures same { R.borrows input.new ≡ R.borrows input.old }
    ensures reads { ReadsAs (λ o. o) (R.remaining input.old) (R.remaining input.new) result
        (opened_at parts room) }
    ensures bound { IfOk result (λ found. IfSome found (λ part. part.size ≤ MAX_PART)) }
    ensures fewer { IfOk result (λ found. IfSome found (λ part. part.parts < parts)) }
    ensures consumed { ConsumesWithin
        (room + MAX_LINE) (max_to_come_after result) (R.remaining input.old) (R.remaining input.new) }
    ensures faults { IfErr result IsInputFault }
    ensures failures { R.failed input.new ≡ failures_after is_read result (R.failed input.old) }
{
    let mut buffer = [0u8; MAX_LINE];
    let count = read_line(input, &mut buffer)?;
    let line = &buffer[..count];
    if line == b"end".as_slice() {
        read_end(input, room)?;
        return Ok(None);
    }
    let open = open_part(parts, room, line, parse_part_line(line))?;
    Ok(Some(open))
}

/// Skips the first line, or the rest of a part, and reads the next part's line.
pub(crate) fn read_next<R: Input>(
    input: &mut R,
    start: bool,
    left: usize,
    parts: usize,
    room: usize,
) -> Result<Option<OpenPart>, BundleFault>
    requires failures { R.failed input.old < u64.MAX }
    ensures same { R.borrows input.new ≡ R.borrows input.old }
    ensures reads { ReadsAs (λ o. o) (R.remaining input.old) (R.remaining input.new) result
        (opened_next start left parts room) }
    ensures bound { IfOk result (λ found. IfSome found (λ part. part.size ≤ MAX_PART)) }
    ensures fewer { IfOk result (λ found. IfSome found (λ part. part.parts < parts)) }
    ensures consumed { ConsumesWithin (bytes_before_line start left + (room + MAX_LINE))
        (max_to_come_after result) (R.remaining input.old) (R.remaining input.new) }
    ensures faults { IfErr result IsInputFault }
    ensures failures { R.failed input.new ≡ failures_after is_read result (R.failed input.old) }
{
    if start {
        read_magic(input)?;
    } else {
        skip_rest(input, left)?;
    }
    open_next(input, parts, room)
}
