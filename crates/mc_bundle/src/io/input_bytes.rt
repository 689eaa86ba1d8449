//! Reading a whole input, up to a limit.

ghost use Rattle.std.specs.Prelude.{◌≡◌, ◌<◌, ◌≤◌, ◌-◌, length, vec_len, take, IfOk, IfSome};
ghost use Rattle.std.specs.Prelude.{OnOk};
ghost use Rattle.std.specs.Io.KnownBytes.{Consumes, IsAtEnd};
ghost use Rattle.mc_bundle.specs.Device.{failures_after};
ghost use Rattle.mc_bundle.specs.ReadFault.{ConsumesUpTo, is_read, ReadsOnto};

use crate::io::device::Input;
use std::alloc::Global;

/// The greatest number of bytes that one call of `read` asks for.
const READ_SIZE: usize = 65_536;

/// Why an input could not be read.
#[derive(Clone, Copy, Debug, PartialEq, Eq)]
pub enum ReadFault {
    /// The input returned an error.
    Read,
    /// Memory ran out.
    Memory,
}

/// Reads until the end of the input, or until it has read `limit` bytes. It asks for at most 65,536
/// bytes at once, and never for a byte past the limit. The input's count of failures must be below
/// `u64::MAX`.
///
/// # Errors
///
/// `Read` at the first error of the input, and `Memory` if an allocation is refused, for the bytes or
/// for a buffer of 65,536 bytes. The bytes that were read are lost then.
pub fn read_to_limit<R: Input>(
    alloc: Global,
    input: &mut R,
    limit: usize,
) -> Result<Vec<u8>, ReadFault>
    requires failures { R.failed input.old < u64.MAX }
    ensures same { R.borrows input.new ≡ R.borrows input.old }
    ensures bound { IfOk result (λ bytes. vec_len bytes ≤ limit) }
    // All bytes that the input still had, or the first `limit` of them.
    ensures bytes { IfOk result
        (λ bytes. IfSome (R.remaining input.old) (λ text. bytes.items ≡ take limit text)) }
    // The rest stays in the input. If fewer bytes than the limit were read, it is empty.
    ensures rest { IfOk result
        (λ bytes. Consumes (R.remaining input.old) (R.remaining input.new) bytes.items) }
    // No more bytes than the limit are read, whatever the result.
    ensures consumed { ConsumesUpTo limit (R.remaining input.old) (R.remaining input.new) }
    ensures end { IfOk result (λ bytes. vec_len bytes < limit → IsAtEnd (R.remaining input.new)) }
    ensures failures { R.failed input.new ≡ failures_after is_read result (R.failed input.old) }
{
    // On the heap: inlined, an array would take room on the caller's stack as long as it runs.
    let Ok(mut buffer) = Vec::from_elem(alloc, 0u8, READ_SIZE) else {
        return Err(ReadFault::Memory);
    };
    let mut bytes = Vec::new(alloc);
    fill_to_limit(input, &mut bytes, limit, &mut buffer)?;
    Ok(bytes)
}

/// Appends bytes of the input, read through the buffer, until there are `limit` bytes or the input
/// ends.
fn fill_to_limit<R: Input>(
    input: &mut R,
    bytes: &mut Vec<u8>,
    limit: usize,
    buffer: &mut [u8],
) -> Result<(), ReadFault>
    requires room { 0 < length buffer.old }
    requires start { vec_len bytes.old ≤ limit }
    requires failures { R.failed input.old < u64.MAX }
    ensures same { R.borrows input.new ≡ R.borrows input.old }
    ensures bound { OnOk result (vec_len bytes.new ≤ limit) }
    ensures bytes { OnOk result
        (ReadsOnto (R.remaining input.old) (R.remaining input.new) bytes.old.items bytes.new.items) }
    ensures consumed { ConsumesUpTo
        (limit - length bytes.old.items) (R.remaining input.old) (R.remaining input.new) }
    ensures end { OnOk result (vec_len bytes.new < limit → IsAtEnd (R.remaining input.new)) }
    ensures failures { R.failed input.new ≡ failures_after is_read result (R.failed input.old) }
{
    'reading: while bytes.len() < limit {
        let room = buffer.len().min(limit - bytes.len());
        match input.read(&mut buffer[..room]) {
            Ok(0) => return Ok(()),
            Ok(count) => {
                if bytes.extend_from_slice(&buffer[..count]).is_err() {
                    return Err(ReadFault::Memory);
                }
            }
            Err(_) => return Err(ReadFault::Read),
        }
    }
    Ok(())
}
