//! Writing a whole text.

ghost use Rattle.std.specs.Prelude.{◌≡◌, ◌<◌, flat_map, OnOk, OnErr};
ghost use Rattle.std.specs.Io.KnownBytes.{Appends};
ghost use Rattle.mc_bundle.specs.Device.{failures_after, is_failure, AppendsProperPrefix};

use crate::io::device::{DeviceFault, Output};

/// Writes the whole text, by as many calls of `write` as it takes. The output's count of failures
/// must be below `u64::MAX`.
///
/// # Errors
///
/// The first call of `write` that returns an error or writes no byte. A proper prefix of the text was
/// written then.
pub fn write_all<W: Output>(output: &mut W, text: &[u8]) -> Result<(), DeviceFault>
    requires failures { W.failed output.old < u64.MAX }
    ensures same { W.borrows output.new ≡ W.borrows output.old }
    ensures ok { OnOk result (Appends (W.written output.old) (W.written output.new) text.now) }
    ensures err { OnErr result (AppendsProperPrefix (W.written output.old) (W.written output.new) text.now) }
    ensures failures { W.failed output.new ≡ failures_after is_failure result (W.failed output.old) }
{
    let mut taken = 0;
    while taken < text.len() {
        match output.write(&text[taken..]) {
            Ok(0) => return Err(DeviceFault),
            Ok(count) => taken += count,
            Err(fault) => return Err(fault),
        }
    }
    Ok(())
}

/// Writes the pieces one after another.
pub(crate) fn write_pieces<W: Output>(output: &mut W, pieces: &[&[u8]]) -> Result<(), DeviceFault>
    requires failures { W.failed output.old < u64.MAX }
    ensures same { W.borrows output.new ≡ W.borrows output.old }
    ensures ok { OnOk result (Appends
        (W.written output.old) (W.written output.new) (flat_map (λ piece. piece.now) pieces.now)) }
    ensures err { OnErr result (AppendsProperPrefix
        (W.written output.old) (W.written output.new) (flat_map (λ piece. piece.now) pieces.now)) }
    ensures failures { W.failed output.new ≡ failures_after is_failure result (W.failed output.old) }
{
    for piece in pieces {
        write_all(output, piece)?;
    }
    Ok(())
}
