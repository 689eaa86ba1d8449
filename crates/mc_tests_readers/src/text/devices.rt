//! Tests of devices that give or take a few bytes at a time, and of devices that fail.

ghost use Rattle.std.specs.Prelude.{◌≡◌, ◌<◌, OnErr, OnOk};
ghost use Rattle.std.specs.Io.KnownBytes.{Appends};
ghost use Rattle.mc_bundle.specs.Device.{AppendsProperPrefix, failures_after, is_failure};
ghost use Rattle.mc_bundle.specs.ReadFault.{ConsumesUpTo, is_read};

use mc_bundle::*;
use std::alloc::Global;
use std::io::Cursor;
use std::test::Fail;

const TEXT: &[u8] = b"wanted\n";

#[test]
fn reads_an_input_to_its_end_or_the_limit(rt: HostRuntime) -> Result<(), Fail> {
    for (piece, limit, want) in [
        (1, 100, b"wanted\n".as_slice()),
        (3, 7, b"wanted\n".as_slice()),
        (100, 6, b"wanted".as_slice()),
        (2, 0, b"".as_slice()),
    ] {
        let mut input = FaultyInput::new(TEXT, piece, 100);
        let bytes = read_to_limit(rt.alloc(), &mut input, limit)?;
        assert!(rt;
            bytes.as_slice() == want,
            "{piece} at a time, up to {limit}"
        );
        assert!(rt; input.failures() == 0);
    }
    Ok(())
}

#[test]
fn failed_read_ends_reading(rt: HostRuntime) {
    for before_fault in 0..TEXT.len() + 1 {
        let mut input = FaultyInput::new(TEXT, 2, before_fault);
        let fault = read_to_limit(rt.alloc(), &mut input, 100).err();
        assert!(rt; fault == Some(ReadFault::Read), "after {before_fault}");
        assert!(rt; input.failures() == 1);
    }
}

#[test]
fn text_is_written_until_the_output_stops(rt: HostRuntime) {
    for stop in [Stop::Error, Stop::TakesNone] {
        for before_stop in 0..TEXT.len() + 1 {
            let mut output = FaultyOutput::new(rt.alloc(), 2, before_stop, stop);
            let written = write_all(&mut output, TEXT);
            assert!(rt; written.is_ok() == (before_stop == TEXT.len()));
            assert!(rt; output.taken() == &TEXT[..before_stop]);
            assert!(rt; output.failures() == u64::from(written.is_err()));
        }
    }
}

#[test]
fn memory_is_read_and_written(rt: HostRuntime) -> Result<(), Fail> {
    let mut input = FromReader::new(TEXT);
    let bytes = read_to_limit(rt.alloc(), &mut input, 6)?;
    assert!(rt; bytes.as_slice() == b"wanted".as_slice());
    assert!(rt; Input::failures(&input) == 0);
    assert!(rt; input.into_inner() == b"\n".as_slice());
    let mut output = ToWriter::new(Vec::new(rt.alloc()));
    write_all(&mut output, b"wanted")?;
    assert!(rt; Output::failures(&output) == 0);
    assert!(rt; output.into_inner().as_slice() == b"wanted".as_slice());
    Ok(())
}

#[test]
fn a_full_writer_fails(rt: HostRuntime) {
    let mut cursor = ToWriter::new(Cursor::new([0u8; 4]));
    assert!(rt; write_all(&mut cursor, b"wanted").is_err());
    assert!(rt; Output::failures(&cursor) == 1);
}

/// Reads up to four bytes through a reference to the input. Its clauses show that the lender knows
/// its device afterwards.
fn read_lent<R: Input>(alloc: Global, input: &mut R) -> Result<Vec<u8>, ReadFault>
    requires failures { R.failed input.old < u64.MAX }
    ensures same { R.borrows input.new ≡ R.borrows input.old }
    ensures consumed { ConsumesUpTo 4 (R.remaining input.old) (R.remaining input.new) }
    ensures failures { R.failed input.new ≡ failures_after is_read result (R.failed input.old) }
{
    let mut lent = &mut *input;
    read_to_limit(alloc, &mut lent, 4)
}

/// Writes the text through a reference to the output.
fn write_lent<W: Output>(output: &mut W, text: &[u8]) -> Result<(), DeviceFault>
    requires failures { W.failed output.old < u64.MAX }
    ensures same { W.borrows output.new ≡ W.borrows output.old }
    ensures ok { OnOk result (Appends (W.written output.old) (W.written output.new) text.now) }
    ensures err { OnErr result (AppendsProperPrefix (W.written output.old) (W.written output.new) text.now) }
    ensures failures { W.failed output.new ≡ failures_after is_failure result (W.failed output.old) }
{
    let mut lent = &mut *output;
    write_all(&mut lent, text)
}

#[test]
fn reads_through_a_lent_input(rt: HostRuntime) -> Result<(), Fail> {
    let mut input = FromReader::new(TEXT);
    let front = read_lent(rt.alloc(), &mut input)?;
    assert!(rt; front.as_slice() == b"want".as_slice());
    let rest = read_lent(rt.alloc(), &mut input)?;
    assert!(rt; rest.as_slice() == b"ed\n".as_slice());
    assert!(rt; Input::failures(&&mut input) == 0);
    Ok(())
}

#[test]
fn writes_through_a_lent_output(rt: HostRuntime) {
    let mut output = FaultyOutput::new(rt.alloc(), 3, 5, Stop::Error);
    assert!(rt; write_lent(&mut output, b"want").is_ok());
    assert!(rt; write_lent(&mut output, b"ed\n") == Err(DeviceFault));
    assert!(rt; output.taken() == b"wante".as_slice());
    assert!(rt; Output::failures(&&mut output) == 1);
}
