//! Tests of bundles that are written: within the limits, past them, and to outputs that fail; and of how
//! names and faults are printed.

ghost use Rattle.std.specs.Prelude.{None};

use mc_bundle::*;
use std::process::Abort;
use std::test::Fail;

/// An output that takes every byte and only counts them.
#[derive(Drop)]
struct CountingOutput {
    taken: usize,
}

impl Output for CountingOutput {
    ghost written = { λ _. None };

    ghost failed = { λ _. 0 };

    fn write(&mut self, text: &[u8]) -> Result<usize, DeviceFault> {
        self.taken = self.taken.saturating_add(text.len());
        Ok(text.len())
    }

    fn failures(&self) -> u64 {
        0
    }
}

/// The bundle of these parts exceeds a limit, and nothing of it is written.
fn check_refused(rt: &impl Abort, parts: &[Part<'_>]) {
    let mut output = CountingOutput { taken: 0 };
    let answer = write_bundle(parts, &mut output);
    assert!(rt; answer == Err(BundleFault::TooLarge));
    assert!(rt; output.taken == 0);
}

/// The bundle of these parts is written, and has so many bytes.
fn check_written(rt: &impl Abort, parts: &[Part<'_>], length: usize) {
    let mut output = CountingOutput { taken: 0 };
    assert!(rt; write_bundle(parts, &mut output).is_ok());
    assert!(rt; output.taken == length);
}

#[test]
fn at_most_1538_parts_are_written(rt: HostRuntime) -> Result<(), Fail> {
    let name = PartName::new(b"a").ok_or("a name")?;
    let parts = vec![in rt.alloc(); Part { name, bytes: b"" }; 1539]?;
    check_refused(&rt, &parts);
    // "mcaudit bundle 1\n", "part a 0\n\n" for each, "end\n"
    check_written(&rt, &parts[..1538], 17 + 1538 * 10 + 4);
    Ok(())
}

/// A part of the first `length` of these bytes.
fn part_of<'a>(name: PartName, bytes: &'a [u8], length: usize) -> Part<'a> {
    Part {
        name,
        bytes: bytes.get(..length).unwrap_or_default(),
    }
}

/// A part of 16,777,217 bytes is too large, and so is a bundle of 268,435,457.
#[test]
fn largest_bundle_is_written(rt: HostRuntime) -> Result<(), Fail> {
    let name = PartName::new(b"a").ok_or("a name")?;
    let bytes = vec![in rt.alloc(); b'x'; 16_777_217]?;
    check_refused(&rt, &[part_of(name, &bytes, 16_777_217)]);
    let mut parts = vec![in rt.alloc(); part_of(name, &bytes, 16_777_216); 16]?;
    parts[15] = part_of(name, &bytes, 16_776_924);
    check_refused(&rt, &parts);
    parts[15] = part_of(name, &bytes, 16_776_923);
    check_written(&rt, &parts, 268_435_456);
    Ok(())
}

#[test]
fn bundle_is_written_until_the_output_stops(rt: HostRuntime) -> Result<(), Fail> {
    let name = PartName::new(b"a").ok_or("a name")?;
    let parts = [Part { name, bytes: b"x" }];
    let whole = b"mcaudit bundle 1\npart a 1\nx\nend\n".as_slice();
    for stop in [Stop::Error, Stop::TakesNone] {
        for before_stop in 0..whole.len() + 1 {
            let mut output = FaultyOutput::new(rt.alloc(), 4, before_stop, stop);
            let want = if before_stop < whole.len() {
                Err(BundleFault::Write)
            } else {
                Ok(())
            };
            assert!(rt;
                write_bundle(&parts, &mut output) == want,
                "after {before_stop}"
            );
            assert!(rt; output.taken() == &whole[..before_stop]);
            assert!(rt; output.failures() == u64::from(want.is_err()));
        }
    }
    Ok(())
}

/// How a name is printed, and the faults that no bundle has.
#[test]
fn names_and_faults_are_printed(rt: HostRuntime) -> Result<(), Fail> {
    let name = PartName::new(b"a").ok_or("a name")?;
    let printed = format!(in rt.alloc();
        "{name} {} {} {} {}",
        BundleFault::Read,
        BundleFault::Memory,
        BundleFault::Write,
        BundleFault::Failed
    )?;
    assert!(rt; printed.as_str() == "a Read Memory Write Failed");
    Ok(())
}
