//! Tests of how many bytes of a bundle are read before its fault is found: an input that fails after
//! exactly so many bytes still shows the fault, and one that fails a byte earlier doesn't.

ghost use Rattle.std.specs.Prelude.{◌≡◌, ◌<◌, ◌≤◌, None, length};

use super::bundles::bytes_of;
use mc_bundle::*;
use mc_text::decimal;
use std::alloc::{AllocError, Global};
use std::process::Abort;
use std::test::Fail;

/// The fault of the bundle that an input gives.
fn fault_of<R: Input + Drop>(input: R) -> Option<BundleFault>
    requires { R.failed input < u64.MAX }
{
    let mut parts = Parts::new(input);
    'parts: loop {
        match parts.next() {
            Ok(true) => {}
            Ok(false) => return None,
            Err(fault) => return Some(fault),
        }
    }
}

/// The fault of a bundle whose input fails after so many bytes of the text.
fn fault_if_input_fails_after(text: &[u8], before_fault: usize) -> Option<BundleFault> {
    fault_of(FaultyInput::new(text, 7, before_fault))
}

/// Bundles, each after its fault and how many bytes are read before it is found: one more than there are
/// if the end of the input shows it. In their bytes a `~` is a line feed.
const FAULTS: &str = "\
17 NoMagic mcaudit bundle 2~end~
17 NoMagic mcaudit bundle 1
8 NoMagic mcaudit
34 BadPartLine mcaudit bundle 1~part topology 01~x~end~
32 BadPartLine mcaudit bundle 1~part a 0~~part~end~
113 BadPartLine mcaudit bundle 1~aaaaaaaaaaaaaaaaaaaaaaaaaaaaaaaaaaaaaaaaaaaaaaaaaaaaaaaaaaaa\
    aaaaaaaaaaaaaaaaaaaaaaaaaaaaaaaaaaaaaaaaaaaa
113 BadPartLine mcaudit bundle 1~aaaaaaaaaaaaaaaaaaaaaaaaaaaaaaaaaaaaaaaaaaaaaaaaaaaaaaaaaaaa\
    aaaaaaaaaaaaaaaaaaaaaaaaaaaaaaaaaaaa
113 NoEnd mcaudit bundle 1~aaaaaaaaaaaaaaaaaaaaaaaaaaaaaaaaaaaaaaaaaaaaaaaaaaaaaaaaaaaa\
    aaaaaaaaaaaaaaaaaaaaaaaaaaaaaaaaaaa
33 TooLarge mcaudit bundle 1~part a 16777217~x~end~
28 BadPartLine mcaudit bundle 1~part a 1~xy~end~
27 BadPartLine mcaudit bundle 1~part a 0~x~end~
22 AfterEnd mcaudit bundle 1~end~x
32 AfterEnd mcaudit bundle 1~part a 0~~end~~end~
33 Truncated mcaudit bundle 1~part a 9~x~end~
28 Truncated mcaudit bundle 1~part a 1~x
27 Truncated mcaudit bundle 1~part a 0~
28 NoEnd mcaudit bundle 1~part a 0~~
18 NoEnd mcaudit bundle 1~
20 NoEnd mcaudit bundle 1~en";

/// The fault is found with the last of so many bytes, and not before.
fn check_fault_at(rt: &impl Abort, text: &[u8], count: usize, fault: BundleFault) {
    assert!(rt;
        fault_if_input_fails_after(text, count) == Some(fault),
        "{count} {fault}"
    );
    let earlier = fault_if_input_fails_after(text, count.saturating_sub(1));
    assert!(rt;
        earlier == Some(BundleFault::Read),
        "before {count} {fault}"
    );
}

/// The fault of this name.
fn fault_named(name: &str) -> Option<BundleFault> {
    match name {
        "NoMagic" => Some(BundleFault::NoMagic),
        "BadPartLine" => Some(BundleFault::BadPartLine),
        "Truncated" => Some(BundleFault::Truncated),
        "NoEnd" => Some(BundleFault::NoEnd),
        "AfterEnd" => Some(BundleFault::AfterEnd),
        "TooLarge" => Some(BundleFault::TooLarge),
        _ => None,
    }
}

/// The bundle of a line of the table has the fault of the line, found after so many bytes.
fn check_table_line(rt: &impl Abort, alloc: Global, line: &str) -> Result<(), Fail> {
    let (number, rest) = line.split_once(' ').ok_or("a number")?;
    let (name, text) = rest.split_once(' ').ok_or("a fault")?;
    let count = decimal(number.as_bytes(), 1000).ok_or("a small number")? as usize;
    let fault = fault_named(name).ok_or("the name of a fault")?;
    check_fault_at(rt, &bytes_of(alloc, text)?, count, fault);
    Ok(())
}

#[test]
fn faults_are_reported_at_their_byte(rt: HostRuntime) -> Result<(), Fail> {
    for line in FAULTS.lines() {
        check_table_line(&rt, rt.alloc(), line)?;
    }
    Ok(())
}

/// The bundle of so many empty parts, without its last line.
fn many_empty_parts(alloc: Global, count: u32) -> Result<Vec<u8>, AllocError> {
    let mut text = Vec::from_slice(alloc, b"mcaudit bundle 1\n")?;
    for _ in 0..count {
        text.extend_from_slice(b"part a 0\n\n")?;
    }
    Ok(text)
}

/// One part too many is refused with its line, which ends 9 bytes after 1,538 parts of 10 bytes.
#[test]
fn excess_part_is_refused_at_its_line(rt: HostRuntime) -> Result<(), Fail> {
    let text = many_empty_parts(rt.alloc(), 1540)?;
    check_fault_at(&rt, &text, 17 + 1538 * 10 + 9, BundleFault::TooLarge);
    Ok(())
}

/// An input that gives a text, then a byte `left` times, and then, `lines` times, `PART_LINE` and
/// 16,777,216 of the byte. It fails after `before_fault` bytes.
#[derive(Drop)]
struct LongInput {
    text: &'static [u8],
    byte: u8,
    left: usize,
    lines: u32,
    before_fault: usize,
    failures: u64,
}

/// The line between two parts of the greatest size.
const PART_LINE: &[u8] = b"\npart a 16777216\n";

impl LongInput {
    /// Begins the next line if all before it was given.
    fn start_next_line(&mut self)
        ensures { self.new.failures ≡ self.old.failures }
    {
        if self.text.is_empty() && self.left == 0 && self.lines > 0 {
            self.text = PART_LINE;
            self.left = 16_777_216;
            self.lines -= 1;
        }
    }

    /// Gives the next bytes of the text, and returns how many.
    fn give_text(&mut self, buffer: &mut [u8]) -> usize
        ensures bound { result ≤ length buffer.new }
        ensures failures { self.new.failures ≡ self.old.failures }
    {
        let count = buffer.len().min(self.text.len()).min(self.before_fault);
        let (front, rest) = self.text.split_at(count);
        buffer[..count].copy_from_slice(front);
        self.text = rest;
        self.before_fault -= count;
        count
    }

    /// Gives the byte as often as there is room, and returns how often.
    fn give_byte(&mut self, buffer: &mut [u8]) -> usize
        ensures bound { result ≤ length buffer.new }
        ensures failures { self.new.failures ≡ self.old.failures }
    {
        let count = buffer.len().min(self.left).min(self.before_fault);
        buffer[..count].fill(self.byte);
        self.left -= count;
        self.before_fault -= count;
        count
    }
}

impl Input for LongInput {
    ghost remaining = { λ _. None };

    ghost failed = { λ s. s.failures };

    fn read(&mut self, buffer: &mut [u8]) -> Result<usize, DeviceFault> {
        if self.before_fault == 0 {
            self.failures += 1;
            return Err(DeviceFault);
        }
        self.start_next_line();
        if self.text.is_empty() {
            Ok(self.give_byte(buffer))
        } else {
            Ok(self.give_text(buffer))
        }
    }

    fn failures(&self) -> u64 {
        self.failures
    }
}

/// The fault of 16 parts of the greatest size, from an input that fails after so many bytes.
fn fault_of_greatest_parts(before_fault: usize) -> Option<BundleFault> {
    fault_of(LongInput {
        text: b"mcaudit bundle 1\npart a 16777216\n",
        byte: b'x',
        left: 16_777_216,
        lines: 15,
        before_fault,
        failures: 0,
    })
}

/// A part that would exceed the greatest bundle is refused with its line, which ends 16 bytes after 15
/// parts.
#[test]
fn oversized_bundle_is_refused_at_its_line(rt: HostRuntime) {
    let count = 17 + 15 * (16 + 16_777_216 + 1) + 16;
    assert!(rt; fault_of_greatest_parts(count) == Some(BundleFault::TooLarge));
    assert!(rt; fault_of_greatest_parts(count - 1) == Some(BundleFault::Read));
}

/// A line that never ends is refused, though the input never does.
#[test]
fn endless_line_is_refused(rt: HostRuntime) {
    let fault = fault_of(LongInput {
        text: b"mcaudit bundle 1\n",
        byte: b'a',
        left: usize::MAX,
        lines: 0,
        before_fault: usize::MAX,
        failures: 0,
    });
    assert!(rt; fault == Some(BundleFault::BadPartLine));
}
