//! Reading a bundle from a text in memory.

ghost use Rattle.std.specs.Prelude.{◌≡◌, ◌≢◌, ◌-◌, ◌<◌, ◌⊎◌, List, length, IfOk, IfErr, Ok};
ghost use Rattle.std.specs.Prelude.{Err, Some, slice_get, option_map, None};
ghost use Rattle.mc_bundle.specs.Bundle.{PartText, IsBundle, max_bundle, max_parts};
ghost use Rattle.mc_bundle.specs.BundleFaults.{IsFramingFault};
ghost use Rattle.mc_bundle.specs.BundleReading.{Gives, part_bytes_at as part_bytes_of, part_for_line};
ghost use Rattle.mc_bundle.specs.BundleReading.{end_for_line, next_part_from, parts_from, bundle_of};
ghost use Rattle.mc_bundle.specs.BundleView.{part_text, part_texts};
ghost use Rattle.mc_bundle.specs.BundleView.{place_text, part_and_place_text};

use crate::bundle_fault::BundleFault;
use crate::part::Part;
use crate::part_line::{line_at, parse_part_line};
use crate::part_name::PartName;
use std::alloc::Global;
use std::marker::Model;

/// The first line of a bundle.
pub(crate) const MAGIC: &[u8] = b"mcaudit bundle 1\n";

/// The last line of a bundle.
pub(crate) const END_LINE: &[u8] = b"end\n";

/// The greatest length of a part, in bytes.
pub const MAX_PART: usize = 16_777_216;

/// The greatest length of a bundle, in bytes.
pub(crate) const MAX_BUNDLE: usize = 268_435_456;

/// The greatest number of parts.
pub(crate) const MAX_PARTS: usize = 1_538;

/// A place in a bundle: how many parts and how many bytes may still come, and the bytes that follow.
#[derive(Clone, Copy)]
struct BundlePlace<'a> {
    parts: usize,
    room: usize,
    rest: &'a [u8],
}

/// The bytes of a part, and those after its line feed.
#[tactic(auto, unfolding(crate::specs::BundleReading::part_bytes_at))]
fn part_bytes_at(size: usize, rest: &[u8]) -> Result<(&[u8], &[u8]), BundleFault>
    ensures { Gives (λ x. (x.0.now, x.1.now)) result (part_bytes_of size rest.now) }
{
    if rest.len() <= size {
        return Err(BundleFault::Truncated);
    }
    if rest[size] != b'\n' {
        return Err(BundleFault::BadPartLine);
    }
    Ok((&rest[..size], &rest[size + 1..]))
}

/// The part whose line was read, and the place after it.
fn part_after_line<'a>(
    place: &BundlePlace<'a>,
    line: &[u8],
    after: &'a [u8],
    name: PartName,
    size: u64,
) -> Result<Option<(Part<'a>, BundlePlace<'a>)>, BundleFault>
    ensures { Gives (option_map part_and_place_text) result
        (part_for_line (place_text place.now) line.now after.now (Some (name, size))) }
{
    if place.parts == 0 || size > MAX_PART as u64 {
        return Err(BundleFault::TooLarge);
    }
    let size = size as usize;
    let room = line.len() + 1 + (size + 1);
    if place.room < room {
        return Err(BundleFault::TooLarge);
    }
    let (bytes, rest) = part_bytes_at(size, after)?;
    let next = BundlePlace {
        parts: place.parts - 1,
        room: place.room - room,
        rest,
    };
    Ok(Some((Part { name, bytes }, next)))
}

/// Checks that there is room for the line `end`, and that nothing follows it.
fn check_end_is_last(place: &BundlePlace<'_>, after: &[u8]) -> Result<(), BundleFault>
    ensures { Gives (λ _. None) result (end_for_line (place_text place.now) after.now) }
{
    if place.room < END_LINE.len() {
        return Err(BundleFault::TooLarge);
    }
    if !after.is_empty() {
        return Err(BundleFault::AfterEnd);
    }
    Ok(())
}

/// The part at a place and the place after it, or nothing at the end.
#[tactic(auto, unfolding(crate::specs::BundleReading::next_part_from))]
fn next_part_at<'a>(
    place: &BundlePlace<'a>,
) -> Result<Option<(Part<'a>, BundlePlace<'a>)>, BundleFault>
    ensures { Gives (option_map part_and_place_text) result (next_part_from (place_text place.now)) }
{
    let (line, after) = line_at(place.rest)?;
    if line == b"end".as_slice() {
        check_end_is_last(place, after)?;
        return Ok(None);
    }
    match parse_part_line(line) {
        None => Err(BundleFault::BadPartLine),
        Some((name, size)) => part_after_line(place, line, after, name, size),
    }
}

/// The parts from a text's first part line on.
fn parts_of(alloc: Global, text: &[u8]) -> Result<Vec<Part<'_>>, BundleFault>
    ensures { Gives (λ parts. part_texts parts.items) result
        (parts_from max_parts (max_bundle - 17) text.now) }
{
    let mut parts = Vec::new(alloc);
    let mut place = BundlePlace {
        parts: MAX_PARTS,
        room: MAX_BUNDLE - MAGIC.len(),
        rest: text,
    };
    'places: loop {
        match next_part_at(&place) {
            Ok(Some((part, next))) => {
                if parts.push(part).is_err() {
                    return Err(BundleFault::Memory);
                }
                place = next;
            }
            Ok(None) => return Ok(parts),
            Err(fault) => return Err(fault),
        }
    }
}

/// A bundle that was read: its parts, whose bytes are borrowed from the text.
#[derive(Debug, Drop)]
pub struct Bundle<'a> {
    parts: Vec<Part<'a>>,
}

impl<'a> Model for Bundle<'a> {
    ghost use Rattle.std.specs.Prelude.{List};
    ghost use Rattle.mc_bundle.specs.Bundle.{PartText};
    ghost use Rattle.mc_bundle.specs.BundleView.{part_texts};

    ghost Value = { List PartText };

    ghost view = { λ b. part_texts b.parts.items };
}

impl<'a> Bundle<'a> {
    /// Reads a bundle: at most 1,538 parts of at most 16,777,216 bytes, and 268,435,456 bytes in
    /// all.
    ///
    /// The first line is `mcaudit bundle 1`. A part is a line `part`, its name and its length, the
    /// bytes, and a line feed. The last line is `end`.
    ///
    /// # Errors
    ///
    /// The first fault from the front, or `Memory`.
    pub fn read(alloc: Global, text: &'a [u8]) -> Result<Bundle<'a>, BundleFault>
        // The text is a bundle of the parts that are read.
        ensures found { IfOk result (IsBundle text.now) }
        // A bundle is read as its parts, unless memory runs out.
        ensures only { (parts : List PartText) → IsBundle text.now parts
            → result ≢ Err BundleFault.Memory → result ≡ Ok parts }
        // Otherwise the fault is the first one from the front, unless memory runs out.
        ensures fault { result ≢ Err BundleFault.Memory → result ≡ bundle_of text.now }
        // No other fault is returned.
        ensures faults { IfErr result
            (λ fault. IsFramingFault fault ⊎ (fault ≡ BundleFault.Memory)) }
    {
        Bundle::from_text(alloc, text)
    }

    /// As `read`, with the result as a function of the text.
    #[tactic(auto, unfolding(crate::specs::BundleReading::bundle_of))]
    fn from_text(alloc: Global, text: &'a [u8]) -> Result<Bundle<'a>, BundleFault>
        ensures { Gives (λ bundle. bundle) result (bundle_of text.now) }
    {
        let Some(rest) = text.strip_prefix(MAGIC) else {
            return Err(BundleFault::NoMagic);
        };
        let parts = parts_of(alloc, rest)?;
        Ok(Bundle { parts })
    }

    /// The number of parts.
    pub fn count(&self) -> usize
        ensures { result ≡ length self.now }
    {
        self.parts.len()
    }

    /// The part at a place, counted from 0, which must be below `count`.
    pub fn part(&self, place: usize) -> Part<'a>
        requires known { place < length self.now }
        ensures item { slice_get self.now place ≡ Some (part_text result) }
    {
        let part = &self.parts[place];
        Part {
            name: part.name,
            bytes: part.bytes,
        }
    }
}
