//! Lines of a report list that were read before, to be found by their text: hosts of a LAN report the same
//! again and again.

ghost use Rattle.std.specs.Prelude.{◌≡◌, ◌<◌, ◌≤◌, ◌^◌, [], IfOk, IfSome, OnOk, Some, length, true};
ghost use Rattle.std.specs.Prelude.{option_map, slice_get};
ghost use Rattle.mc_igmp.specs.KnownLines.{AddsLine};

use crate::record_bytes::RecordBytes;
use crate::records::Records;
use std::alloc::{AllocError, Global};
use std::marker::Model;

/// How many lines are read before one is marked: short lists gain nothing.
const LINES_BEFORE: u32 = 16;

/// The greatest number of lines that are kept.
const MAX_KNOWN: usize = 4_096;

/// How many bytes of lines are kept at most.
const MAX_BYTES: usize = 1_048_576;

/// How many slots there are at first, and four times as many whenever half of them are taken.
const FIRST_SLOTS: usize = 256;

/// The greatest number of slots.
const MAX_SLOTS: usize = 16_384;

/// By how many bits a hash is shifted for `FIRST_SLOTS`.
const FIRST_SHIFT: u32 = 24;

/// How many slots a line may be in.
const TRIES: usize = 4;

/// The least number of digits of a line that is kept.
const MIN_LEN: usize = 8;

/// The multiplier of the hash: 2^32 divided by the golden ratio (D. E. Knuth, The Art of Computer
/// Programming, volume 3, section 6.4).
const HASH_MULTIPLIER: u32 = 0x9E37_79B9;

/// A line that was read before, without its line feed, and its records.
#[derive(Debug, Drop)]
pub(crate) struct KnownLine {
    pub(crate) text: Vec<u8>,
    pub(crate) records: RecordBytes,
}

/// Whether a known line has this text.
fn has_text(known: &KnownLine, line: &[u8]) -> bool
    ensures { result ≡ true → known.now.text.items ≡ line.now }
{
    known.text.as_slice() == line
}

/// A line of this text, with the records of its report.
fn known_line(alloc: Global, line: &[u8], records: &Records<'_>) -> Result<KnownLine, AllocError>
    ensures text { IfOk result (λ known. known.text.items ≡ line.now) }
    ensures records { IfOk result (λ known. known.records ≡ records.now) }
{
    let mut text = Vec::new(alloc);
    text.extend_from_slice(line)?;
    let mut own = RecordBytes::none(alloc);
    own.append(records)?;
    Ok(KnownLine { text, records: own })
}

/// A slot, in which a line is found.
#[derive(Clone, Copy, Debug)]
struct Slot {
    // by how the line ends; 0 in a free slot
    tag: u16,
    // one more than the place of the line, or 0 if it came once, and isn't kept
    mark: u16,
}

/// A slot of no line.
const FREE: Slot = Slot { tag: 0, mark: 0 };

/// The lines that are kept: those that came twice. Its value in contracts is the list of them.
#[derive(Debug, Drop)]
pub(crate) struct KnownLines {
    alloc: Global,
    lines: Vec<KnownLine>,
    slots: Vec<Slot>,
    // how many slots are taken
    taken: usize,
    // by how many bits a hash is shifted for so many slots
    shift: u32,
    // how many lines have come that weren't found, up to `LINES_BEFORE`
    new_lines: u32,
    // how many bytes may be kept yet
    left: usize,
    was_found: bool,
}

impl Model for KnownLines {
    ghost use Rattle.std.specs.Prelude.{List};
    ghost use Rattle.mc_igmp.specs.declared.known_lines.KnownLine.{KnownLine};

    ghost Value = { List KnownLine };

    ghost view = { λ s. s.lines.items };
}

/// The first slot of a line: by the four digits of its message's checksum, which differ where messages do,
/// mostly.
fn first_slot(line: &[u8], shift: u32) -> usize
    requires long { MIN_LEN ≤ length line.now }
    ensures within { result < 2 ^ 32 }
{
    let digits = u32::from_le_bytes([line[4], line[5], line[6], line[7]]);
    (digits.wrapping_mul(HASH_MULTIPLIER) >> shift.min(31)) as usize
}

/// The tag of a line, by its last four digits, which is never 0.
fn tag_of(line: &[u8]) -> u16
    requires long { MIN_LEN ≤ length line.now }
{
    let end = line.len() - 4;
    let digits = u32::from_le_bytes([line[end], line[end + 1], line[end + 2], line[end + 3]]);
    (digits.wrapping_mul(HASH_MULTIPLIER) >> 16) as u16 | 1
}

/// Puts a line with this mark into the first free one of its slots, if one is.
fn take_slot(slots: &mut Vec<Slot>, line: &[u8], shift: u32, mark: u16) {
    if line.len() < MIN_LEN {
        return;
    }
    let first = first_slot(line, shift);
    for place in first..first + TRIES {
        if let Some(slot) = slots.get_mut(place) {
            if slot.tag == 0 {
                slot.tag = tag_of(line);
                slot.mark = mark;
                return;
            }
        }
    }
}

/// Puts each of these lines into a slot.
fn take_slots(slots: &mut Vec<Slot>, lines: &[KnownLine], shift: u32) {
    for place in 0..lines.len() {
        take_slot(
            slots,
            &lines[place].text,
            shift,
            (place % 65_535) as u16 + 1,
        );
    }
}

impl KnownLines {
    /// No line.
    pub(crate) fn none(alloc: Global) -> KnownLines
        ensures { result ≡ [] }
    {
        KnownLines {
            alloc,
            lines: Vec::new(alloc),
            slots: Vec::new(alloc),
            taken: 0,
            shift: FIRST_SHIFT,
            new_lines: 0,
            left: MAX_BYTES,
            was_found: false,
        }
    }

    /// Whether the last line was found.
    pub(crate) fn was_found(&self) -> bool {
        self.was_found
    }

    /// Forgets the lines, and keeps none from now on.
    pub(crate) fn close(&mut self)
        ensures { self.new ≡ [] }
    {
        self.lines.clear();
        self.slots.clear();
        self.left = 0;
        self.was_found = false;
    }

    /// The line at this place.
    pub(crate) fn line(&self, place: usize) -> &KnownLine
        requires known { place < length self.now }
        ensures { slice_get self.now place ≡ Some result.now }
    {
        &self.lines[place]
    }

    /// Whether the line at this place has this text.
    fn is_at(&self, place: usize, line: &[u8]) -> bool
        ensures { result ≡ true → option_map (λ known. known.text.items) (slice_get self.now place)
            ≡ Some line.now }
    {
        match self.lines.get(place) {
            Some(known) => has_text(known, line),
            None => false,
        }
    }

    /// The place of the line with this text, if it is found.
    fn search(&self, line: &[u8]) -> Option<usize>
        ensures { IfSome result (λ place. option_map (λ known. known.text.items)
            (slice_get self.now place) ≡ Some line.now) }
    {
        if line.len() < MIN_LEN || self.lines.is_empty() {
            return None;
        }
        let (first, tag) = (first_slot(line, self.shift), tag_of(line));
        for slot in first..first + TRIES {
            let found = *self.slots.get(slot)?;
            if found.tag == 0 {
                return None;
            }
            if found.tag == tag && found.mark > 0 {
                let place = usize::from(found.mark) - 1;
                if self.is_at(place, line) {
                    return Some(place);
                }
            }
        }
        None
    }

    /// The place of the line with this text, if it is found.
    pub(crate) fn place_of(&mut self, line: &[u8]) -> Option<usize>
        ensures lines { self.new ≡ self.old }
        ensures found { IfSome result (λ place. option_map (λ known. known.text.items)
            (slice_get self.old place) ≡ Some line.now) }
    {
        let found = self.search(line);
        self.was_found = found.is_some();
        found
    }

    /// Makes four times as many slots, and puts the lines into them.
    fn grow_slots(&mut self) -> Result<(), AllocError>
        ensures lines { self.new ≡ self.old }
    {
        let slots = self.slots.len().saturating_mul(4).max(FIRST_SLOTS);
        if !self.slots.is_empty() {
            self.shift = self.shift.saturating_sub(2);
        }
        self.slots.clear();
        self.slots.resize(slots, FREE)?;
        take_slots(&mut self.slots, &self.lines, self.shift);
        self.taken = self.lines.len();
        Ok(())
    }

    /// The first slot of a line that is free, or that of a line with its tag that came once.
    fn slot_for(&self, line: &[u8]) -> Option<usize>
        requires long { MIN_LEN ≤ length line.now }
    {
        let (first, tag) = (first_slot(line, self.shift), tag_of(line));
        for place in first..first + TRIES {
            let slot = *self.slots.get(place)?;
            if slot.tag == 0 || (slot.tag == tag && slot.mark == 0) {
                return Some(place);
            }
        }
        None
    }

    /// Takes a slot for a line with this tag, if it is free. Whether it was.
    fn take_free(&mut self, place: usize, tag: u16) -> bool
        ensures lines { self.new ≡ self.old }
    {
        match self.slots.get_mut(place) {
            Some(slot) if slot.tag == 0 => {
                slot.tag = tag;
                self.taken = self.taken.saturating_add(1);
                true
            }
            _ => false,
        }
    }

    /// The slot of a line that came once before. Another one takes a slot.
    fn slot_of_repeat(&mut self, line: &[u8]) -> Option<usize>
        requires long { MIN_LEN ≤ length line.now }
        ensures lines { self.new ≡ self.old }
    {
        let place = self.slot_for(line)?;
        if self.take_free(place, tag_of(line)) {
            None
        } else {
            Some(place)
        }
    }

    /// The slot in which a new line is to be kept, if it came before and there is room.
    fn slot_of_new(&mut self, line: &[u8]) -> Result<Option<usize>, AllocError>
        ensures lines { self.new ≡ self.old }
    {
        if self.new_lines < LINES_BEFORE {
            self.new_lines += 1;
            return Ok(None);
        }
        let has_room = self.lines.len() < MAX_KNOWN && line.len() <= self.left;
        if !has_room || line.len() < MIN_LEN {
            return Ok(None);
        }
        if self.taken >= self.slots.len() / 2 {
            if self.slots.len() >= MAX_SLOTS {
                return Ok(None);
            }
            self.grow_slots()?;
        }
        Ok(self.slot_of_repeat(line))
    }

    /// Marks a slot as that of the last line, which has so many bytes.
    fn mark_last(&mut self, slot: usize, len: usize)
        ensures lines { self.new ≡ self.old }
    {
        if let Some(slot) = self.slots.get_mut(slot) {
            slot.mark = (self.lines.len() % 65_536) as u16;
        }
        self.left = self.left.saturating_sub(len);
    }

    /// Keeps a new line with the records of its report, if it came before and there is room.
    pub(crate) fn add(&mut self, line: &[u8], records: &Records<'_>) -> Result<(), AllocError>
        ensures { OnOk result (AddsLine line.now records.now self.old self.new) }
    {
        let Some(slot) = self.slot_of_new(line)? else {
            return Ok(());
        };
        let known = known_line(self.alloc, line, records)?;
        self.lines.push(known)?;
        self.mark_last(slot, line.len());
        Ok(())
    }
}
