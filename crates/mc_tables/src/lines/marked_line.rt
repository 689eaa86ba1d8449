//! Finds the counters of a row by bit masks of the line's digits and spaces, so that its bytes
//! aren't tested one by one.

ghost use Rattle.std.specs.Prelude.{◌≡◌, ℕ, ◌+◌, ◌<◌, ◌≤◌, ◌==◌, ◌⊎◌, ◌^◌, ◌/◌, IfSome, drop, length};
ghost use Rattle.std.specs.Int.{bit_at};
ghost use Rattle.std.specs.Char.{is_ascii_digit};
ghost use Rattle.mc_tables.specs.Counters.{AreLastDigits, AreMarks, HasCounters, IsMarked};

use std::simd::prelude::*;

/// How many bytes are marked.
const LANES: usize = 32;

/// How many bytes a counter may have with the spaces before it.
const MAX_COUNTER_WIDTH: usize = 20;

/// A line, and which of the bytes at its front are decimal digits and which are spaces. The lowest
/// bit is for the first byte. The end of a line of fewer bytes than are marked counts as a space.
#[derive(Clone, Copy)]
pub struct MarkedLine<'a> {
    pub bytes: &'a [u8],
    digits: u64,
    spaces: u64,
}

/// Which of the first bytes are decimal digits.
#[inline(always)]
fn digit_marks(line: &[u8]) -> u64
    requires within { LANES ≤ length line.now }
    ensures marks { AreMarks is_ascii_digit line.now result }
{
    let above = u8x32::from_slice(line) - u8x32::splat(b'0');
    above.simd_lt(u8x32::splat(10)).to_bitmask()
}

/// Which of the first bytes are spaces.
#[inline(always)]
fn space_marks(line: &[u8]) -> u64
    requires within { LANES ≤ length line.now }
    ensures marks { AreMarks (λ byte. byte == 32) line.now result }
{
    u8x32::from_slice(line)
        .simd_eq(u8x32::splat(b' '))
        .to_bitmask()
}

/// The length of the run of set bits that begins with the lowest bit.
#[inline(always)]
fn front_run_length(marks: u64) -> usize
    ensures { (number : ℕ) → number < result → bit_at marks number ≡ 1 }
{
    marks.trailing_ones() as usize
}

/// The place of the lowest set bit, or 64 if none is set.
#[inline(always)]
fn lowest_set_bit(marks: u64) -> usize
    ensures lowest { (number : ℕ) → number < result → bit_at marks number ≡ 0 }
    ensures set { result < 64 → bit_at marks result ≡ 1 }
{
    marks.trailing_zeros() as usize
}

/// The marks without so many at the front.
#[inline(always)]
fn without_marks(marks: u64, count: usize) -> u64
    requires within { count ≤ 32 }
    ensures { result ≡ marks / 2 ^ count }
{
    marks >> count
}

/// The marks, and one more.
#[inline(always)]
fn with_mark(marks: u64, place: usize) -> u64
    requires within { place < 32 }
    ensures { (number : ℕ) → bit_at result number ≡ 1 → (bit_at marks number ≡ 1) ⊎ (number ≡ place) }
{
    marks | (1 << place)
}

/// The digits that have a space after them.
#[inline(always)]
fn last_digits(digits: u64, spaces: u64) -> u64
    ensures { AreLastDigits digits spaces result }
{
    digits & (spaces >> 1)
}

/// The line without so many bytes at its front.
#[inline(always)]
#[tactic(auto, using(std::proofs::lemmas::List::take_rest))]
fn without_front(line: &[u8], count: usize) -> &[u8]
    requires within { count ≤ length line.now }
    ensures value { result.now ≡ drop count line.now }
{
    &line[count..]
}

impl<'a> MarkedLine<'a> {
    /// Marks a line of at least as many bytes as are marked.
    #[inline(always)]
    fn of_front(line: &'a [u8]) -> MarkedLine<'a>
        requires within { LANES ≤ length line.now }
        ensures bytes { result.bytes.now ≡ line.now }
        ensures marked { IsMarked result }
    {
        MarkedLine {
            bytes: line,
            digits: digit_marks(line),
            spaces: space_marks(line),
        }
    }

    /// Marks what a line has from a place on, of fewer bytes than are marked, by the last bytes of the whole
    /// line.
    #[inline(always)]
    fn of_end(line: &'a [u8], start: usize) -> MarkedLine<'a>
        requires within { LANES ≤ length line.now }
        requires start { start ≤ length line.now }
        requires few { length line.now < start + LANES }
        ensures bytes { result.bytes.now ≡ drop start line.now }
        ensures marked { IsMarked result }
    {
        let bytes = without_front(line, start);
        let end = without_front(line, line.len() - LANES);
        let before = LANES - bytes.len();
        MarkedLine {
            bytes,
            digits: without_marks(digit_marks(end), before),
            spaces: with_mark(without_marks(space_marks(end), before), bytes.len()),
        }
    }

    /// Marks what a line has from a place on, if the line is long enough.
    #[inline(always)]
    pub fn of(line: &'a [u8], start: usize) -> Option<MarkedLine<'a>>
        requires start { start ≤ length line.now }
        ensures bytes { IfSome result (λ marked. marked.bytes.now ≡ drop start line.now) }
        ensures marked { IfSome result IsMarked }
    {
        if line.len() - start >= LANES {
            return Some(MarkedLine::of_front(without_front(line, start)));
        }
        if line.len() < LANES {
            return None;
        }
        Some(MarkedLine::of_end(line, start))
    }

    /// What follows the three counters that are the line's first words. `None` if one of them has
    /// more than twenty bytes with the spaces before it, or one isn't marked as a whole.
    #[inline(always)]
    pub fn after_counters(self) -> Option<&'a [u8]>
        requires marked { IsMarked self }
        ensures counters { IfSome result (λ after. HasCounters self.entry.bytes.now after.now) }
    {
        let ends = last_digits(self.digits, self.spaces);
        let packets = lowest_set_bit(ends);
        if packets >= MAX_COUNTER_WIDTH {
            return None;
        }
        let ends = ends >> (packets + 1);
        let bytes = lowest_set_bit(ends);
        if bytes >= MAX_COUNTER_WIDTH {
            return None;
        }
        let ends = ends >> (bytes + 1);
        let wrong_if = lowest_set_bit(ends);
        if wrong_if >= MAX_COUNTER_WIDTH {
            return None;
        }
        let end = packets + 1 + (bytes + 1) + (wrong_if + 1);
        if front_run_length(self.digits | self.spaces) < end {
            return None;
        }
        Some(without_front(self.bytes, end.min(self.bytes.len())))
    }
}
