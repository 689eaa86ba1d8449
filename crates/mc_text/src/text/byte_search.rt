//! The search for a byte in a text.

ghost use Rattle.std.specs.Prelude.{◌≡◌, ◌≤◌, ◌==◌, IfSome, Some, length, map, position, take};
ghost use Rattle.std.specs.Simd.Lanes.{mask_l};

use memchr::memchr;
use std::simd::prelude::*;

/// How many bytes are compared at once.
const LANES: usize = 64;

/// Which of the first bytes are `byte`. The lowest bit is for the first byte.
#[inline(always)]
fn marks_of_byte(byte: u8, text: &[u8]) -> u64
    requires within { LANES ≤ length text.now }
    ensures marks { result ≡ mask_l (map (λ b. b == byte) (take LANES text.now)) }
{
    u8x64::from_slice(text)
        .simd_eq(u8x64::splat(byte))
        .to_bitmask()
}

/// The index of the first byte that is `byte`, if it is among the first `LANES`.
#[inline(always)]
fn find_near_byte(byte: u8, text: &[u8]) -> Option<usize>
    requires within { LANES ≤ length text.now }
    ensures place { IfSome result (λ place. position (λ b. b == byte) text.now ≡ Some place) }
{
    let marks = marks_of_byte(byte, text);
    if marks == 0 {
        return None;
    }
    Some(marks.trailing_zeros() as usize)
}

/// The index of the first byte of the text that is `byte`, for texts that are short or have none nearby.
#[cold]
fn find_far_byte(byte: u8, text: &[u8]) -> Option<usize>
    ensures { result ≡ position (λ b. b == byte) text.now }
{
    memchr(byte, text)
}

/// The index of the first byte of the text that is `byte`.
#[inline(always)]
pub fn find_byte(byte: u8, text: &[u8]) -> Option<usize>
    ensures { result ≡ position (λ b. b == byte) text.now }
{
    if text.len() >= LANES
        && let Some(place) = find_near_byte(byte, text)
    {
        return Some(place);
    }
    find_far_byte(byte, text)
}
