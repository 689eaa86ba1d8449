//! Bytes from pairs of hexadecimal digits.

ghost use Rattle.std.specs.Prelude.{◌≡◌, ◌≢◌, ◌+◌, ◌*◌, ◌/◌, ◌%◌, ◌<◌, ◌≤◌, ◌++◌, List, ℕ, length};
ghost use Rattle.std.specs.Prelude.{take, true, false, Ok};
ghost use Rattle.hex.specs.Hex.{decode_of};
ghost use Rattle.mc_text.specs.DigitPairs.{AreDecoded};

use mc_text::{are_hex_digits, bytes_of_hex_digits, hex_value_or_16};
use std::simd::prelude::*;

/// The number of bytes that are decoded at a time, from twice as many digits.
const LANES: usize = 16;

/// Half of `LANES`.
const HALF_OF_LANES: usize = 8;

/// The lanes of both, those of `front` first.
#[inline(always)]
fn concat_lanes(front: u8x16, back: u8x16) -> u8x32
    ensures { result ≡ front ++ back }
{
    front.shuffle(
        back,
        [
            0, 1, 2, 3, 4, 5, 6, 7, 8, 9, 10, 11, 12, 13, 14, 15, 16, 17, 18, 19, 20, 21, 22, 23,
            24, 25, 26, 27, 28, 29, 30, 31,
        ],
    )
}

/// The byte that two digits with these values write.
fn byte_of(high: u8, low: u8) -> u8
    ensures { high < 16 → low < 16 → result ≡ high * 16 + low }
{
    high.wrapping_mul(16).wrapping_add(low)
}

/// Decodes a few digits by a table, as `decode_all` does. The values of all digits are checked together
/// at the end, since a branch at each digit would be mispredicted too often.
fn decode_by_table(digits: &[u8], bytes: &mut [u8]) -> bool
    requires lengths { length digits.now ≡ 2 * length bytes.old }
    ensures found { result ≡ true → decode_of digits.now ≡ Ok bytes.new }
    ensures only { result ≡ false → (out : List ℕ) → decode_of digits.now ≢ Ok out }
{
    let mut values = 0u8;
    for i in 0..bytes.len() {
        let high = hex_value_or_16(digits[2 * i]);
        let low = hex_value_or_16(digits[2 * i + 1]);
        values |= high | low;
        bytes[i] = byte_of(high, low);
    }
    values < 16
}

/// Decodes the sixteen bytes from `at` on, and returns whether all their digits are hexadecimal.
#[inline(always)]
fn decode_lanes(digits: &[u8], bytes: &mut [u8], at: usize) -> bool
    requires digits { 2 * (at + LANES) ≤ length digits.now }
    requires room { at + LANES ≤ length bytes.old }
    ensures found { result ≡ true → AreDecoded digits.now bytes.old at
        → AreDecoded digits.now bytes.new (at + LANES) }
    ensures only { result ≡ false → (out : List ℕ) → decode_of digits.now ≢ Ok out }
    ensures kept { result ≡ false → bytes.new ≡ bytes.old }
{
    let text = u8x32::from_slice(&digits[2 * at..]);
    if !are_hex_digits(text) {
        return false;
    }
    bytes_of_hex_digits(text).copy_to_slice(&mut bytes[at..]);
    true
}

/// Decodes eight to fifteen bytes: those of the first sixteen digits, and those of the last sixteen,
/// which may overlap.
fn decode_short(digits: &[u8], bytes: &mut [u8]) -> bool
    requires size { length digits.now ≡ 2 * length bytes.old }
    requires some { HALF_OF_LANES ≤ length bytes.old }
    requires few { length bytes.old < LANES }
    ensures found { result ≡ true → decode_of digits.now ≡ Ok bytes.new }
    ensures only { result ≡ false → (out : List ℕ) → decode_of digits.now ≢ Ok out }
{
    let last = bytes.len() - HALF_OF_LANES;
    let text = concat_lanes(
        u8x16::from_slice(digits),
        u8x16::from_slice(&digits[2 * last..]),
    );
    if !are_hex_digits(text) {
        return false;
    }
    let decoded = bytes_of_hex_digits(text);
    decoded.extract::<0, 8>().copy_to_slice(bytes);
    decoded.extract::<8, 8>().copy_to_slice(&mut bytes[last..]);
    true
}

/// Decodes the first eight bytes, and returns how many it decoded: none, if a digit isn't hexadecimal.
#[inline(always)]
fn decode_eight(digits: &[u8], bytes: &mut [u8]) -> usize
    requires digits { 2 * HALF_OF_LANES ≤ length digits.now }
    requires room { HALF_OF_LANES ≤ length bytes.old }
    ensures decoded { AreDecoded digits.now bytes.new result }
    ensures few { result ≤ HALF_OF_LANES }
{
    let front = u8x16::from_slice(digits);
    let text = concat_lanes(front, front);
    if !are_hex_digits(text) {
        return 0;
    }
    bytes_of_hex_digits(text)
        .extract::<0, 8>()
        .copy_to_slice(bytes);
    HALF_OF_LANES
}

/// Decodes the digits at the front of a text, sixteen bytes at a time, as long as there is room, and
/// returns the number of bytes. A line of a report of version 1 or 2 has eight.
pub(crate) fn decode_prefix(text: &[u8], room: &mut [u8]) -> usize
    ensures decoded { AreDecoded text.now room.new result }
    ensures text { 2 * result ≤ length text.now }
    ensures room { result ≤ length room.old }
{
    let most = room.len().min(text.len() / 2);
    if most > HALF_OF_LANES && text[2 * HALF_OF_LANES] == b'\n' {
        return decode_eight(text, room);
    }
    let mut at = 0;
    'pieces: while LANES <= most - at {
        if !decode_lanes(text, room, at) {
            return at;
        }
        at += LANES;
    }
    at
}

/// Decodes all digits, two a byte, of which the first `decoded` bytes are decoded already, and returns
/// whether all are hexadecimal. If not, the bytes are of no use.
fn decode_all(digits: &[u8], bytes: &mut [u8], decoded: usize) -> bool
    requires size { length digits.now ≡ 2 * length bytes.old }
    requires decoded { AreDecoded digits.now bytes.old decoded }
    ensures found { result ≡ true → decode_of digits.now ≡ Ok bytes.new }
    ensures only { result ≡ false → (out : List ℕ) → decode_of digits.now ≢ Ok out }
{
    if bytes.len() < HALF_OF_LANES {
        return decode_by_table(digits, bytes);
    }
    if bytes.len() < LANES {
        return decode_short(digits, bytes);
    }
    let last = bytes.len() - LANES;
    let mut at = decoded;
    'pieces: while at < last {
        if !decode_lanes(digits, bytes, at) {
            return false;
        }
        at += LANES;
    }
    // The last piece ends where the digits do, so it may overlap the one before.
    decode_lanes(digits, bytes, last)
}

/// Whether so many bytes are all that the digits write.
fn are_all_decoded(digits: &[u8], decoded: usize) -> bool
    requires within { 2 * decoded ≤ length digits.now }
    ensures { result ≡ true → length digits.now ≡ 2 * decoded }
{
    2 * decoded == digits.len()
}

/// Decodes the digits to the front of `room`, where the first `decoded` bytes are decoded already, and
/// returns whether all are hexadecimal.
pub(crate) fn decode_to_front(digits: &[u8], room: &mut [u8], decoded: usize) -> bool
    requires even { length digits.now % 2 ≡ 0 }
    requires fits { length digits.now ≤ 2 * length room.old }
    requires decoded { AreDecoded digits.now room.old decoded }
    requires within { 2 * decoded ≤ length digits.now }
    ensures found { result ≡ true → decode_of digits.now ≡ Ok (take (length digits.now / 2) room.new) }
    ensures only { result ≡ false → (out : List ℕ) → decode_of digits.now ≢ Ok out }
{
    if are_all_decoded(digits, decoded) {
        return true;
    }
    decode_all(digits, &mut room[..digits.len() / 2], decoded)
}
