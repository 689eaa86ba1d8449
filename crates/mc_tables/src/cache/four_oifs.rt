//! Reads outgoing vifs as kernels print them, four at a time or one: each takes seven bytes, if its
//! threshold has one digit.

ghost use Rattle.std.specs.Prelude.{◌≡◌, ℕ, List, ◌∷◌, ◌+◌, ◌<◌, ◌≤◌, IfNone, IfOk, IfSome, Ok};
ghost use Rattle.std.specs.Prelude.{◌++◌, drop, length, take, true};
ghost use Rattle.mc_text.specs.Lines.{words_of};
ghost use Rattle.mc_tables.specs.CacheReading.{oif_in};
ghost use Rattle.mc_tables.specs.FourOifs.{StartsWithFourOifs, StartsWithPrintedOif, AddsAscendingOifs};

use crate::cache::entry::Oif;
use crate::lines::table_words::MAX_VIF;
use std::alloc::AllocError;
use std::simd::prelude::*;

/// How many bytes are loaded at once: two loads have those of four outgoing vifs, and four bytes twice.
const LANES: usize = 16;

/// How many bytes four outgoing vifs take.
pub const FOUR_LEN: usize = 28;

/// How many bytes one takes.
const ONE_LEN: usize = 7;

/// The bytes of four outgoing vifs, and four of them again, which may be any.
#[inline(always)]
fn bytes_of_four(line: &[u8]) -> u8x32
    requires within { FOUR_LEN ≤ length line.now }
    ensures value { result ≡ take FOUR_LEN line.now ++ take 4 (drop 12 line.now) }
{
    u8x16::from_slice(line).shuffle(
        u8x16::from_slice(&line[FOUR_LEN - LANES..]),
        [
            0, 1, 2, 3, 4, 5, 6, 7, 8, 9, 10, 11, 12, 13, 14, 15, 20, 21, 22, 23, 24, 25, 26, 27,
            28, 29, 30, 31, 16, 17, 18, 19,
        ],
    )
}

/// Whether a line begins with four printed outgoing vifs. Each byte is in the range of its place, or
/// the other byte that is allowed there: a space for the tens of a vif.
#[inline(always)]
fn starts_with_four_oifs(line: &[u8]) -> bool
    requires within { FOUR_LEN ≤ length line.now }
    ensures value { result ≡ true → StartsWithFourOifs line.now }
{
    let text = bytes_of_four(line);
    let least = u8x32::from_array([
        b' ', b'1', b'0', b':', b'1', b' ', b' ', b' ', b'1', b'0', b':', b'1', b' ', b' ', b' ',
        b'1', b'0', b':', b'1', b' ', b' ', b' ', b'1', b'0', b':', b'1', b' ', b' ', 0, 0, 0, 0,
    ]);
    let sizes = u8x32::from_array([
        1, 3, 10, 1, 9, 1, 1, 1, 3, 10, 1, 9, 1, 1, 1, 3, 10, 1, 9, 1, 1, 1, 3, 10, 1, 9, 1, 1,
        255, 255, 255, 255,
    ]);
    let others = u8x32::from_array([
        b' ', b' ', b'0', b':', b'1', b' ', b' ', b' ', b' ', b'0', b':', b'1', b' ', b' ', b' ',
        b' ', b'0', b':', b'1', b' ', b' ', b' ', b' ', b'0', b':', b'1', b' ', b' ', 255, 255,
        255, 255,
    ]);
    ((text - least).simd_lt(sizes) | text.simd_eq(others)).all()
}

/// The outgoing vif that is printed at a place. A space for its tens counts as 0, since its last
/// four bits are those of the digit 0.
#[inline(always)]
fn printed_oif(line: &[u8], at: usize) -> Oif
    requires long { at + 7 ≤ length line.now }
    requires printed { StartsWithPrintedOif (drop at line.now) }
    ensures word { result.vif ≤ MAX_VIF → (word : List ℕ)
        × (words_of (drop at line.now) ≡ word ∷ words_of (drop (at + 7) line.now))
        × (oif_in word ≡ Ok (result.vif, result.threshold)) }
{
    let vif = line[at + 1] % 16 * 10 + (line[at + 2] - b'0');
    let threshold = line[at + 4] - b'0';
    Oif { vif, threshold }
}

/// The bytes of an outgoing vif, its colon twice.
#[inline(always)]
fn bytes_of_one(line: &[u8]) -> u8x8
    requires within { ONE_LEN ≤ length line.now }
    ensures value { result ≡ take 4 line.now ++ take 4 (drop 3 line.now) }
{
    u8x4::from_slice(line).shuffle(u8x4::from_slice(&line[3..]), [0, 1, 2, 3, 4, 5, 6, 7])
}

/// Whether a line begins with a printed outgoing vif. Each byte is in the range of its place, or the other
/// byte that is allowed there.
#[inline(always)]
fn starts_with_printed_oif(line: &[u8]) -> bool
    requires long { ONE_LEN ≤ length line.now }
    ensures value { result ≡ true → StartsWithPrintedOif line.now }
{
    let text = bytes_of_one(line);
    let least = u8x8::from_array([b' ', b'1', b'0', b':', b':', b'1', b' ', b' ']);
    let sizes = u8x8::from_array([1, 3, 10, 1, 1, 9, 1, 1]);
    let others = u8x8::from_array([b' ', b' ', b'0', b':', b':', b'1', b' ', b' ']);
    ((text - least).simd_lt(sizes) | text.simd_eq(others)).all()
}

/// The outgoing vif that a line begins with, if it is printed in seven bytes, and what follows it.
#[inline(always)]
#[tactic(auto, using(crate::proofs::FourOifLemmas::bytes_behind_oif))]
pub fn printed_oif_at_front(line: &[u8]) -> Option<(Oif, &[u8])>
    ensures word { IfSome result (λ found. (word : List ℕ)
        × (words_of line.now ≡ word ∷ words_of found.1.now)
        × (oif_in word ≡ Ok (found.0.vif, found.0.threshold))) }
    ensures vif { IfSome result (λ found. found.0.vif ≤ MAX_VIF) }
    ensures shorter { IfSome result (λ found. length found.1.now < length line.now) }
{
    if line.len() < ONE_LEN || !starts_with_printed_oif(line) {
        return None;
    }
    let oif = printed_oif(line, 0);
    if oif.vif > MAX_VIF {
        return None;
    }
    Some((oif, &line[ONE_LEN..]))
}

/// Adds the four outgoing vifs that a line begins with, if they are printed so and ascend from `next`
/// on, and returns the number after the last one.
#[inline(always)]
pub fn add_four_oifs(line: &[u8], next: u8, oifs: &mut Vec<Oif>) -> Result<Option<u8>, AllocError>
    ensures added { IfOk result (λ added. IfSome added
        (AddsAscendingOifs line.now (drop FOUR_LEN line.now) next oifs.old.items oifs.new.items)) }
    ensures none { IfOk result (λ added. IfNone added (oifs.new.items ≡ oifs.old.items)) }
    ensures long { IfOk result (λ added. IfSome added (λ after. FOUR_LEN ≤ length line.now)) }
{
    if line.len() < FOUR_LEN || !starts_with_four_oifs(line) {
        return Ok(None);
    }
    let first = printed_oif(line, 0);
    let second = printed_oif(line, 7);
    let third = printed_oif(line, 14);
    let fourth = printed_oif(line, 21);
    if first.vif < next || second.vif <= first.vif || third.vif <= second.vif {
        return Ok(None);
    }
    if fourth.vif <= third.vif || fourth.vif > MAX_VIF {
        return Ok(None);
    }
    oifs.extend_from_slice(&[first, second, third, fourth])?;
    Ok(Some(fourth.vif + 1))
}
