//! Reads the two addresses that a row begins with, both at once where the line is long enough.

ghost use Rattle.std.specs.Prelude.{◌≡◌, ◌++◌, ◌+◌, ◌≤◌, ◌∷◌, IfSome, Some, length, take, drop};
ghost use Rattle.mc_text.specs.Lines.{words_of};
ghost use Rattle.mc_tables.specs.TableWords.{address_in};
ghost use Rattle.mc_tables.specs.RowWords.{HasAddresses};

use mc_text::{Addr, Order, are_hex_digits, bytes_of_hex_digits};
use std::simd::prelude::*;

/// How many bytes are loaded at the place of each address: its eight digits and eight more.
const LANES: usize = 16;

/// The eight digits of one address and the eight of the other, and the same again to fill the lanes.
#[inline(always)]
fn digits_of_both(line: &[u8]) -> u8x32
    requires within { 9 + LANES ≤ length line.now }
    ensures value { result ≡ (take 8 line.now ++ take 8 (drop 9 line.now))
        ++ (take 8 line.now ++ take 8 (drop 9 line.now)) }
{
    u8x16::from_slice(line).shuffle(
        u8x16::from_slice(&line[9..]),
        [
            0, 1, 2, 3, 4, 5, 6, 7, 16, 17, 18, 19, 20, 21, 22, 23, 0, 1, 2, 3, 4, 5, 6, 7, 16, 17,
            18, 19, 20, 21, 22, 23,
        ],
    )
}

/// The group and the source that a line begins with, read together.
#[inline(always)]
fn addresses_together(line: &[u8], order: Order) -> Option<(Addr, Addr)>
    ensures { IfSome result (λ found. HasAddresses order line.now found.0 found.1) }
{
    if line.len() < 9 + LANES || line[8] != b' ' || line[17] != b' ' {
        return None;
    }
    let digits = digits_of_both(line);
    if !are_hex_digits(digits) {
        return None;
    }
    let bytes = bytes_of_hex_digits(digits);
    let group = Addr::from_printed_octets(bytes.extract::<0, 4>().to_array(), order);
    let origin = Addr::from_printed_octets(bytes.extract::<4, 4>().to_array(), order);
    Some((group, origin))
}

/// The address of eight digits that a line begins with, if a space follows it.
#[tactic(auto, using(crate::proofs::PlainRowLemmas::address_is_first_word))]
fn address_at_front(line: &[u8], order: Order) -> Option<Addr>
    ensures long { IfSome result (λ address. 9 ≤ length line.now) }
    ensures words { IfSome result (λ address.
        words_of line.now ≡ take 8 line.now ∷ words_of (drop 9 line.now)) }
    ensures address { IfSome result (λ address.
        address_in order (take 8 line.now) ≡ Some address) }
{
    if line.len() > 8 && line[8] == b' ' {
        Addr::from_hex_word(&line[..8], order)
    } else {
        None
    }
}

/// What follows an address and its space.
#[tactic(auto, using(std::proofs::lemmas::List::take_rest))]
fn after_address(line: &[u8]) -> &[u8]
    requires within { 9 ≤ length line.now }
    ensures value { result.now ≡ drop 9 line.now }
{
    &line[9..]
}

/// The group and the source that a line begins with, read one after the other.
fn addresses_one_by_one(line: &[u8], order: Order) -> Option<(Addr, Addr)>
    ensures { IfSome result (λ found. HasAddresses order line.now found.0 found.1) }
{
    let group = address_at_front(line, order)?;
    let origin = address_at_front(after_address(line), order)?;
    Some((group, origin))
}

/// The group and the source that a line begins with.
#[inline(always)]
pub fn addresses_at_front(line: &[u8], order: Order) -> Option<(Addr, Addr)>
    ensures { IfSome result (λ found. HasAddresses order line.now found.0 found.1) }
{
    if let Some(found) = addresses_together(line, order) {
        return Some(found);
    }
    addresses_one_by_one(line, order)
}

/// What follows both addresses and their spaces.
#[inline(always)]
#[tactic(auto, using(std::proofs::lemmas::List::take_rest))]
pub fn after_addresses(line: &[u8]) -> &[u8]
    requires within { 18 ≤ length line.now }
    ensures value { result.now ≡ drop 18 line.now }
{
    &line[18..]
}
