//! Reads a row as kernels print it in one pass. Any other line is read word by word, by
//! `cache_line`.

ghost use Rattle.std.specs.Prelude.{◌≡◌, ℕ, [], ◌∷◌, ◌++◌, ◌==◌, not, List, IfOk};
ghost use Rattle.std.specs.Prelude.{IfSome, None, Ok, Some, take};
ghost use Rattle.std.specs.Prelude.{◌+◌, ◌-◌, ◌*◌, drop, length, ◌<◌, ◌≤◌};
ghost use Rattle.std.specs.Prelude.{position, true};
ghost use Rattle.std.specs.Char.{is_ascii_digit};
ghost use Rattle.mc_text.specs.Lines.{words_of};
ghost use Rattle.mc_tables.specs.declared.cache.entry.Oif.{Oif};
ghost use Rattle.mc_tables.specs.TableWords.{is_counter, is_decimal_word, number_in};
ghost use Rattle.mc_tables.specs.CacheReading.{oif_in, oifs_in, row_in_words};
ghost use Rattle.mc_tables.specs.FlatRows.{row_with_oifs};
ghost use Rattle.mc_tables.specs.Counters.{HasCounters};
ghost use Rattle.mc_tables.specs.RowWords.{StartsWithIif};

use crate::cache::cache_row::CacheRow;
use crate::cache::entry::Oif;
use crate::cache::four_oifs::{FOUR_LEN, add_four_oifs, printed_oif_at_front};
use crate::cache::outgoing::MAX_THRESHOLD;
use crate::lines::address_words::{addresses_at_front, after_addresses};
use crate::lines::marked_line::MarkedLine;
use crate::lines::table_words::{MAX_VIF, number};
use mc_text::Order;
use std::alloc::AllocError;

/// The place of the first counter's spaces: both addresses take nine bytes, and the incoming vif takes three.
const COUNTERS_START: usize = 21;

/// The place of the first byte that isn't a space.
fn word_start(line: &[u8]) -> Option<usize>
    ensures { result ≡ position (λ byte. not (byte == 32)) line.now }
{
    line.iter().position(|byte| *byte != b' ')
}

/// The line from its first byte on that isn't a space.
#[tactic(auto, using(crate::proofs::PlainRowLemmas::words_of_without_spaces, crate::proofs::PlainRowLemmas::words_of_spaces))]
fn without_spaces(line: &[u8]) -> &[u8]
    ensures words { words_of result.now ≡ words_of line.now }
    ensures shorter { length result.now ≤ length line.now }
{
    match word_start(line) {
        Some(start) => &line[start..],
        None => &[],
    }
}

/// The place of the first byte that isn't a decimal digit.
fn digits_end(line: &[u8]) -> Option<usize>
    ensures { result ≡ position (λ b. not (is_ascii_digit b)) line.now }
{
    line.iter().position(|byte| !byte.is_ascii_digit())
}

/// The decimal digits that a line begins with, and what follows the byte `stop` after them.
#[tactic(auto, using(crate::proofs::PlainRowLemmas::front_digits_are_decimal))]
fn digits_before(line: &[u8], stop: u8) -> Option<(&[u8], &[u8])>
    ensures parts { IfSome result (λ parts. line.now ≡ parts.0.now ++ stop ∷ parts.1.now) }
    ensures digits { IfSome result (λ parts. is_decimal_word parts.0.now ≡ true) }
{
    let end = digits_end(line)?;
    if end == 0 || line[end] != stop {
        return None;
    }
    Some((&line[..end], &line[end + 1..]))
}

/// Whether a line begins with one or two decimal digits that are printed in three bytes. Nothing here
/// branches on how many they are, since a processor predicts that badly.
#[inline(always)]
fn starts_with_iif(line: &[u8]) -> bool
    requires long { 3 ≤ length line.now }
    ensures { result ≡ true → StartsWithIif line.now }
{
    let units = (line[1] == b' ') | line[1].is_ascii_digit();
    line[0].is_ascii_digit() & units & (line[2] == b' ')
}

/// The number of two digits, or of one before a space. Of other bytes it is any number.
#[inline(always)]
fn iif_of_bytes(first: u8, second: u8) -> u8
    ensures one { is_ascii_digit first ≡ true → second ≡ 32 → result ≡ first - 48 }
    ensures two { is_ascii_digit first ≡ true → is_ascii_digit second ≡ true
        → result ≡ (first - 48) * 10 + (second - 48) }
{
    let digit = first.wrapping_sub(b'0');
    let both = digit
        .wrapping_mul(10)
        .wrapping_add(second.wrapping_sub(b'0'));
    if second == b' ' { digit } else { both }
}

/// Whether an incoming vif may have this number.
#[inline(always)]
fn is_iif(number: u8) -> bool
    ensures { result ≡ true → number ≤ 31 }
{
    number <= MAX_VIF
}

/// The incoming vif that a line begins with, printed in three bytes.
#[inline(always)]
fn iif_at_front(line: &[u8]) -> Option<u8>
    ensures word { IfSome result (λ iif. (word : List ℕ)
        × (words_of line.now ≡ word ∷ words_of (drop 3 line.now)) × (is_decimal_word word ≡ true)
        × (number_in 0 31 word ≡ Some iif)) }
    ensures long { IfSome result (λ _. 3 ≤ length line.now) }
{
    if line.len() < 3 || !starts_with_iif(line) {
        return None;
    }
    let iif = iif_of_bytes(line[0], line[1]);
    if !is_iif(iif) {
        return None;
    }
    Some(iif)
}

/// What follows the counter that a line of digits consists of: nothing.
#[tactic(auto, using(crate::proofs::PlainRowLemmas::counter_is_whole_line))]
fn after_all_digits(line: &[u8]) -> Option<&[u8]>
    requires digits { position (λ b. not (is_ascii_digit b)) line.now ≡ None }
    ensures { IfSome result (λ after. (counter : List ℕ)
        × (words_of line.now ≡ counter ∷ words_of after.now) × (is_counter counter ≡ true)) }
{
    if line.is_empty() || line.len() > 20 {
        return None;
    }
    Some(&[])
}

/// What follows the digits of the counter that a line begins with, its space first. Nothing follows
/// the last one of a row without outgoing vifs.
fn after_digits(line: &[u8]) -> Option<&[u8]>
    ensures { IfSome result (λ after. (counter : List ℕ)
        × (words_of line.now ≡ counter ∷ words_of after.now) × (is_counter counter ≡ true)) }
{
    let Some(end) = digits_end(line) else {
        return after_all_digits(line);
    };
    if end == 0 || end > 20 || line[end] != b' ' {
        return None;
    }
    Some(&line[end..])
}

/// What follows the counter that is a line's first word.
fn after_counter(line: &[u8]) -> Option<&[u8]>
    ensures { IfSome result (λ after. (counter : List ℕ)
        × (words_of line.now ≡ counter ∷ words_of after.now) × (is_counter counter ≡ true)) }
{
    after_digits(without_spaces(line))
}

/// What follows the three counters that are the first words of a line from a place on, if they are near
/// that place.
#[inline(always)]
fn after_marked_counters(line: &[u8], start: usize) -> Option<&[u8]>
    requires start { start ≤ length line.now }
    ensures { IfSome result (λ after. HasCounters (drop start line.now) after.now) }
{
    MarkedLine::of(line, start)?.after_counters()
}

/// What follows the three counters that are a line's first words, which are read one after another.
#[cold]
fn after_unmarked_counters(line: &[u8]) -> Option<&[u8]>
    ensures { IfSome result (λ after. HasCounters line.now after.now) }
{
    let rest = after_counter(line)?;
    let rest = after_counter(rest)?;
    after_counter(rest)
}

/// What follows the three counters that are the first words of a line from a place on.
#[inline(always)]
#[tactic(auto, using(std::proofs::lemmas::List::take_rest))]
fn after_counters(line: &[u8], start: usize) -> Option<&[u8]>
    requires start { start ≤ length line.now }
    ensures { IfSome result (λ after. HasCounters (drop start line.now) after.now) }
{
    if let Some(after) = after_marked_counters(line, start) {
        return Some(after);
    }
    after_unmarked_counters(&line[start..])
}

/// The resolved row that a line begins with, and what follows its counters: the outgoing vifs.
#[inline(always)]
pub fn row_at_front(line: &[u8], order: Order) -> Option<(CacheRow, &[u8])>
    ensures { (oifs : List Oif) → IfSome result (λ found.
        oifs_in (words_of found.1.now) ≡ Ok oifs →
        row_in_words order (words_of line.now) ≡ Ok (row_with_oifs found.0 oifs)) }
{
    let (group, origin) = addresses_at_front(line, order)?;
    let iif = iif_at_front(after_addresses(line))?;
    let rest = after_counters(line, COUNTERS_START)?;
    let row = CacheRow {
        group,
        origin,
        iif: Some(iif),
    };
    Some((row, rest))
}

/// The outgoing vif that a line begins with, in any number of bytes, and what follows it.
#[cold]
#[tactic(auto, using(crate::proofs::PlainRowLemmas::vif_in_range))]
fn unprinted_oif_at_front(line: &[u8]) -> Option<(Oif, &[u8])>
    ensures word { IfSome result (λ found. (word : List ℕ)
        × (words_of line.now ≡ word ∷ words_of found.1.now)
        × (oif_in word ≡ Ok (found.0.vif, found.0.threshold))) }
    ensures vif { IfSome result (λ found. found.0.vif ≤ 31) }
    ensures shorter { IfSome result (λ found. length found.1.now < length line.now) }
{
    let (vif, rest) = digits_before(without_spaces(line), b':')?;
    let (threshold, rest) = digits_before(rest, b' ')?;
    let vif = number(vif, 0, MAX_VIF)?;
    let threshold = number(threshold, 1, MAX_THRESHOLD)?;
    Some((Oif { vif, threshold }, rest))
}

/// The outgoing vif that a line begins with, and what follows it. Most are printed in seven bytes.
#[inline(always)]
fn oif_at_front(line: &[u8]) -> Option<(Oif, &[u8])>
    ensures word { IfSome result (λ found. (word : List ℕ)
        × (words_of line.now ≡ word ∷ words_of found.1.now)
        × (oif_in word ≡ Ok (found.0.vif, found.0.threshold))) }
    ensures vif { IfSome result (λ found. found.0.vif ≤ 31) }
    ensures shorter { IfSome result (λ found. length found.1.now < length line.now) }
{
    if let Some(found) = printed_oif_at_front(line) {
        return Some(found);
    }
    unprinted_oif_at_front(line)
}

/// Reads the outgoing vifs that a line consists of, if they ascend, and returns whether it did. After false
/// `oifs` may hold a part of them.
#[inline(always)]
#[tactic(auto, using(crate::proofs::PlainRowLemmas::greater_oif_is_appended, crate::proofs::OifLemmas::oifs_in_by_steps))]
pub fn read_ascending_oifs(line: &[u8], oifs: &mut Vec<Oif>) -> Result<bool, AllocError>
    requires empty { oifs.old.items ≡ [] }
    ensures read { IfOk result (λ read. read ≡ true →
        oifs_in (words_of line.now) ≡ Ok oifs.new.items) }
{
    let mut rest = line;
    let mut next = 0;
    'fours: while let Some(after) = add_four_oifs(rest, next, oifs)? {
        next = after;
        rest = &rest[FOUR_LEN..];
    }
    'oifs: while !rest.is_empty() {
        let Some((oif, after)) = oif_at_front(rest) else {
            return Ok(without_spaces(rest).is_empty());
        };
        if oif.vif < next {
            return Ok(false);
        }
        oifs.push(oif)?;
        next = oif.vif + 1;
        rest = after;
    }
    Ok(true)
}
