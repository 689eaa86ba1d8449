//! The outgoing vifs of a row of `/proc/net/ip_mr_cache`.

ghost use Rattle.std.specs.Prelude.{◌≡◌, ◌≢◌, ◌==◌, [], IfOk, IfErr, OnOk, Ok, Err, IfSome, IfNone};
ghost use Rattle.std.specs.Prelude.{None, nat_lt, ◌∷◌, ◌≤◌, length, position};
ghost use Rattle.std.specs.List.{list_all, position_or_len, slice_split};
ghost use Rattle.mc_tables.specs.declared.fault.TableFaultKind.TheVariants.{Memory};
ghost use Rattle.mc_tables.specs.TableWords.{number_in};
ghost use Rattle.mc_tables.specs.CacheReading.{oif_in, oifs_in};
ghost use Rattle.mc_tables.specs.OutgoingSteps.{threshold_in, oif_at_colon, has_vif, oifs_with_word};

use crate::cache::entry::Oif;
use crate::fault::TableFaultKind;
use crate::lines::table_words::{MAX_VIF, number};
use mc_text::Words;

/// The greatest threshold that the kernel shows. It keeps 255 for "not forwarded there".
pub const MAX_THRESHOLD: u8 = 254;

/// Reads the outgoing vifs of some words into `oifs`, by ascending vif.
#[tactic(auto, using(crate::proofs::EntryLemmas::oifs_in_gives_at_most_32))]
pub fn read_oifs(words: Words<'_>, oifs: &mut Vec<Oif>) -> Result<(), TableFaultKind>
    requires empty { oifs.old.items ≡ [] }
    ensures at_most_32 { OnOk result (length oifs.new.items ≤ 32) }
    ensures read { OnOk result (oifs_in words.entry ≡ Ok oifs.new.items) }
    ensures fault { IfErr result (λ fault. fault ≢ Memory → oifs_in words.entry ≡ Err fault) }
{
    for word in words {
        add_oif(oifs, word)?;
    }
    Ok(())
}

/// Adds the outgoing vif of a word at its place. Since a kernel prints them by ascending vif, that is
/// mostly the end.
fn add_oif(oifs: &mut Vec<Oif>, word: &[u8]) -> Result<(), TableFaultKind>
    ensures added { OnOk result (oifs_with_word oifs.old.items word.now ≡ Ok oifs.new.items) }
    ensures fault { IfErr result (λ fault. fault ≢ Memory →
        oifs_with_word oifs.old.items word.now ≡ Err fault) }
{
    let (vif, threshold) = oif_of_word(word)?;
    if all_below(oifs.as_slice(), vif) {
        oifs.push(Oif { vif, threshold })?;
        return Ok(());
    }
    if has_oif(oifs.as_slice(), vif) {
        return Err(TableFaultKind::RepeatedOif);
    }
    let place = place_by_vif(oifs.as_slice(), vif);
    oifs.insert(place, Oif { vif, threshold })?;
    Ok(())
}

/// Reads `n:t`, an outgoing vif and its threshold.
#[tactic(auto, using(crate::proofs::RowWordLemmas::oif_in_without_colon, crate::proofs::RowWordLemmas::oif_in_at_first_colon))]
fn oif_of_word(word: &[u8]) -> Result<(u8, u8), TableFaultKind>
    ensures { result ≡ oif_in word.now }
{
    let (vif, threshold) = split_at_colon(word).ok_or(TableFaultKind::BadOif)?;
    oif_of_parts(vif, threshold)
}

/// Reads a vif, and the threshold after its colon.
fn oif_of_parts(vif: &[u8], after: &[u8]) -> Result<(u8, u8), TableFaultKind>
    ensures { result ≡ oif_at_colon vif.now (slice_split (λ byte. byte == 58) after.now) }
{
    let vif = number(vif, 0, MAX_VIF).ok_or(TableFaultKind::BadOif)?;
    let threshold = threshold_of_word(after)?;
    Ok((vif, threshold))
}

/// The parts before and after the word's first colon, if it has one.
fn split_at_colon(word: &[u8]) -> Option<(&[u8], &[u8])>
    ensures found { IfSome result (λ parts. slice_split (λ byte. byte == 58) word.now
        ≡ parts.0.now ∷ slice_split (λ byte. byte == 58) parts.1.now) }
    ensures only { IfNone result (slice_split (λ byte. byte == 58) word.now ≡ word.now ∷ []) }
{
    let colon = first_colon(word)?;
    Some((&word[..colon], &word[colon + 1..]))
}

/// The place of the word's first colon.
fn first_colon(word: &[u8]) -> Option<usize>
    ensures { result ≡ position (λ byte. byte == 58) word.now }
{
    word.iter().position(|byte| *byte == b':')
}

/// Reads a threshold.
#[tactic(auto, using(crate::proofs::RowWordLemmas::threshold_in_number))]
fn threshold_of_word(word: &[u8]) -> Result<u8, TableFaultKind>
    ensures { result ≡ threshold_in (slice_split (λ byte. byte == 58) word.now) }
{
    match number(word, 1, MAX_THRESHOLD) {
        Some(threshold) => Ok(threshold),
        None => Err(fault_of_threshold(word)),
    }
}

/// Why a word is no threshold: it has a colon, or it isn't a number from 1 to 254.
#[tactic(auto, using(crate::proofs::RowWordLemmas::threshold_refusals))]
fn fault_of_threshold(word: &[u8]) -> TableFaultKind
    requires refused { number_in 1 254 word.now ≡ None }
    ensures fault { threshold_in (slice_split (λ byte. byte == 58) word.now) ≡ Err result }
{
    if first_colon(word).is_some() {
        TableFaultKind::BadOif
    } else {
        TableFaultKind::BadThreshold
    }
}

/// Whether all of the vifs are less than this one.
fn all_below(oifs: &[Oif], vif: u8) -> bool
    ensures { result ≡ list_all (λ other. nat_lt other.vif vif) oifs.now }
{
    oifs.iter().all(|other| other.vif < vif)
}

fn has_oif(oifs: &[Oif], vif: u8) -> bool
    ensures { result ≡ has_vif oifs.now vif }
{
    oifs.iter().any(|other| other.vif == vif)
}

/// The place of the first greater vif, or the end.
fn place_by_vif(oifs: &[Oif], vif: u8) -> usize
    ensures place { result ≡ position_or_len (λ other. nat_lt vif other.vif) oifs.now }
    ensures within { result ≤ length oifs.now }
{
    first_above(oifs, vif).unwrap_or(oifs.len())
}

fn first_above(oifs: &[Oif], vif: u8) -> Option<usize>
    ensures { result ≡ position (λ other. nat_lt vif other.vif) oifs.now }
{
    oifs.iter().position(|other| vif < other.vif)
}
