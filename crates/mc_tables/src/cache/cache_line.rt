//! One line of `/proc/net/ip_mr_cache`.

ghost use Rattle.std.specs.Prelude.{◌≡◌, ◌≢◌, [], ◌<◌, ◌≤◌, length, OnOk, IfOk, IfErr, IfSome};
ghost use Rattle.std.specs.Prelude.{IfNone, None, Ok, Err};
ghost use Rattle.std.specs.Option.{ok_or};
ghost use Rattle.mc_text.specs.Lines.{words_of};
ghost use Rattle.mc_tables.specs.declared.fault.TableFaultKind.TheVariants.{Memory, BadAddress};
ghost use Rattle.mc_tables.specs.TableWords.{address_in};
ghost use Rattle.mc_tables.specs.CacheReading.{incoming_in, entry_in, row_in_words};
ghost use Rattle.mc_tables.specs.EachRow.{key_in_words};
ghost use Rattle.mc_tables.specs.FlatRows.{entry_with, row_with_oifs};
ghost use Rattle.mc_tables.specs.RowWords.{row_words_before};

use crate::cache::cache_row::CacheRow;
use crate::cache::entry::Oif;
use crate::cache::outgoing::read_oifs;
use crate::cache::plain_row::{read_ascending_oifs, row_at_front};
use crate::fault::TableFaultKind;
use crate::lines::address_words::addresses_at_front;
use crate::lines::table_words::{MAX_VIF, check_counter, number, three_words};
use mc_text::{Addr, Order, Words};

/// The word of an incoming vif in an unresolved row.
const UNRESOLVED: &[u8] = b"-1";

/// The words of a line before its outgoing vifs.
#[derive(Clone, Copy)]
pub struct CacheWords<'a> {
    pub group: &'a [u8],
    pub origin: &'a [u8],
    pub iif: &'a [u8],
    pub packets: &'a [u8],
    pub bytes: &'a [u8],
    pub wrong_if: &'a [u8],
}

/// The source and the group of a line's row, where its first two words are addresses.
#[inline(always)]
pub fn read_row_key(line: &[u8], order: Order) -> Option<(Addr, Addr)>
    ensures { result ≡ key_in_words order (words_of line.now) }
{
    if let Some((group, origin)) = addresses_at_front(line, order) {
        return Some((origin, group));
    }
    read_row_key_by_words(line, order)
}

/// The source and the group of a line's row, read word by word.
#[cold]
fn read_row_key_by_words(line: &[u8], order: Order) -> Option<(Addr, Addr)>
    ensures { result ≡ key_in_words order (words_of line.now) }
{
    let mut words = Words::new(line);
    let group = address_of_word(words.next()?, order)?;
    let origin = address_of_word(words.next()?, order)?;
    Some((origin, group))
}

/// Reads a row into `row`, and its outgoing vifs into `oifs`, by ascending vif, in place of what was
/// there. The row isn't returned, since that would copy it.
#[inline(always)]
#[tactic(auto, using(crate::proofs::EntryLemmas::oifs_in_gives_at_most_32))]
pub fn read_row(
    line: &[u8],
    order: Order,
    row: &mut CacheRow,
    oifs: &mut Vec<Oif>,
) -> Result<(), TableFaultKind>
    ensures at_most_32 { OnOk result (length oifs.new.items ≤ 32) }
    ensures read { OnOk result
        (row_in_words order (words_of line.now) ≡ Ok (row_with_oifs row.new oifs.new.items)) }
    ensures fault { IfErr result (λ fault. fault ≢ Memory →
        row_in_words order (words_of line.now) ≡ Err fault) }
{
    oifs.clear();
    if let Some((front, outgoing)) = row_at_front(line, order) {
        if read_ascending_oifs(outgoing, oifs)? {
            *row = front;
            return Ok(());
        }
        oifs.clear();
    }
    *row = read_row_by_words(line, order, oifs)?;
    Ok(())
}

/// Reads a row word by word.
#[cold]
#[tactic(auto, using(crate::proofs::RowWordLemmas::row_in_too_few_words))]
fn read_row_by_words(
    line: &[u8],
    order: Order,
    oifs: &mut Vec<Oif>,
) -> Result<CacheRow, TableFaultKind>
    requires empty { oifs.old.items ≡ [] }
    ensures at_most_32 { OnOk result (length oifs.new.items ≤ 32) }
    ensures read { IfOk result (λ row.
        row_in_words order (words_of line.now) ≡ Ok (row_with_oifs row oifs.new.items)) }
    ensures fault { IfErr result (λ fault. fault ≢ Memory →
        row_in_words order (words_of line.now) ≡ Err fault) }
{
    let mut words = Words::new(line);
    let first = words_before_oifs(&mut words).ok_or(TableFaultKind::WordCount)?;
    read_cache_words(&first, words, order, oifs)
}

/// The six words before the outgoing vifs, if there are six.
fn words_before_oifs<'a>(words: &mut Words<'a>) -> Option<CacheWords<'a>>
    ensures found { IfSome result (λ first. words.old ≡ row_words_before first words.new) }
    ensures only { IfNone result (length words.old < 6) }
{
    let (group, origin, iif) = three_words(words)?;
    let (packets, bytes, wrong_if) = three_words(words)?;
    Some(CacheWords {
        group,
        origin,
        iif,
        packets,
        bytes,
        wrong_if,
    })
}

#[tactic(auto, unfolding(crate::specs::CacheReading::row_in_words))]
fn read_cache_words(
    first: &CacheWords<'_>,
    outgoing: Words<'_>,
    order: Order,
    oifs: &mut Vec<Oif>,
) -> Result<CacheRow, TableFaultKind>
    requires empty { oifs.old.items ≡ [] }
    ensures at_most_32 { OnOk result (length oifs.new.items ≤ 32) }
    ensures read { IfOk result (λ row.
        row_in_words order (row_words_before first.now outgoing.entry)
        ≡ Ok (row_with_oifs row oifs.new.items)) }
    ensures fault { IfErr result (λ fault. fault ≢ Memory →
        row_in_words order (row_words_before first.now outgoing.entry) ≡ Err fault) }
{
    let group = address(first.group, order)?;
    let origin = address(first.origin, order)?;
    let iif = incoming_vif(first.iif)?;
    check_counter(first.packets)?;
    check_counter(first.bytes)?;
    check_counter(first.wrong_if)?;
    read_entry(iif, outgoing, oifs)?;
    Ok(CacheRow { group, origin, iif })
}

fn address(word: &[u8], order: Order) -> Result<Addr, TableFaultKind>
    ensures { result ≡ ok_or (address_in order word.now) BadAddress }
{
    address_of_word(word, order).ok_or(TableFaultKind::BadAddress)
}

/// The address of a word, if it is one.
fn address_of_word(word: &[u8], order: Order) -> Option<Addr>
    ensures { result ≡ address_in order word.now }
{
    Addr::from_hex_word(word, order)
}

/// The incoming vif, or `None` in an unresolved row.
fn incoming_vif(word: &[u8]) -> Result<Option<u8>, TableFaultKind>
    ensures { result ≡ incoming_in word.now }
{
    if word == UNRESOLVED {
        return Ok(None);
    }
    let iif = number(word, 0, MAX_VIF).ok_or(TableFaultKind::BadIif)?;
    Ok(Some(iif))
}

/// Reads the outgoing vifs of a row with this incoming one. An unresolved row has none.
fn read_entry(
    iif: Option<u8>,
    outgoing: Words<'_>,
    oifs: &mut Vec<Oif>,
) -> Result<(), TableFaultKind>
    requires empty { oifs.old.items ≡ [] }
    ensures at_most_32 { OnOk result (length oifs.new.items ≤ 32) }
    ensures read { OnOk result (entry_in iif outgoing.entry ≡ Ok (entry_with iif oifs.new.items)) }
    ensures fault { IfErr result (λ fault. fault ≢ Memory → entry_in iif outgoing.entry ≡ Err fault) }
{
    match iif {
        Some(_) => read_oifs(outgoing, oifs),
        None => check_no_oif(outgoing),
    }
}

fn check_no_oif(mut outgoing: Words<'_>) -> Result<(), TableFaultKind>
    ensures read { OnOk result (entry_in None outgoing.entry ≡ Ok None) }
    ensures fault { IfErr result (λ fault. entry_in None outgoing.entry ≡ Err fault) }
{
    match outgoing.next() {
        Some(_) => Err(TableFaultKind::BadOif),
        None => Ok(()),
    }
}
