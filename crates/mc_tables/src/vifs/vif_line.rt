//! One line of `/proc/net/ip_mr_vif`.

ghost use Rattle.std.specs.Prelude.{◌≡◌, ◌≢◌, ◌≤◌, length, IsTrue, IfSome, IfNone, Some};
ghost use Rattle.std.specs.List.{list_all};
ghost use Rattle.std.specs.Char.{is_ascii_hexdigit};
ghost use Rattle.std.specs.Str.Parse.{digits_value};
ghost use Rattle.mc_text.specs.Lines.{words_of};
ghost use Rattle.mc_tables.specs.declared.fault.TableFaultKind.TheVariants.{BadAddress};
ghost use Rattle.mc_tables.specs.Steps.{demand};
ghost use Rattle.mc_tables.specs.TableWords.{is_hexadecimal};
ghost use Rattle.mc_tables.specs.VifReading.{device_in, flags_in, vif_in_words};
ghost use Rattle.mc_tables.specs.RowWords.{vif_word_list};

use crate::fault::TableFaultKind;
use crate::lines::table_words::{MAX_VIF, check_counter, is_hexadecimal_word, number, three_words};
use crate::vifs::vif::{DeviceName, Vif};
use crate::vifs::vif_row::VifRow;
use mc_text::{Words, is_device_name};
use std::str;

/// The four counters of a line.
#[derive(Clone, Copy)]
pub struct CounterWords<'a> {
    pub bytes_in: &'a [u8],
    pub packets_in: &'a [u8],
    pub bytes_out: &'a [u8],
    pub packets_out: &'a [u8],
}

/// The nine words of a line.
#[derive(Clone, Copy)]
pub struct VifWords<'a> {
    pub index: &'a [u8],
    pub device: &'a [u8],
    pub counters: CounterWords<'a>,
    pub flags: &'a [u8],
    pub local: &'a [u8],
    pub remote: &'a [u8],
}

/// Reads the vif of a line and its index.
#[tactic(auto, using(crate::proofs::VifLemmas::vif_needs_nine_words))]
pub fn vif_of_line(line: &[u8]) -> Result<VifRow, TableFaultKind>
    ensures { result ≡ vif_in_words (words_of line.now) }
{
    let words = vif_words(line).ok_or(TableFaultKind::WordCount)?;
    vif_of_words(&words)
}

/// The words of a line, if there are nine.
fn vif_words<'a>(line: &'a [u8]) -> Option<VifWords<'a>>
    ensures found { IfSome result (λ words. words_of line.now ≡ vif_word_list words) }
    ensures only { IfNone result (length (words_of line.now) ≢ 9) }
{
    let mut words = Words::new(line);
    let (index, device, bytes_in) = three_words(&mut words)?;
    let (packets_in, bytes_out, packets_out) = three_words(&mut words)?;
    let (flags, local, remote) = three_words(&mut words)?;
    if words.next().is_some() {
        return None;
    }
    Some(VifWords {
        index,
        device,
        counters: CounterWords {
            bytes_in,
            packets_in,
            bytes_out,
            packets_out,
        },
        flags,
        local,
        remote,
    })
}

#[tactic(auto, unfolding(crate::specs::VifReading::vif_in_words))]
fn vif_of_words(words: &VifWords<'_>) -> Result<VifRow, TableFaultKind>
    ensures { result ≡ vif_in_words (vif_word_list words.now) }
{
    let index = number(words.index, 0, MAX_VIF).ok_or(TableFaultKind::BadIndex)?;
    let device = device_name(words.device)?;
    check_counter(words.counters.bytes_in)?;
    check_counter(words.counters.packets_in)?;
    check_counter(words.counters.bytes_out)?;
    check_counter(words.counters.packets_out)?;
    let flags = flags_of_word(words.flags)?;
    check_address(words.local)?;
    check_address(words.remote)?;
    Ok(VifRow {
        index,
        vif: Vif::new(device, flags),
    })
}

fn device_name(word: &[u8]) -> Result<DeviceName, TableFaultKind>
    ensures { result ≡ device_in word.now }
{
    if is_device_name(word) {
        Ok(DeviceName::new(word))
    } else {
        Err(TableFaultKind::BadDevice)
    }
}

fn flags_of_word(word: &[u8]) -> Result<u32, TableFaultKind>
    ensures { result ≡ flags_in word.now }
{
    if !is_hexadecimal_word(word, 5, 8) {
        return Err(TableFaultKind::BadFlags);
    }
    hexadecimal(word).ok_or(TableFaultKind::BadFlags)
}

/// The value of one to eight hexadecimal digits.
fn hexadecimal(digits: &[u8]) -> Option<u32>
    requires nonempty { 1 ≤ length digits.now }
    requires at_most_8 { length digits.now ≤ 8 }
    requires digits { IsTrue (list_all is_ascii_hexdigit digits.now) }
    ensures value { result ≡ Some (digits_value 16 digits.now) }
{
    let text = str::from_utf8(digits).ok()?;
    u32::from_str_radix(text, 16).ok()
}

/// Refuses a word that isn't an address. Its value isn't used.
fn check_address(word: &[u8]) -> Result<(), TableFaultKind>
    ensures { result ≡ demand (is_hexadecimal 8 8 word.now) BadAddress }
{
    if is_hexadecimal_word(word, 8, 8) {
        Ok(())
    } else {
        Err(TableFaultKind::BadAddress)
    }
}
