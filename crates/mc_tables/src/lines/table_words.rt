//! The words of the kernel's tables.

ghost use Rattle.std.specs.Prelude.{◌≡◌, ◌<◌, ◌&&◌, ◌∷◌, nat_le, length, IfSome, IfNone};
ghost use Rattle.std.specs.List.{list_all};
ghost use Rattle.std.specs.Char.{is_ascii_digit, is_ascii_hexdigit};
ghost use Rattle.mc_tables.specs.declared.fault.TableFaultKind.TheVariants.{BadCounter};
ghost use Rattle.mc_tables.specs.Steps.{demand};
ghost use Rattle.mc_tables.specs.TableWords.{without_sign, is_counter, is_hexadecimal, number_in};

use crate::fault::TableFaultKind;
use mc_text::{Words, decimal};

/// The number of a router's vifs, at most (`MAXVIFS` of linux/mroute.h): their indexes are 0 to 31.
pub const MAX_VIFS: u8 = 32;

/// The greatest index of a vif.
pub const MAX_VIF: u8 = MAX_VIFS - 1;

/// The next three words, if they are there.
pub fn three_words<'a>(words: &mut Words<'a>) -> Option<(&'a [u8], &'a [u8], &'a [u8])>
    ensures found { IfSome result (λ w. words.old ≡ w.0.now ∷ w.1.now ∷ w.2.now ∷ words.new) }
    ensures only { IfNone result (length words.old < 3) }
{
    Some((words.next()?, words.next()?, words.next()?))
}

/// Reads a decimal number from `least` to `most`.
pub fn number(word: &[u8], least: u8, most: u8) -> Option<u8>
    ensures { result ≡ number_in least most word.now }
{
    let number = decimal(word, u64::from(most))?;
    if number < u64::from(least) {
        return None;
    }
    Some(number as u8)
}

/// Refuses a word that isn't a counter. Its value isn't used.
pub fn check_counter(word: &[u8]) -> Result<(), TableFaultKind>
    ensures { result ≡ demand (is_counter word.now) BadCounter }
{
    if is_counter_word(word) {
        Ok(())
    } else {
        Err(TableFaultKind::BadCounter)
    }
}

/// Whether the word is one to twenty decimal digits, with one `-` before them allowed.
fn is_counter_word(word: &[u8]) -> bool
    ensures { result ≡ is_counter word.now }
{
    let digits = without_minus(word);
    has_length(digits, 1, 20) && are_decimal_digits(digits)
}

/// The word without a `-` at its front.
fn without_minus(word: &[u8]) -> &[u8]
    ensures { result.now ≡ without_sign word.now }
{
    match word {
        [b'-', digits @ ..] => digits,
        _ => word,
    }
}

fn are_decimal_digits(word: &[u8]) -> bool
    ensures { result ≡ list_all is_ascii_digit word.now }
{
    word.iter().all(|byte| byte.is_ascii_digit())
}

/// Whether the word is `least` to `most` hexadecimal digits of either case.
pub fn is_hexadecimal_word(word: &[u8], least: usize, most: usize) -> bool
    ensures { result ≡ is_hexadecimal least most word.now }
{
    has_length(word, least, most) && are_hexadecimal_digits(word)
}

fn are_hexadecimal_digits(word: &[u8]) -> bool
    ensures { result ≡ list_all is_ascii_hexdigit word.now }
{
    word.iter().all(|byte| byte.is_ascii_hexdigit())
}

/// Whether the word has `least` to `most` bytes.
pub fn has_length(word: &[u8], least: usize, most: usize) -> bool
    ensures { result ≡ (nat_le least (length word.now) && nat_le (length word.now) most) }
{
    least <= word.len() && word.len() <= most
}
