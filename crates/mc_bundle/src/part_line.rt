//! The lines of a bundle: `end`, and `part` with a name and a length.

ghost use Rattle.std.specs.Prelude.{◌≡◌, min, true, option_map};
ghost use Rattle.std.specs.Str.Parse.{digits_value};
ghost use Rattle.mc_bundle.specs.BundleReading.{Gives, line_at as line_of};
ghost use Rattle.mc_bundle.specs.BundleReading.{parse_part_line as part_line_of};
ghost use Rattle.mc_bundle.specs.BundleReading.{parse_name_and_length as name_and_length_of};
ghost use Rattle.mc_text.specs.Number.{is_decimal};

use crate::bundle_fault::BundleFault;
use crate::part_name::PartName;
use mc_text::{decimal, find_byte, is_plain_decimal};

/// The greatest length of a line with its line feed, in bytes.
pub(crate) const MAX_LINE: usize = 96;

/// The line at the front, and the bytes after its line feed.
#[tactic(auto, unfolding(crate::specs::BundleReading::line_at))]
pub(crate) fn line_at(rest: &[u8]) -> Result<(&[u8], &[u8]), BundleFault>
    ensures { Gives (λ x. (x.0.now, x.1.now)) result (line_of rest.now) }
{
    let front = &rest[..rest.len().min(MAX_LINE)];
    match find_byte(b'\n', front) {
        Some(end) => Ok((&rest[..end], &rest[end + 1..])),
        None if rest.len() < MAX_LINE => Err(BundleFault::NoEnd),
        None => Err(BundleFault::BadPartLine),
    }
}

/// The name and the length in a part line. A length that doesn't fit in 64 bits is read as `u64::MAX`.
#[tactic(auto, unfolding(crate::specs::BundleReading::parse_part_line))]
pub(crate) fn parse_part_line(line: &[u8]) -> Option<(PartName, u64)>
    ensures { result ≡ option_map (λ header. (header.0, min header.1 u64.MAX)) (part_line_of line.now) }
{
    let words = line.strip_prefix(b"part ")?;
    parse_name_and_length(words)
}

/// The name and the length in a part line without its `part `.
fn parse_name_and_length(words: &[u8]) -> Option<(PartName, u64)>
    ensures { result ≡
        option_map (λ header. (header.0, min header.1 u64.MAX)) (name_and_length_of words.now) }
{
    let space = find_byte(b' ', words)?;
    let name = PartName::new(&words[..space])?;
    let number = &words[space + 1..];
    if !is_plain_decimal(number) {
        return None;
    }
    Some((name, length_or_max(number)))
}

/// The number that the digits write, or `u64::MAX` if it doesn't fit in 64 bits.
#[tactic(auto, using(mc_text::proofs::NumberReading::number_or_greatest))]
fn length_or_max(digits: &[u8]) -> u64
    requires decimal { is_decimal digits.now ≡ true }
    ensures value { result ≡ min (digits_value 10 digits.now) u64.MAX }
{
    decimal(digits, u64::MAX).unwrap_or(u64::MAX)
}
