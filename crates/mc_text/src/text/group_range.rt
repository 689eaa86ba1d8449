//! Ranges of multicast groups, as an operator writes them.

ghost use Rattle.std.specs.Prelude.{◌≡◌, ℕ, IfSome, Some};
ghost use Rattle.mc_text.specs.GroupRange.{IsGroupRange, has_group, range_size, range_text};

use crate::text::addr::Addr;
use crate::text::byte_search::find_byte;
use crate::text::number::plain_decimal;
use std::fmt;
use std::marker::Model;

/// The greatest length of a range, which then has one group.
const MAX_LENGTH: u8 = 32;

/// A range of multicast groups: those that agree with its address in so many leading bits. Ranges are
/// ordered by address, and then by length. The value in contracts is the pair of both.
#[derive(Clone, Copy, Debug, PartialEq, Eq, PartialOrd, Ord)]
pub struct GroupRange {
    first: Addr,
    length: u8,
}

impl Model for GroupRange {
    ghost use Rattle.std.specs.Prelude.{ℕ};

    ghost Value = { ℕ × ℕ };

    ghost view = { λ r. (r.first, r.length) };

    ghost inverse = { λ p. record { first = p.0; length = p.1 } };
}

/// How many groups a range of this length has.
fn range_size(length: u8) -> u64
    ensures { result ≡ range_size length }
{
    1u64 << MAX_LENGTH.saturating_sub(length)
}

impl GroupRange {
    /// Reads a range: a group, a slash, and a length of 4 to 32 in decimal without leading zeros. The
    /// whole range must be multicast, and the bits behind its length must be zero.
    pub fn parse(text: &[u8]) -> Option<GroupRange>
        // A range that is read is written as this text.
        ensures found { IfSome result (λ range. text.now ≡ range_text range) }
        ensures valid { IfSome result IsGroupRange }
        // The text of a range is read as that range.
        ensures only { (range : ℕ × ℕ) → IsGroupRange range → text.now ≡ range_text range →
            result ≡ Some range }
    {
        let slash = find_byte(b'/', text)?;
        let first = Addr::parse_dotted(&text[..slash])?;
        let length = plain_decimal(&text[slash + 1..], u64::from(MAX_LENGTH))?;
        GroupRange {
            first,
            length: length as u8,
        }
        .if_valid()
    }

    /// The range, if it keeps the rules.
    fn if_valid(self) -> Option<GroupRange>
        ensures valid { IfSome result IsGroupRange }
        ensures same { IfSome result (λ range. range ≡ self) }
        ensures only { IsGroupRange self → result ≡ Some self }
    {
        let first = self.first.to_bits();
        let is_multicast = (0xE000_0000..=0xEFFF_FFFF).contains(&first);
        let has_host_bits = u64::from(first) % range_size(self.length) != 0;
        (is_multicast && (4..=MAX_LENGTH).contains(&self.length) && !has_host_bits).then_some(self)
    }

    /// Whether the range has the group.
    pub fn contains(self, group: Addr) -> bool
        ensures { result ≡ has_group self group }
    {
        let first = self.first.to_bits();
        let group = group.to_bits();
        first <= group && u64::from(group - first) < range_size(self.length)
    }
}

impl fmt::Display for GroupRange {
    ghost output = { λ range. Some (range_text range) };

    fn fmt<W: fmt::Write>(&self, f: &mut fmt::Formatter<W>) -> fmt::Result {
        let GroupRange { first, length } = *self;
        write!(f, "{first}/{length}")
    }
}
