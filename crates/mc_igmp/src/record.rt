//! Group records, each with a filter for one group (RFC 3376, section 4.2.4 and on).

ghost use Rattle.std.specs.Prelude.{◌≡◌, ◌≤◌, length};
ghost use Rattle.std.specs.Option.{option_map};
ghost use Rattle.mc_igmp.specs.Kind.{kind_of, is_change};
ghost use Rattle.mc_igmp.specs.OlderReport.{older_record};
ghost use Rattle.mc_igmp.specs.Record.{group_at, read_record};

use byteorder::{BigEndian, ByteOrder};
use mc_text::Addr;
use std::marker::Model;

/// The number of bytes of a record before its sources.
const HEADER_LEN: usize = 8;

/// The number of bytes of an address, and of a word of auxiliary data.
const WORD_LEN: usize = 4;

/// The meaning of a record's sources, by its type.
#[derive(Clone, Copy, Debug, PartialEq, Eq)]
pub enum Kind {
    /// Only these sources are wanted (MODE_IS_INCLUDE, 1).
    Include,
    /// All sources but these are wanted (MODE_IS_EXCLUDE, 2).
    Exclude,
    /// The filter has changed: one of the types 3 to 6.
    Change(u8),
    /// A type that no standard names.
    Unknown(u8),
}

impl Kind {
    #[tactic(auto, unfolding(crate::specs::Kind::kind_of))]
    fn from_type(record_type: u8) -> Kind
        ensures { result ≡ kind_of record_type }
    {
        match record_type {
            1 => Kind::Include,
            2 => Kind::Exclude,
            3..=6 => Kind::Change(record_type),
            _ => Kind::Unknown(record_type),
        }
    }

    /// Whether the record reports a change.
    pub(crate) fn is_change(self) -> bool
        ensures { result ≡ is_change self }
    {
        matches!(self, Kind::Change(_))
    }
}

/// An iterator over the sources of a record. Its value in contracts is the list of those that are left.
#[derive(Debug, Drop)]
pub struct Sources<'a> {
    bytes: &'a [u8],
}

impl<'a> Model for Sources<'a> {
    ghost use Rattle.std.specs.Prelude.{ℕ, List};
    ghost use Rattle.mc_igmp.specs.Addresses.{addresses_in};

    ghost Value = { List ℕ };

    ghost view = { λ s. addresses_in s.bytes.now };
}

impl<'a> Sources<'a> {
    /// A copy of the iterator.
    pub fn iter(&self) -> Sources<'a>
        ensures { result ≡ self.now }
    {
        Sources { bytes: self.bytes }
    }
}

impl<'a> Iterator for Sources<'a> {
    type Item = Addr;

    ghost use Rattle.std.specs.Iterator.{YieldsFirst, item_count};

    ghost next_gives = { YieldsFirst (λ left. left) };

    ghost remaining = { item_count (λ left. left) };

    fn next(&mut self) -> Option<Addr> {
        match self.bytes {
            [a, b, c, d, rest @ ..] => {
                let source = Addr::from_octets([*a, *b, *c, *d]);
                self.bytes = rest;
                Some(source)
            }
            _ => None,
        }
    }
}

/// A group record.
#[derive(Debug, Drop)]
pub struct Record<'a> {
    /// The meaning of its sources.
    pub kind: Kind,
    /// The group that it is about.
    pub group: Addr,
    /// Its sources.
    pub sources: Sources<'a>,
}

impl<'a> Record<'a> {
    /// The record that a report of version 1 or 2 counts as: all sources of the group are wanted
    /// (RFC 3376, section 7.3.2).
    #[tactic(auto, unfolding(crate::specs::Addresses::addresses_in))]
    pub(crate) fn of_older_report(group: Addr) -> Record<'a>
        ensures { result ≡ older_record group }
    {
        Record {
            kind: Kind::Exclude,
            group,
            sources: Sources { bytes: &[] },
        }
    }
}

/// The group of a record, or of a report of version 1 or 2: the address in bytes 4 to 7.
pub(crate) fn group_of(bytes: &[u8]) -> Addr
    requires within { 8 ≤ length bytes.now }
    ensures value { result ≡ group_at bytes.now }
{
    Addr::from_octets([bytes[4], bytes[5], bytes[6], bytes[7]])
}

/// The record that the bytes begin with, and the bytes after it, or none if it doesn't end within the
/// bytes. Its auxiliary data are skipped.
pub(crate) fn split_record(bytes: &[u8]) -> Option<(Record<'_>, &[u8])>
    ensures { option_map (λ x. (x.0, x.1.now)) result ≡ read_record bytes.now }
{
    if bytes.len() < HEADER_LEN {
        return None;
    }
    let sources_end = HEADER_LEN + WORD_LEN * usize::from(BigEndian::read_u16(&bytes[2..]));
    let end = sources_end + WORD_LEN * usize::from(bytes[1]);
    if bytes.len() < end {
        return None;
    }
    let record = Record {
        kind: Kind::from_type(bytes[0]),
        group: group_of(bytes),
        sources: Sources {
            bytes: &bytes[HEADER_LEN..sources_end],
        },
    };
    Some((record, &bytes[end..]))
}
