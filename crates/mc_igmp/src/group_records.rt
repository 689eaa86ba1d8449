//! Consecutive group records, as a Version 3 report and a report list hold them.

ghost use Rattle.std.specs.Prelude.{◌≡◌, ℕ, List, MatchResult, true};
ghost use Rattle.mc_igmp.specs.Records.{records_in, after_records, AreWholeRecords, HaveNoChanges};

use crate::record::{Record, split_record};
use std::marker::Model;

/// An iterator over group records. Its value in contracts is the list of those that are left.
#[derive(Debug, Drop)]
pub struct GroupRecords<'a> {
    left: usize,
    bytes: &'a [u8],
    /// Whether it is known that no record that is left reports a change.
    known_without_changes: bool,
}

impl<'a> Model for GroupRecords<'a> {
    ghost use Rattle.std.specs.Prelude.{◌≡◌, true, List};
    ghost use Rattle.mc_igmp.specs.declared.record.Record.{Record};
    ghost use Rattle.mc_igmp.specs.Records.{records_in, AreWholeRecords, HaveNoChanges};

    ghost Value = { List Record };

    ghost view = { λ s. records_in s.left s.bytes.now };

    ghost invariant = { λ s. AreWholeRecords s.left s.bytes.now
        × (s.known_without_changes ≡ true → HaveNoChanges (records_in s.left s.bytes.now)) };
}

/// The bytes after the first `count` records and whether none of these reports a change, or the number
/// of the first, counted from 1, that doesn't end within the bytes.
fn skip_records(count: u16, bytes: &[u8]) -> Result<(&[u8], bool), u32>
    ensures { MatchResult result
        (λ x. (after_records 1 count bytes.now ≡ Ok x.0.now)
        × (x.1 ≡ true → HaveNoChanges (records_in count bytes.now)))
        (λ number. after_records 1 count bytes.now ≡ Err number) }
{
    let mut rest = bytes;
    let mut no_changes = true;
    for index in 0..count {
        let Some((record, after)) = split_record(rest) else {
            return Err(u32::from(index) + 1);
        };
        no_changes &= !record.kind.is_change();
        rest = after;
    }
    Ok((rest, no_changes))
}

impl<'a> GroupRecords<'a> {
    /// The first `count` records of the bytes, or the number of the first, counted from 1, that
    /// doesn't end within them.
    pub(crate) fn read(count: u16, bytes: &'a [u8]) -> Result<GroupRecords<'a>, u32>
        ensures { MatchResult result
            (λ records. (ignored : List ℕ) ×
            (after_records 1 count bytes.now ≡ Ok ignored) × (records ≡ records_in count bytes.now))
            (λ number. after_records 1 count bytes.now ≡ Err number) }
    {
        let (ignored, known_without_changes) = skip_records(count, bytes)?;
        let own = &bytes[..bytes.len() - ignored.len()];
        Ok(GroupRecords {
            left: usize::from(count),
            bytes: own,
            known_without_changes,
        })
    }

    /// The `count` records that the bytes are, one after another.
    pub(crate) fn new(count: usize, bytes: &'a [u8]) -> GroupRecords<'a>
        requires whole { AreWholeRecords count bytes.now }
        ensures value { result ≡ records_in count bytes.now }
    {
        GroupRecords {
            left: count,
            bytes,
            known_without_changes: false,
        }
    }

    /// A copy of the iterator.
    pub(crate) fn iter(&self) -> GroupRecords<'a>
        ensures { result ≡ self.now }
    {
        GroupRecords {
            left: self.left,
            bytes: self.bytes,
            known_without_changes: self.known_without_changes,
        }
    }

    /// Whether it is known, from reading them, that none reports a change.
    pub(crate) fn has_no_changes(&self) -> bool
        ensures { result ≡ true → HaveNoChanges self.now }
    {
        self.known_without_changes
    }

    /// The number of records that are left and their bytes.
    pub(crate) fn parts(&self) -> (usize, &'a [u8])
        ensures whole { AreWholeRecords result.0 result.1.now }
        ensures records { records_in result.0 result.1.now ≡ self.now }
    {
        (self.left, self.bytes)
    }
}

impl<'a> Iterator for GroupRecords<'a> {
    type Item = Record<'a>;

    ghost use Rattle.std.specs.Iterator.{YieldsFirst, item_count};

    ghost next_gives = { YieldsFirst (λ left. left) };

    ghost remaining = { item_count (λ left. left) };

    fn next(&mut self) -> Option<Record<'a>> {
        if self.left == 0 {
            return None;
        }
        let (record, rest) = split_record(self.bytes)?;
        self.left -= 1;
        self.bytes = rest;
        Some(record)
    }
}
