//! The records of one report.

ghost use Rattle.std.specs.Prelude.{◌≡◌, ◌++◌, ◌∷◌, ℕ, List, [], MatchResult, true};
ghost use Rattle.mc_igmp.specs.OlderReport.{older_record, older_records};
ghost use Rattle.mc_igmp.specs.Records.{records_in, after_records, HaveNoChanges};

use crate::group_records::GroupRecords;
use crate::record::Record;
use mc_text::Addr;
use std::marker::Model;

/// An iterator over the records of a report. Its value in contracts is the list of those that are left.
#[derive(Debug, Drop)]
pub struct Records<'a> {
    /// The group of a report of version 1 or 2, if its record is left.
    older_group: Option<Addr>,
    /// The group records that are left of a Version 3 report.
    group_records: GroupRecords<'a>,
}

impl<'a> Model for Records<'a> {
    ghost use Rattle.std.specs.Prelude.{List, ◌++◌};
    ghost use Rattle.mc_igmp.specs.declared.record.Record.{Record};
    ghost use Rattle.mc_igmp.specs.OlderReport.{older_records};

    ghost Value = { List Record };

    ghost view = { λ s. older_records s.older_group ++ s.group_records };
}

impl<'a> Records<'a> {
    /// The first `count` group records of the bytes, or the number of the first, counted from 1,
    /// that doesn't end within them.
    pub(crate) fn read(count: u16, bytes: &'a [u8]) -> Result<Records<'a>, u32>
        ensures { MatchResult result
            (λ records. (ignored : List ℕ) ×
            (after_records 1 count bytes.now ≡ Ok ignored) × (records ≡ records_in count bytes.now))
            (λ number. after_records 1 count bytes.now ≡ Err number) }
    {
        let group_records = GroupRecords::read(count, bytes)?;
        Ok(Records {
            older_group: None,
            group_records,
        })
    }

    /// The one record of a report of version 1 or 2.
    #[tactic(auto, unfolding(crate::specs::Records::after_records, crate::specs::Records::records_in))]
    pub(crate) fn of_older_report(group: Addr) -> Records<'a>
        ensures { result ≡ older_record group ∷ [] }
    {
        Records {
            older_group: Some(group),
            group_records: GroupRecords::new(0, &[]),
        }
    }

    /// A copy of the iterator.
    pub(crate) fn iter(&self) -> Records<'a>
        ensures { result ≡ self.now }
    {
        Records {
            older_group: self.older_group,
            group_records: self.group_records.iter(),
        }
    }

    /// Whether it is known, from reading them, that none reports a change.
    pub(crate) fn has_no_changes(&self) -> bool
        ensures { result ≡ true → HaveNoChanges self.now }
    {
        self.group_records.has_no_changes()
    }

    /// The group of a report of version 1 or 2, if its record is left, and the group records that
    /// are left of a Version 3 report.
    pub(crate) fn parts(&self) -> (Option<Addr>, GroupRecords<'a>)
        ensures { self.now ≡ older_records result.0 ++ result.1 }
    {
        (self.older_group, self.group_records.iter())
    }
}

impl<'a> Iterator for Records<'a> {
    type Item = Record<'a>;

    ghost use Rattle.std.specs.Iterator.{YieldsFirst, item_count};

    ghost next_gives = { YieldsFirst (λ left. left) };

    ghost remaining = { item_count (λ left. left) };

    fn next(&mut self) -> Option<Record<'a>> {
        match self.older_group.take() {
            Some(group) => Some(Record::of_older_report(group)),
            None => self.group_records.next(),
        }
    }
}
