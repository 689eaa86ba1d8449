//! The records of reports, kept as their bytes.

ghost use Rattle.std.specs.Prelude.{◌≡◌, ◌++◌, ◌∷◌, [], OnOk};
ghost use Rattle.mc_igmp.specs.OlderReport.{older_record};
ghost use Rattle.mc_igmp.specs.Records.{records_in, AreWholeRecords};

use crate::group_records::GroupRecords;
use crate::records::Records;
use mc_text::Addr;
use std::alloc::{AllocError, Global};
use std::marker::Model;

/// The bytes of the record that a report of version 1 or 2 for this group counts as (RFC 3376, sections
/// 4.2.4 and 7.3.2).
fn older_record_bytes(group: Addr) -> [u8; 8]
    ensures whole { AreWholeRecords 1 result }
    ensures record { records_in 1 result ≡ older_record group ∷ [] }
{
    let [a, b, c, d] = group.octets();
    [2, 0, 0, 0, a, b, c, d]
}

/// Records, as their bytes, one after another. Its value in contracts is the list of them.
#[derive(Debug, Drop)]
pub(crate) struct RecordBytes {
    /// The number of the records.
    count: usize,
    bytes: Vec<u8>,
}

impl Model for RecordBytes {
    ghost use Rattle.std.specs.Prelude.{List};
    ghost use Rattle.mc_igmp.specs.declared.record.Record.{Record};
    ghost use Rattle.mc_igmp.specs.Records.{records_in, AreWholeRecords};

    ghost Value = { List Record };

    ghost view = { λ s. records_in s.count s.bytes.items };

    ghost invariant = { λ s. AreWholeRecords s.count s.bytes.items };
}

impl RecordBytes {
    /// No records.
    pub(crate) fn none(alloc: Global) -> RecordBytes
        ensures { result ≡ [] }
    {
        RecordBytes {
            count: 0,
            bytes: Vec::new(alloc),
        }
    }

    /// Removes all records.
    pub(crate) fn clear(&mut self)
        ensures { self.new ≡ [] }
    {
        self.count = 0;
        self.bytes.clear();
    }

    /// Appends the records of a report.
    #[tactic(auto, unfolding(crate::specs::Records::records_in))]
    pub(crate) fn append(&mut self, records: &Records<'_>) -> Result<(), AllocError>
        ensures { OnOk result (self.new ≡ self.old ++ records.now) }
    {
        let (older_group, group_records) = records.parts();
        if let Some(group) = older_group {
            self.append_bytes(1, &older_record_bytes(group))?;
        }
        let (count, bytes) = group_records.parts();
        // a report of version 1 or 2 has no others
        if count == 0 {
            return Ok(());
        }
        self.append_bytes(count, bytes)
    }

    /// Appends all of these records.
    pub(crate) fn append_all(&mut self, others: &RecordBytes) -> Result<(), AllocError>
        ensures { OnOk result (self.new ≡ self.old ++ others.now) }
    {
        self.append_bytes(others.count, &others.bytes)
    }

    /// Appends the `count` group records that the bytes are.
    fn append_bytes(&mut self, count: usize, bytes: &[u8]) -> Result<(), AllocError>
        requires whole { AreWholeRecords count bytes.now }
        ensures appended { OnOk result (self.new ≡ self.old ++ records_in count bytes.now) }
    {
        self.bytes.extend_from_slice(bytes)?;
        self.count += count;
        Ok(())
    }

    /// The records, in order.
    pub(crate) fn records(&self) -> GroupRecords<'_>
        ensures { result ≡ self.now }
    {
        GroupRecords::new(self.count, &self.bytes)
    }
}
