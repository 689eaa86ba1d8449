//! A report list: the replies of the hosts of one LAN to one General Query, a message on each line.

ghost use Rattle.std.specs.Prelude.{◌≡◌, ◌*◌, ◌++◌, ◌∷◌, ◌<◌, ◌≤◌, ◌^◌, ◌⊎◌, List, [], length};
ghost use Rattle.std.specs.Prelude.{unwrap_or};
ghost use Rattle.std.specs.Prelude.{IfOk, IfErr, IfSome, OnOk, MatchResult, Some, option_map, slice_get};
ghost use Rattle.std.specs.Prelude.{true};
ghost use Rattle.mc_text.specs.DigitPairs.{AreDecoded};
ghost use Rattle.mc_text.specs.LineView.{line_text};
ghost use Rattle.mc_igmp.specs.declared.record.Record.{Record};
ghost use Rattle.mc_igmp.specs.ReadingList.{IsMemory, oom_fault};
ghost use Rattle.mc_igmp.specs.ReadingMessage.{read_message};
ghost use Rattle.mc_igmp.specs.ReportList.{IsReportList};
ghost use Rattle.mc_igmp.specs.ReadingList.{bytes_of_line, first_change, accepted_records, read_line};
ghost use Rattle.mc_igmp.specs.ReadingList.{read_list};
ghost use Rattle.mc_igmp.specs.KnownLines.{AreKnownLines};
ghost use Rattle.mc_igmp.specs.Wants.{HaveSameRecords, IsListed};

use crate::digits::decode_to_front;
use crate::fault::{ListFault, ListFaultKind};
use crate::group_records::GroupRecords;
use crate::known_lines::KnownLines;
use crate::message::{Message, MessageFault};
use crate::record_bytes::RecordBytes;
use crate::records::Records;
use mc_text::{Line, Lines, MAX_TEXT};
use std::alloc::{AllocError, Global};
use std::marker::Model;

/// The greatest number of lines.
const MAX_LINES: u32 = 65_536;

/// The greatest line, in bytes: two digits for each byte of an IP packet's greatest payload.
const MAX_LINE_LEN: usize = 131_030;

/// Decodes a line's hexadecimal digits to the front of `bytes`, where the first `decoded` bytes are
/// decoded already. `bytes` grows to the longest line and is overwritten by the next one.
fn decode_line<'a>(
    line: &Line<'_>,
    bytes: &'a mut Vec<u8>,
    decoded: usize,
) -> Result<&'a [u8], ListFault>
    requires decoded { AreDecoded line.now.bytes.now bytes.old.items decoded }
    requires within { 2 * decoded ≤ length line.now.bytes.now }
    requires room { decoded ≤ length bytes.old.items }
    ensures ok { IfOk result (λ read. bytes_of_line (line_text line.now) ≡ Ok read.now) }
    ensures err { IfErr result (λ fault.
        IsMemory fault ⊎ (bytes_of_line (line_text line.now) ≡ Err fault)) }
{
    if !line.ended {
        return Err(ListFaultKind::Unended.at(line.number, 0));
    }
    if line.number > MAX_LINES || line.bytes.len() > MAX_LINE_LEN {
        return Err(ListFaultKind::TooLarge.at(line.number, 0));
    }
    if line.bytes.len() % 2 != 0 {
        return Err(ListFaultKind::BadHex.at(line.number, 0));
    }
    let len = line.bytes.len() / 2;
    if bytes.len() < len {
        bytes.resize(len, 0)?;
    }
    if decode_to_front(line.bytes, bytes, decoded) {
        Ok(&bytes[..len])
    } else {
        Err(ListFaultKind::BadHex.at(line.number, 0))
    }
}

/// The number of the first record, counted from 1, that reports a change.
fn first_change_of(records: &Records<'_>) -> Option<u32>
    requires bounded { length records.now < 2 ^ 16 }
    ensures value { result ≡ first_change 1 records.now }
{
    if records.has_no_changes() {
        return None;
    }
    let mut number = 0u32;
    for record in records.iter() {
        number += 1;
        if record.kind.is_change() {
            return Some(number);
        }
    }
    None
}

/// The records of the message on a line, or none if it is no report.
fn accepted_records_of_line(
    line_number: u32,
    bytes: &[u8],
) -> Result<Option<Records<'_>>, ListFault>
    ensures { MatchResult result
        (λ records. accepted_records line_number (read_message bytes.now) ≡ Ok (unwrap_or records []))
        (λ fault. accepted_records line_number (read_message bytes.now) ≡ Err fault) }
{
    match Message::parse(bytes) {
        Ok(Message::Report(records)) => match first_change_of(&records) {
            Some(number) => Err(ListFaultKind::StateChange.at(line_number, number)),
            None => Ok(Some(records)),
        },
        Ok(Message::Other(_)) => Ok(None),
        Err(MessageFault::Short) => Err(ListFaultKind::Short.at(line_number, 0)),
        Err(MessageFault::BadChecksum) => Err(ListFaultKind::BadChecksum.at(line_number, 0)),
        Err(MessageFault::Truncated(number)) => Err(ListFaultKind::Truncated.at(
            line_number,
            number,
        )),
    }
}

/// The place of a line among the known ones, if it is known, ended, and one of the first that a list may
/// have.
fn place_of_line(known: &mut KnownLines, line: &Line<'_>) -> Option<usize>
    ensures lines { known.new ≡ known.old }
    ensures found { IfSome result (λ place. option_map (λ known. known.text.items)
        (slice_get known.old place) ≡ Some line.now.bytes.now) }
    ensures ended { IfSome result (λ place. line.now.ended ≡ true) }
    ensures number { IfSome result (λ place. line.now.number ≤ MAX_LINES) }
{
    if line.ended && line.number <= MAX_LINES {
        known.place_of(line.bytes)
    } else {
        None
    }
}

/// Appends the records of a report to two lists.
fn append_to_both(
    some: &mut RecordBytes,
    others: &mut RecordBytes,
    records: &Records<'_>,
) -> Result<(), AllocError>
    ensures some { OnOk result (some.new ≡ some.old ++ records.now) }
    ensures others { OnOk result (others.new ≡ others.old ++ records.now) }
{
    some.append(records)?;
    others.append(records)
}

/// An iterator over the records of a list.
pub type ListRecords<'a> = GroupRecords<'a>;

/// The records of a LAN's reports, in order. Its value in contracts is the list of them.
#[derive(Debug, Drop)]
pub struct ReportList {
    all: RecordBytes,
    /// The records of lines that weren't known to repeat an earlier one.
    distinct: RecordBytes,
}

impl Model for ReportList {
    ghost use Rattle.std.specs.Prelude.{List};
    ghost use Rattle.mc_igmp.specs.declared.record.Record.{Record};
    ghost use Rattle.mc_igmp.specs.Wants.{HaveSameRecords};

    ghost Value = { List Record };

    ghost view = { λ s. s.all };

    ghost invariant = { λ s. HaveSameRecords s.distinct s.all };
}

impl ReportList {
    /// The list of no records.
    pub(crate) fn none(alloc: Global) -> ReportList
        ensures { result ≡ [] }
    {
        ReportList {
            all: RecordBytes::none(alloc),
            distinct: RecordBytes::none(alloc),
        }
    }

    /// Removes all records.
    pub(crate) fn clear(&mut self)
        ensures { self.new ≡ [] }
    {
        self.all.clear();
        self.distinct.clear();
    }

    /// Reads a report list: a message in hexadecimal on each line, with nothing else on it. The
    /// empty text is a list without a record, and so is one of messages that are no reports. A
    /// report of version 1 or 2 counts as one record, as in [`Message`].
    ///
    /// # Errors
    /// `TooLarge` at line 0 for a text of more than 16,777,216 bytes. Otherwise the fault of the first
    /// line that has one: the first of `Unended`, `TooLarge` (line 65,537, or more than
    /// 131,030 bytes on the line), `BadHex`, `Short`, `BadChecksum`, `Truncated` and `StateChange`.
    /// `Memory` if an allocation is refused.
    pub fn read(alloc: Global, text: &[u8]) -> Result<ReportList, ListFault>
        // The text is a report list of the records that are read.
        ensures found { IfOk result (λ records. IsReportList text.now records) }
        // A report list is read as its records, unless memory runs out.
        ensures only { (records : List Record) → IsReportList text.now records →
            (result ≡ Ok records) ⊎ (result ≡ Err oom_fault) }
        // Which fault it is, unless memory runs out.
        ensures fault { (result ≡ read_list text.now) ⊎ (result ≡ Err oom_fault) }
    {
        if text.len() > MAX_TEXT {
            return Err(ListFaultKind::TooLarge.at(0, 0));
        }
        let mut list = ReportList::none(alloc);
        let mut message = Vec::new(alloc);
        let mut known = KnownLines::none(alloc);
        for line in Lines::new(text) {
            list.push_line(&line, &mut message, 0, &mut known)?;
        }
        Ok(list)
    }

    /// Appends the records of the message on a line, and lets the line be known, if there is room. `message`
    /// is a buffer for the bytes of the message, of which the first `decoded` are decoded already.
    pub(crate) fn push_line(
        &mut self,
        line: &Line<'_>,
        message: &mut Vec<u8>,
        decoded: usize,
        known: &mut KnownLines,
    ) -> Result<(), ListFault>
        requires decoded { AreDecoded line.now.bytes.now message.old.items decoded }
        requires within { 2 * decoded ≤ length line.now.bytes.now }
        requires room { decoded ≤ length message.old.items }
        requires known { AreKnownLines known.old self.old }
        ensures ok { OnOk result ((records : List Record) ×
            (read_line (line_text line.now) ≡ Ok records) × (self.new ≡ self.old ++ records)) }
        ensures err { IfErr result (λ fault.
            IsMemory fault ⊎ (read_line (line_text line.now) ≡ Err fault)) }
        ensures known { OnOk result (AreKnownLines known.new self.new) }
    {
        if let Some(place) = place_of_line(known, line) {
            self.append_known(&known.line(place).records)?;
            return Ok(());
        }
        let bytes = decode_line(line, message, decoded)?;
        if let Some(records) = accepted_records_of_line(line.number, bytes)? {
            self.append(&records)?;
            known.add(line.bytes, &records)?;
        }
        Ok(())
    }

    /// Appends the records of a report. If memory runs out, none are left.
    fn append(&mut self, records: &Records<'_>) -> Result<(), AllocError>
        ensures { OnOk result (self.new ≡ self.old ++ records.now) }
    {
        match append_to_both(&mut self.all, &mut self.distinct, records) {
            Ok(()) => Ok(()),
            Err(fault) => {
                self.all.clear();
                self.distinct.clear();
                Err(fault)
            }
        }
    }

    /// Appends records that are in the list already. If memory runs out, none are left.
    fn append_known(&mut self, known: &RecordBytes) -> Result<(), AllocError>
        requires known { IsListed known.now self.old }
        ensures appended { OnOk result (self.new ≡ self.old ++ known.now) }
    {
        match self.all.append_all(known) {
            Ok(()) => Ok(()),
            Err(fault) => {
                self.all.clear();
                self.distinct.clear();
                Err(fault)
            }
        }
    }

    /// The records, in order.
    pub fn records(&self) -> ListRecords<'_>
        ensures { result ≡ self.now }
    {
        self.all.records()
    }

    /// The records without most of those that repeat others, for what only depends on which there are:
    /// hosts report the same again and again.
    pub fn distinct_records(&self) -> ListRecords<'_>
        ensures { HaveSameRecords result self.now }
    {
        self.distinct.records()
    }
}
