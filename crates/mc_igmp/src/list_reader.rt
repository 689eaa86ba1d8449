//! Reading a report list whose text comes in pieces.

ghost use Rattle.std.specs.Prelude.{◌≡◌, ◌+◌, ◌≤◌, ◌↔◌, ℕ, List, ◌++◌, length, min, []};
ghost use Rattle.std.specs.Prelude.{Err, Some, OnOk, OnErr, IsErr, IsTrue};
ghost use Rattle.mc_text.specs.Lines.{max_text};
ghost use Rattle.mc_igmp.specs.ReadingList.{oom_fault, read_list};
ghost use Rattle.mc_igmp.specs.ListSoFar.{no_list, without_records, list_if};

use crate::fault::{ListFault, ListFaultKind};
use crate::line_reader::LineReader;
use crate::list::{ListRecords, ReportList};
use mc_text::{MAX_TEXT, Memory, PieceReader};
use std::alloc::Global;
use std::marker::Model;

/// A reader of a report list that is fed the text in pieces of any size. Of the text it keeps only the
/// line that has begun. The records can be read as they come, and forgotten.
#[derive(Debug, Drop)]
pub struct ListReader {
    /// The number of bytes that have come, at most one more than a text may have.
    size: usize,
    lines: LineReader,
    /// The first fault of a line, or that memory ran out.
    fault: Option<ListFault>,
}

impl Model for ListReader {
    ghost use Rattle.std.specs.Prelude.{◌≡◌, ◌≤◌, ◌+◌, None, Some};
    ghost use Rattle.mc_text.specs.Lines.{max_text};
    ghost use Rattle.mc_igmp.specs.ReadingList.{oom_fault};
    ghost use Rattle.mc_igmp.specs.KnownLines.{AreKnownLines};
    ghost use Rattle.mc_igmp.specs.ListSoFar.{ListSoFar, CanReadOn};

    ghost Value = { ListSoFar };

    ghost view = { λ s. record {
      size = s.size;
      ended = s.lines.ended;
      begun = s.lines.begun.items;
      records = s.lines.list;
      fault = s.fault;
    } };

    ghost invariant = { λ s. (s.size ≤ max_text + 1)
        × CanReadOn s.size s.lines.ended s.lines.begun.items s.fault
        × (s.fault ≡ Some oom_fault → s.size ≤ max_text)
        × (s.fault ≡ None → AreKnownLines s.lines.known s.lines.list) };
}

impl ListReader {
    /// A reader that was fed nothing.
    pub fn new(alloc: Global) -> ListReader
        ensures start { result ≡ no_list }
        // Fed any text, reading ends with what the whole text is read as.
        ensures reads { (text : List ℕ) → list_if result text ≡ read_list text }
    {
        ListReader {
            size: 0,
            lines: LineReader::new(alloc),
            fault: None,
        }
    }

    /// The number of bytes that can be fed until the text is known to be too large.
    pub fn room(&self) -> usize
        ensures { self.now.size + result ≡ max_text + 1 }
    {
        MAX_TEXT + 1 - self.size
    }

    /// Reads the next piece of the text. A fault of a line is returned by `finish` only, since a text
    /// that is too large is refused for its size first.
    ///
    /// # Errors
    ///
    /// `Memory` if an allocation is refused. Each later call returns it again, and so does `finish`.
    pub fn feed(&mut self, piece: &[u8]) -> Result<(), Memory>
        // Whatever bytes come next, reading ends as with this piece and these bytes before.
        ensures goes_on { (more : List ℕ) → OnOk result
            (list_if self.new more ≡ list_if self.old (piece.now ++ more)) }
        ensures size { OnOk result
            (self.new.size ≡ min (self.old.size + length piece.now) (max_text + 1)) }
        ensures within { self.new.size ≤ self.old.size + length piece.now }
        ensures memory { OnErr result (self.new.fault ≡ Some oom_fault) }
        // Once memory ran out, each call returns that again.
        ensures again { self.old.fault ≡ Some oom_fault → IsErr result × (self.new ≡ self.old) }
    {
        if self.is_out_of_memory() {
            return Err(Memory);
        }
        self.size = self.size.saturating_add(piece.len()).min(MAX_TEXT + 1);
        if self.size > MAX_TEXT || self.fault.is_some() {
            return Ok(());
        }
        let Err(fault) = self.lines.read_piece(piece) else {
            return Ok(());
        };
        self.fault = Some(fault);
        if fault.is_memory() {
            Err(Memory)
        } else {
            Ok(())
        }
    }

    /// Whether memory ran out.
    fn is_out_of_memory(&self) -> bool
        ensures { IsTrue result ↔ (self.now.fault ≡ Some oom_fault) }
    {
        match self.fault {
            Some(fault) => fault.is_memory(),
            None => false,
        }
    }

    /// The records of the lines that have ended, without those that were forgotten.
    pub fn records(&self) -> ListRecords<'_>
        ensures { result ≡ self.now.records }
    {
        self.lines.list.records()
    }

    /// Forgets the records that have come.
    pub fn forget_records(&mut self)
        ensures { self.new ≡ without_records self.old }
    {
        self.lines.forget_records();
    }

    /// Ends the text and returns its records, without those that were forgotten.
    ///
    /// # Errors
    ///
    /// The first fault, as of `ReportList::read`, or `Memory` if `feed` returned that.
    pub fn finish(self) -> Result<ReportList, ListFault>
        ensures ends { result ≡ list_if self [] }
        ensures again { self.fault ≡ Some oom_fault → result ≡ Err oom_fault }
    {
        let ListReader { size, lines, fault } = self;
        if size > MAX_TEXT {
            return Err(ListFaultKind::TooLarge.at(0, 0));
        }
        if let Some(fault) = fault {
            return Err(fault);
        }
        if !lines.begun.is_empty() {
            return Err(ListFaultKind::Unended.at(lines.ended + 1, 0));
        }
        Ok(lines.list)
    }
}

impl PieceReader for ListReader {
    ghost use Rattle.std.specs.Prelude.{List, Result};
    ghost use Rattle.mc_igmp.specs.ListSoFar.{list_if};
    ghost use Rattle.mc_igmp.specs.declared.fault.ListFault.{ListFault};
    ghost use Rattle.mc_igmp.specs.declared.record.Record.{Record};

    ghost ReadResult = { Result (List Record) ListFault };

    ghost result_after = { list_if };

    ghost size = { λ s. s.size };

    fn take(&mut self, piece: &[u8]) -> Result<(), Memory> {
        self.feed(piece)
    }
}
