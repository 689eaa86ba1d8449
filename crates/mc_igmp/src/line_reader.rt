//! Reading the lines of a report list whose text comes in pieces.

ghost use Rattle.std.specs.Prelude.{◌≡◌, ◌+◌, ◌<◌, ◌≤◌, ◌⊎◌, ℕ, List, [], ◌++◌, length};
ghost use Rattle.std.specs.Prelude.{Ok, Err, IfOk, OnOk, IfErr, IfSome};
ghost use Rattle.std.specs.Prelude.{◌==◌, position, take, true};
ghost use Rattle.std.specs.List.{list_all};
ghost use Rattle.hex.specs.Hex.{is_hex_digit};
ghost use Rattle.mc_text.specs.Lines.{HasNoLineFeed};
ghost use Rattle.mc_igmp.specs.declared.record.Record.{Record};
ghost use Rattle.mc_igmp.specs.ReadingList.{IsMemory, read_line};
ghost use Rattle.mc_igmp.specs.KnownLines.{AreKnownLines};
ghost use Rattle.mc_igmp.specs.ListSoFar.{IsDecodedAhead, line_after, lines_if};

use crate::digits::decode_prefix;
use crate::fault::ListFault;
use crate::known_lines::KnownLines;
use crate::list::ReportList;
use mc_text::{Line, find_byte};
use std::alloc::{AllocError, Global};

/// The line of the bytes so far and these. If there are none so far, these bytes aren't copied.
fn join_line<'a>(begun: &'a mut Vec<u8>, bytes: &'a [u8]) -> Result<&'a [u8], AllocError>
    ensures { IfOk result (λ whole. whole.now ≡ begun.old.items ++ bytes.now) }
{
    if begun.is_empty() {
        return Ok(bytes);
    }
    begun.extend_from_slice(bytes)?;
    Ok(begun.as_slice())
}

/// The place of the first line feed, which is the first byte where all digits of a line are decoded.
#[inline(always)]
fn find_line_feed(text: &[u8]) -> Option<usize>
    ensures { result ≡ position (λ byte. byte == 10) text.now }
{
    match text {
        [b'\n', ..] => Some(0),
        _ => find_byte(b'\n', text),
    }
}

/// The place of the first line feed of a text that begins with so many digits.
fn line_feed_after_digits(digits: usize, text: &[u8]) -> Option<usize>
    requires within { digits ≤ length text.now }
    requires digits { list_all is_hex_digit (take digits text.now) ≡ true }
    ensures value { result ≡ position (λ byte. byte == 10) text.now }
{
    let place = find_line_feed(&text[digits..])?;
    Some(digits + place)
}

/// The lines that have come so far.
#[derive(Debug, Drop)]
pub struct LineReader {
    /// The number of lines that have ended.
    pub ended: u32,
    /// The bytes after the last line feed.
    pub begun: Vec<u8>,
    /// The records of the lines that have ended.
    pub list: ReportList,
    /// A buffer for the bytes of a line's message.
    message: Vec<u8>,
    /// The number of these bytes that are decoded before the line's end is known.
    decoded: usize,
    /// Lines that were read before, of which each record is in the list.
    pub known: KnownLines,
}

impl LineReader {
    /// Before the first line.
    pub fn new(alloc: Global) -> LineReader
        ensures ended { result.ended ≡ 0 }
        ensures begun { result.begun.items ≡ [] }
        ensures list { result.list ≡ [] }
        ensures known { result.known ≡ [] }
    {
        LineReader {
            ended: 0,
            begun: Vec::new(alloc),
            list: ReportList::none(alloc),
            message: Vec::new(alloc),
            decoded: 0,
            known: KnownLines::none(alloc),
        }
    }

    /// Forgets the records that have come, and the lines with them.
    pub(crate) fn forget_records(&mut self)
        ensures list { self.new.list ≡ [] }
        ensures known { self.new.known ≡ [] }
        ensures begun { self.new.begun ≡ self.old.begun }
        ensures ended { self.new.ended ≡ self.old.ended }
    {
        self.list.clear();
        self.known.close();
    }

    /// Decodes the digits at the front of the bytes, if a line begins there.
    fn decode_ahead(&mut self, rest: &[u8])
        ensures ahead { IsDecodedAhead rest.now self.new.message.items self.new.decoded }
        ensures split { (self.new.begun.items ≡ []) ⊎ (self.new.decoded ≡ 0) }
        ensures begun { self.new.begun ≡ self.old.begun }
        ensures list { self.new.list ≡ self.old.list }
        ensures ended { self.new.ended ≡ self.old.ended }
        ensures known { self.new.known ≡ self.old.known }
    {
        if self.begun.is_empty() && !self.known.was_found() {
            self.decoded = decode_prefix(rest, &mut self.message);
        } else {
            self.decoded = 0;
        }
    }

    /// The place where the line ends, if it does. Its digits are decoded on the way, so that they aren't
    /// searched for the line's end.
    fn find_line_end(&mut self, rest: &[u8]) -> Option<usize>
        ensures end { result ≡ position (λ byte. byte == 10) rest.now }
        ensures ahead { IfSome result (λ end. IsDecodedAhead
            (self.new.begun.items ++ take end rest.now) self.new.message.items self.new.decoded) }
        ensures begun { self.new.begun ≡ self.old.begun }
        ensures list { self.new.list ≡ self.old.list }
        ensures ended { self.new.ended ≡ self.old.ended }
        ensures known { self.new.known ≡ self.old.known }
    {
        self.decode_ahead(rest);
        line_feed_after_digits(2 * self.decoded, rest)
    }

    /// Reads the line that ends here: the bytes that have begun it, if it is split between pieces, and
    /// these.
    fn end_line(&mut self, bytes: &[u8]) -> Result<(), ListFault>
        requires few { self.old.ended < u32.MAX }
        requires ahead { IsDecodedAhead
            (self.old.begun.items ++ bytes.now) self.old.message.items self.old.decoded }
        requires known { AreKnownLines self.old.known self.old.list }
        ensures records { OnOk result ((records : List Record)
            × (read_line (line_after self.old.ended (self.old.begun.items ++ bytes.now)) ≡ Ok records)
            × (self.new.list ≡ self.old.list ++ records)) }
        ensures ended { OnOk result (self.new.ended ≡ self.old.ended + 1) }
        ensures begun { OnOk result (self.new.begun.items ≡ []) }
        ensures fault { IfErr result (λ fault. IsMemory fault
            ⊎ (read_line (line_after self.old.ended (self.old.begun.items ++ bytes.now)) ≡ Err fault)) }
        ensures known { OnOk result (AreKnownLines self.new.known self.new.list) }
    {
        let line = Line {
            number: self.ended + 1,
            bytes: join_line(&mut self.begun, bytes)?,
            ended: true,
        };
        let (message, known) = (&mut self.message, &mut self.known);
        self.list.push_line(&line, message, self.decoded, known)?;
        self.ended += 1;
        self.begun.clear();
        Ok(())
    }

    /// Reads the lines that end in a piece, and keeps the bytes after them.
    pub fn read_piece(&mut self, piece: &[u8]) -> Result<(), ListFault>
        requires few { self.old.ended + (length self.old.begun.items + length piece.now)
            < u32.MAX }
        requires begun { HasNoLineFeed self.old.begun.items }
        requires known { AreKnownLines self.old.known self.old.list }
        ensures reads { (more : List ℕ) → OnOk result
            (lines_if self.old (piece.now ++ more) ≡ lines_if self.new more) }
        ensures fault { (more : List ℕ) → IfErr result (λ fault. IsMemory fault
            ⊎ (lines_if self.old (piece.now ++ more) ≡ Err fault)) }
        ensures few { OnOk result (self.new.ended + length self.new.begun.items
            ≤ self.old.ended + (length self.old.begun.items + length piece.now)) }
        ensures begun { OnOk result (HasNoLineFeed self.new.begun.items) }
        ensures known { OnOk result (AreKnownLines self.new.known self.new.list) }
    {
        let mut rest = piece;
        'lines: while let Some(end) = self.find_line_end(rest) {
            self.end_line(&rest[..end])?;
            rest = &rest[end + 1..];
        }
        self.begun.extend_from_slice(rest)?;
        Ok(())
    }
}
