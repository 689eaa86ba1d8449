//! Splits a text that comes in pieces into lines.

ghost use Rattle.std.specs.Prelude.{◌≡◌, ◌+◌, ◌<◌, ◌≤◌, ◌==◌, [], length, IfOk, IfSome};
ghost use Rattle.std.specs.Prelude.{position, Some};
ghost use Rattle.mc_text.specs.LineView.{line_text};
ghost use Rattle.mc_text.specs.Lines.{max_text};
ghost use Rattle.mc_tables.specs.LinesSoFar.{lines_start, with_begun, with_ended, TakesToLineFeed};
ghost use Rattle.mc_tables.specs.LinesSoFar.{IsValidLinesSoFar, line_begun, check_end_of_lines};

use crate::fault::{TableFault, TableFaultKind};
use mc_text::{Line, MAX_TEXT, find_byte};
use std::alloc::{AllocError, Global};
use std::marker::Model;

/// How many lines have ended, how many bytes have come, and the bytes after the last line feed.
#[derive(Debug, Drop)]
pub struct LineBuffer {
    ended: u32,
    size: usize,
    begun: Vec<u8>,
}

impl Model for LineBuffer {
    ghost use Rattle.mc_tables.specs.LinesSoFar.{LinesSoFar, IsValidLinesSoFar};

    ghost Value = { LinesSoFar };

    ghost view = { λ s. record { ended = s.ended; size = s.size; begun = s.begun.items } };

    ghost invariant = { λ s. IsValidLinesSoFar
        (record { ended = s.ended; size = s.size; begun = s.begun.items }) };
}

impl LineBuffer {
    /// The state before the first piece.
    pub fn new(alloc: Global) -> LineBuffer
        ensures { result ≡ lines_start }
    {
        LineBuffer {
            ended: 0,
            size: 0,
            begun: Vec::new(alloc),
        }
    }

    /// How many lines have ended.
    pub fn ended(&self) -> u32
        ensures ended { result ≡ self.now.ended }
        ensures fits { result ≤ max_text }
        ensures rules { IsValidLinesSoFar self.now }
    {
        self.ended
    }

    /// How many bytes may still come.
    pub fn room(&self) -> usize
        ensures { self.now.size + result ≡ max_text }
    {
        MAX_TEXT - self.size
    }

    /// Refuses a text that ends here, if a line has begun or none has ended.
    pub fn check_end(&self) -> Result<(), TableFault>
        ensures end { result ≡ check_end_of_lines self.now }
        ensures rules { IsValidLinesSoFar self.now }
    {
        if !self.begun.is_empty() {
            return Err(TableFaultKind::Unended.at(self.ended + 1));
        }
        if self.ended == 0 {
            return Err(TableFaultKind::NoHeader.at(1));
        }
        Ok(())
    }

    /// Takes the bytes up to the first line feed, and returns its place. Without one it takes all.
    pub fn take_to_line_feed(&mut self, rest: &[u8]) -> Result<Option<usize>, AllocError>
        requires bounded { self.old.size + length rest.now ≤ max_text }
        ensures rules { IsValidLinesSoFar self.old }
        ensures taken { IfOk result (TakesToLineFeed self.old rest.now self.new) }
    {
        match find_byte(b'\n', rest) {
            Some(end) => {
                self.begun.extend_from_slice(&rest[..end])?;
                self.size += end + 1;
                Ok(Some(end))
            }
            None => {
                self.begun.extend_from_slice(rest)?;
                self.size += rest.len();
                Ok(None)
            }
        }
    }

    /// The place of the first line feed, if the bytes are the first of a line.
    pub fn whole_line_end(&self, rest: &[u8]) -> Option<usize>
        ensures begun { IfSome result (λ end. self.now.begun ≡ []) }
        ensures end { IfSome result (λ end. position (λ byte. byte == 10) rest.now ≡ Some end) }
        ensures rules { IsValidLinesSoFar self.now }
    {
        if self.begun.is_empty() {
            find_byte(b'\n', rest)
        } else {
            None
        }
    }

    /// The line of these bytes, whose line feed comes next.
    pub fn line_of<'a>(&self, bytes: &'a [u8]) -> Line<'a>
        requires bounded { self.now.ended < max_text }
        requires begun { self.now.begun ≡ [] }
        ensures value { line_text result ≡
            line_begun (with_begun self.now (length bytes.now + 1) bytes.now) }
    {
        Line {
            number: self.ended + 1,
            bytes,
            ended: true,
        }
    }

    /// Skips a line of so many bytes and its line feed, of which nothing was taken before.
    pub fn skip_line(&mut self, len: usize)
        requires room { self.old.size + (len + 1) ≤ max_text }
        requires begun { self.old.begun ≡ [] }
        ensures change { self.new ≡ with_ended (with_begun self.old (len + 1) []) }
    {
        self.size += len + 1;
        self.ended += 1;
    }

    /// The line that has begun, whose line feed has come.
    pub fn line(&self) -> Line<'_>
        ensures { line_text result ≡ line_begun self.now }
    {
        Line {
            number: self.ended + 1,
            bytes: self.begun.as_slice(),
            ended: true,
        }
    }

    /// Begins the next line.
    pub fn begin_next_line(&mut self)
        requires bounded { self.old.ended + length self.old.begun < self.old.size }
        ensures change { self.new ≡ with_ended self.old }
    {
        self.ended += 1;
        self.begun.clear();
    }
}
