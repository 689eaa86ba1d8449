//! A text as its lines. Only a line feed (byte 0x0A) ends a line.

ghost use Rattle.std.specs.Prelude.{◌≡◌, ◌≤◌, length};

use crate::text::byte_search::find_byte;
use std::marker::Model;

/// The greatest text that is read as lines, in bytes.
pub const MAX_TEXT: usize = 16_777_216;

/// A line of a text.
#[derive(Clone, Copy, Debug, PartialEq, Eq)]
pub struct Line<'a> {
    /// Its number, counted from 1.
    pub number: u32,
    /// Its bytes, without the line feed.
    pub bytes: &'a [u8],
    /// Whether a line feed ends it. Only the last line of a text may have none.
    pub ended: bool,
}

/// The lines of a text, from the front. A text that ends with a line feed has no line after it, and
/// the empty text has none at all.
#[derive(Debug, Drop)]
pub struct Lines<'a> {
    rest: &'a [u8],
    next_number: u32,
}

impl<'a> Model for Lines<'a> {
    ghost use Rattle.std.specs.Prelude.{◌<◌, ◌+◌, ◌^◌, List, length};
    ghost use Rattle.mc_text.specs.Lines.{LineText, lines_from};

    ghost Value = { List LineText };

    ghost view = { λ s. lines_from s.next_number s.rest.now };

    ghost invariant = { λ s. s.next_number + length s.rest.now < 2 ^ 32 };
}

impl<'a> Lines<'a> {
    ghost use Rattle.mc_text.specs.Lines.{lines_of, max_text};

    /// The lines of a text of at most 16,777,216 bytes.
    pub fn new(text: &'a [u8]) -> Lines<'a>
        requires bounded { length text.now ≤ max_text }
        ensures value { result ≡ lines_of text.now }
    {
        Lines {
            rest: text,
            next_number: 1,
        }
    }
}

impl<'a> Iterator for Lines<'a> {
    type Item = Line<'a>;

    ghost use Rattle.std.specs.Iterator.{YieldsFirstBy, item_count};
    ghost use Rattle.mc_text.specs.LineView.{line_text};

    ghost next_gives = { YieldsFirstBy line_text (λ left. left) };

    ghost remaining = { item_count (λ left. left) };

    fn next(&mut self) -> Option<Line<'a>> {
        if self.rest.is_empty() {
            return None;
        }
        let number = self.next_number;
        self.next_number += 1;
        match find_byte(b'\n', self.rest) {
            Some(end) => {
                let bytes = &self.rest[..end];
                self.rest = &self.rest[end + 1..];
                Some(Line {
                    number,
                    bytes,
                    ended: true,
                })
            }
            None => {
                let bytes = self.rest;
                self.rest = &[];
                Some(Line {
                    number,
                    bytes,
                    ended: false,
                })
            }
        }
    }
}
