//! The lines of a search as they are shown: adjacent ones about routers that expect copies are joined.

ghost use Rattle.std.specs.Prelude.{◌≡◌, IfOk};
ghost use Rattle.mc_search.specs.ExpectingRouters.{expects_from, leading_expected};

use crate::search_line::SearchLine;
use mc_topology::{LanNo, RouterNo};
use std::alloc::{AllocError, Global};
use std::marker::Model;

/// An iterator over the routers of `ExpectedFromHere` lines. Its value in contracts is the list of those
/// that are left.
#[derive(Debug, Drop)]
pub struct ExpectingRouters<'s> {
    lines: &'s [SearchLine],
}

impl<'s> Model for ExpectingRouters<'s> {
    ghost use Rattle.std.specs.Prelude.{ℕ, List};
    ghost use Rattle.mc_search.specs.ExpectingRouters.{expecting_routers};

    ghost Value = { List ℕ };

    ghost view = { λ s. expecting_routers s.lines.now };
}

/// A shown line of a search.
#[derive(Debug, Drop)]
pub enum ShownLine<'s> {
    /// A single line.
    One(SearchLine),
    /// The routers that have a row that takes from the LAN.
    Expected {
        /// The LAN.
        lan: LanNo,
        /// The routers, in order.
        routers: ExpectingRouters<'s>,
    },
}

/// An iterator over the shown lines of a search. Its value in contracts is the list of those that are left.
#[derive(Debug, Drop)]
pub struct ShownLines<'s> {
    left: &'s [SearchLine],
}

impl<'s> Model for ShownLines<'s> {
    ghost use Rattle.std.specs.Prelude.{List};
    ghost use Rattle.mc_search.specs.declared.shown_line.ShownLine.{ShownLine};
    ghost use Rattle.mc_search.specs.ShownLines.{shown_lines};

    ghost Value = { List ShownLine };

    ghost view = { λ s. shown_lines s.left.now };
}

/// Whether a line is about a router that expects copies from this LAN.
fn expects_from(line: &SearchLine, lan: LanNo) -> bool
    ensures { result ≡ expects_from lan line.now }
{
    match *line {
        SearchLine::ExpectedFromHere { lan: own, .. } => own == lan,
        _ => false,
    }
}

/// How many lines at the front are about routers that expect copies from this LAN.
fn leading_expected(lines: &[SearchLine], lan: LanNo) -> usize
    ensures { result ≡ leading_expected lan lines.now }
{
    for (index, line) in lines.iter().enumerate() {
        if !expects_from(line, lan) {
            return index;
        }
    }
    lines.len()
}

impl<'s> ExpectingRouters<'s> {
    /// The list of these routers.
    ///
    /// # Errors
    ///
    /// `AllocError` if an allocation fails.
    pub fn into_vec(self, alloc: Global) -> Result<Vec<RouterNo>, AllocError>
        ensures { IfOk result (λ list. list.items ≡ self.entry) }
    {
        let mut list = Vec::new(alloc);
        for router in self {
            list.push(router)?;
        }
        Ok(list)
    }
}

impl<'s> Iterator for ExpectingRouters<'s> {
    type Item = RouterNo;

    ghost use Rattle.std.specs.Iterator.{YieldsFirst, item_count};

    ghost next_gives = { YieldsFirst (λ left. left) };

    ghost remaining = { item_count (λ left. left) };

    fn next(&mut self) -> Option<RouterNo> {
        let lines = self.lines;
        for (index, line) in lines.iter().enumerate() {
            if let SearchLine::ExpectedFromHere { router, .. } = *line {
                self.lines = &lines[index + 1..];
                return Some(router);
            }
        }
        self.lines = &lines[lines.len()..];
        None
    }
}

impl<'s> ShownLines<'s> {
    ghost use Rattle.mc_search.specs.ShownLines.{shown_lines};

    /// The shown lines of a search.
    pub fn new(lines: &'s [SearchLine]) -> ShownLines<'s>
        ensures { result ≡ shown_lines lines.now }
    {
        ShownLines { left: lines }
    }
}

impl<'s> Iterator for ShownLines<'s> {
    type Item = ShownLine<'s>;

    ghost use Rattle.std.specs.Iterator.{YieldsFirst, item_count};

    ghost next_gives = { YieldsFirst (λ left. left) };

    ghost remaining = { item_count (λ left. left) };

    fn next(&mut self) -> Option<ShownLine<'s>> {
        if self.left.is_empty() {
            return None;
        }
        if let SearchLine::ExpectedFromHere { lan, .. } = self.left[0] {
            let (lines, left) = self.left.split_at(leading_expected(self.left, lan));
            self.left = left;
            let routers = ExpectingRouters { lines };
            return Some(ShownLine::Expected { lan, routers });
        }
        let line = self.left[0];
        self.left = &self.left[1..];
        Some(ShownLine::One(line))
    }
}
