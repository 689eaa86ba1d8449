//! A line as its words. Only a space (byte 0x20) separates words.

ghost use Rattle.std.specs.Prelude.{◌≡◌, ◌==◌, not, position};

use std::marker::Model;

/// The words of a line, from the front: the longest stretches without a space.
#[derive(Debug, Drop)]
pub struct Words<'a> {
    rest: &'a [u8],
}

impl<'a> Model for Words<'a> {
    ghost use Rattle.std.specs.Prelude.{ℕ, List};
    ghost use Rattle.mc_text.specs.Lines.{words_of};

    ghost Value = { List (List ℕ) };

    ghost view = { λ s. words_of s.rest.now };
}

/// The index of the first byte that is no space.
fn word_start(line: &[u8]) -> Option<usize>
    ensures { result ≡ position (λ byte. not (byte == 32)) line.now }
{
    line.iter().position(|byte| *byte != b' ')
}

/// The index of the first space. As words are short, a search byte by byte is fastest.
fn word_end(from_word: &[u8]) -> Option<usize>
    ensures { result ≡ position (λ byte. byte == 32) from_word.now }
{
    from_word.iter().position(|byte| *byte == b' ')
}

impl<'a> Words<'a> {
    ghost use Rattle.mc_text.specs.Lines.{words_of};

    /// The words of a line.
    pub fn new(line: &'a [u8]) -> Words<'a>
        ensures { result ≡ words_of line.now }
    {
        Words { rest: line }
    }
}

impl<'a> Iterator for Words<'a> {
    type Item = &'a [u8];

    ghost use Rattle.std.specs.Iterator.{YieldsFirstRef, item_count};

    ghost next_gives = { YieldsFirstRef (λ left. left) };

    ghost remaining = { item_count (λ left. left) };

    fn next(&mut self) -> Option<&'a [u8]> {
        let from_word = &self.rest[word_start(self.rest)?..];
        let end = word_end(from_word).unwrap_or(from_word.len());
        let (word, rest) = from_word.split_at(end);
        self.rest = rest;
        Some(word)
    }
}
