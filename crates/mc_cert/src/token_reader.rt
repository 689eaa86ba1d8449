//! Reads JSON's tokens from a text, one after the other, in one pass. A number of another form than a decimal
//! one of at most four digits isn't read.

ghost use Rattle.std.specs.Prelude.{◌≡◌, ◌<◌, ◌++◌, ◌∷◌, ◌||◌, ℕ, List, Some, None, true, false, IfSome};
ghost use Rattle.std.specs.Prelude.{IfOk, IsTrue, MatchBool};
ghost use Rattle.std.specs.Prelude.{[], decimal, option_map};
ghost use Rattle.json.specs.Json.{after_end_array, read_key};
ghost use Rattle.json.specs.Lex.{between, in_string, lex, after_value, punctuate, begins_colon, tokens};
ghost use Rattle.json.specs.Text.{content, plain};
ghost use Rattle.json.specs.Token.{begin_object, begin_array, string, number};
ghost use Rattle.json.specs.Word.{is_operator, is_space, ends_word};
ghost use Rattle.mc_topology.specs.Names.{is_name};
ghost use Rattle.mc_cert.specs.JsonString.{text_bytes};
ghost use Rattle.mc_cert.specs.Keys.{key_name};
ghost use Rattle.mc_cert.specs.TokenReader.{tokens_at, may_begin, may_close, BeginsWith};

use crate::json_string::{JsonText, read_string};
use crate::key::Key;
use crate::pieces::{after_name, read_number};
use crate::tokens::NotRead;
use mc_topology::{LanNo, RouterNo};
use std::alloc::Global;
use std::marker::Model;

/// Where a reader is in a text.
#[derive(Clone, Copy, Drop)]
pub(crate) enum Place {
    /// At the start of the text, of a list or of an object, or after a key.
    Fresh,
    /// After a value.
    AfterValue,
    /// After a comma.
    AfterComma,
}

impl Place {
    /// Whether a value or a key may begin here.
    #[inline(always)]
    fn may_begin(self) -> bool
        ensures { result ≡ may_begin self }
    {
        matches!(self, Place::Fresh | Place::AfterComma)
    }

    /// Whether an object or a list may end here.
    #[inline(always)]
    fn may_close(self) -> bool
        ensures { result ≡ may_close self }
    {
        matches!(self, Place::Fresh | Place::AfterValue)
    }
}

/// The tokens that a text still has. In contracts it is the list of them.
#[derive(Drop)]
pub(crate) struct TokenReader<'a> {
    alloc: Global,
    rest: &'a [u8],
    place: Place,
    /// The LAN and the router that are likely to be named next.
    likely_lan: LanNo,
    likely_router: RouterNo,
}

impl<'a> Model for TokenReader<'a> {
    ghost use Rattle.std.specs.Prelude.{List};
    ghost use Rattle.json.specs.Token.{Token, tokens_code};
    ghost use Rattle.mc_cert.specs.TokenReader.{tokens_at};

    ghost Value = { List Token };

    ghost coded = { tokens_code };

    ghost view = { λ a. tokens_at a.place a.rest.now };
}

/// Whether the byte is white space.
#[inline(always)]
fn is_space(byte: u8) -> bool
    ensures { result ≡ is_space byte }
{
    byte == b' ' || byte == b'\t' || byte == b'\n' || byte == b'\r'
}

/// The text without the white space at its start.
#[inline(always)]
fn skip_space(text: &[u8]) -> &[u8]
    ensures { lex between text.now ≡ lex between result.now }
{
    let mut rest = text;
    while !rest.is_empty() && is_space(rest[0]) {
        rest = &rest[1..];
    }
    rest
}

/// The rest of the text after this byte, which white space may precede.
#[inline(always)]
fn after_byte(text: &[u8], byte: u8) -> Option<&[u8]>
    ensures { IfSome result (λ rest. BeginsWith byte text.now rest.now) }
{
    match skip_space(text) {
        [first, rest @ ..] if *first == byte => Some(rest),
        _ => None,
    }
}

/// The rest of the text after this byte, with which a value begins, if one may begin here.
#[inline(always)]
fn begin(place: Place, text: &[u8], byte: u8) -> Result<&[u8], NotRead>
    ensures place { IfOk result (λ _. may_begin place ≡ true) }
    ensures rest { IfOk result (λ rest. BeginsWith byte text.now rest.now) }
{
    match after_byte(text, byte) {
        Some(rest) if place.may_begin() => Ok(rest),
        _ => Err(NotRead),
    }
}

/// Passes the comma that may follow a value.
#[inline(always)]
fn after_value(text: &[u8]) -> (Place, &[u8])
    ensures { tokens_at result.0 result.1.now ≡ punctuate after_value (lex between text.now) }
{
    match after_byte(text, b',') {
        Some(rest) => (Place::AfterComma, rest),
        None => (Place::AfterValue, text),
    }
}

/// Reads a key in any form, whose opening quotation mark has been passed, and gives the rest of the text.
#[cold]
fn read_any_key(alloc: Global, text: &[u8]) -> Result<(Key, &[u8]), NotRead>
    ensures content { IfOk result (λ parsed. content plain text.now ≡ Some (key_name parsed.0)) }
    ensures rest { IfOk result (λ parsed. lex in_string text.now ≡ lex between parsed.1.now) }
{
    let (name, rest) = read_string(alloc, text)?;
    let Some(key) = Key::of_name(name.as_bytes()) else {
        return Err(NotRead);
    };
    Ok((key, rest))
}

/// Reads a key whose opening quotation mark has been passed, and gives the rest of the text.
#[inline(always)]
fn read_key(alloc: Global, text: &[u8]) -> Result<(Key, &[u8]), NotRead>
    ensures content { IfOk result (λ parsed. content plain text.now ≡ Some (key_name parsed.0)) }
    ensures rest { IfOk result (λ parsed. lex in_string text.now ≡ lex between parsed.1.now) }
{
    match Key::at_front(text) {
        Some(found) => Ok(found),
        None => read_any_key(alloc, text),
    }
}

/// Whether a word ends before this byte.
#[inline(always)]
fn is_end_of_word(byte: u8) -> bool
    ensures { result ≡ true → (is_operator byte || is_space byte) ≡ true }
{
    byte == b',' || byte == b'}' || byte == b']' || is_space(byte)
}

/// Whether a number has ended before this text.
#[inline(always)]
fn ends_number(text: &[u8]) -> bool
    ensures { result ≡ true → ends_word text.now ≡ true }
{
    match text {
        [first, ..] => is_end_of_word(*first),
        [] => true,
    }
}

/// Whether no colon is next.
#[inline(always)]
fn ends_value(text: &[u8]) -> bool
    ensures { result ≡ true → begins_colon (lex between text.now) ≡ false }
{
    match skip_space(text) {
        [b',', ..] => true,
        [b'}', ..] => true,
        [b']', ..] => true,
        _ => false,
    }
}

impl<'a> TokenReader<'a> {
    /// Reads a text from its start.
    pub(crate) fn new(alloc: Global, text: &'a [u8]) -> TokenReader<'a>
        ensures { result ≡ tokens text.now }
    {
        TokenReader {
            alloc,
            rest: text,
            place: Place::Fresh,
            likely_lan: LanNo(0),
            likely_router: RouterNo(0),
        }
    }

    /// The LAN that is likely to be named next.
    #[inline(always)]
    pub(crate) fn likely_lan(&self) -> LanNo {
        self.likely_lan
    }

    /// The router that is likely to be named next.
    #[inline(always)]
    pub(crate) fn likely_router(&self) -> RouterNo {
        self.likely_router
    }

    /// Says which LAN is likely to be named next.
    #[inline(always)]
    pub(crate) fn expect_lan(&mut self, lan: LanNo)
        ensures { self.new ≡ self.old }
    {
        self.likely_lan = lan;
    }

    /// Says which router is likely to be named next.
    #[inline(always)]
    pub(crate) fn expect_router(&mut self, router: RouterNo)
        ensures { self.new ≡ self.old }
    {
        self.likely_router = router;
    }

    /// Whether no token is left.
    pub(crate) fn is_at_end(&self) -> bool
        ensures { result ≡ true → self.now ≡ [] }
    {
        self.place.may_close() && skip_space(self.rest).is_empty()
    }

    /// Passes the brace at an object's start.
    #[inline(always)]
    pub(crate) fn open_object(&mut self) -> Result<(), NotRead>
        ensures { IfOk result (λ _. self.old ≡ begin_object ∷ self.new) }
    {
        let rest = begin(self.place, self.rest, b'{')?;
        self.rest = rest;
        self.place = Place::Fresh;
        Ok(())
    }

    /// Passes the bracket at a list's start.
    pub(crate) fn open_list(&mut self) -> Result<(), NotRead>
        ensures { IfOk result (λ _. self.old ≡ begin_array ∷ self.new) }
    {
        let rest = begin(self.place, self.rest, b'[')?;
        self.rest = rest;
        self.place = Place::Fresh;
        Ok(())
    }

    /// Passes the bracket at a list's end, if it is next, and else leaves the reader before an object or a
    /// list.
    #[inline(always)]
    pub(crate) fn take_end_of_list(&mut self) -> Result<bool, NotRead>
        ensures { IfOk result (λ closed. MatchBool closed (after_end_array self.old ≡ Some self.new)
            ((after_end_array self.old ≡ None) × (self.new ≡ self.old))) }
    {
        match skip_space(self.rest) {
            [b'{', ..] => Ok(false),
            [b'[', ..] => Ok(false),
            [b']', rest @ ..] if self.place.may_close() => {
                let (place, rest) = after_value(rest);
                self.rest = rest;
                self.place = place;
                Ok(true)
            }
            _ => Err(NotRead),
        }
    }

    /// Reads the next key of an object, or passes the brace at its end.
    #[inline(always)]
    pub(crate) fn next_key(&mut self) -> Result<Option<Key>, NotRead>
        ensures { IfOk result (λ key. read_key self.old ≡ Some (option_map key_name key, self.new)) }
    {
        match skip_space(self.rest) {
            [b'"', text @ ..] if self.place.may_begin() => {
                let (key, rest) = read_key(self.alloc, text)?;
                let Some(rest) = after_byte(rest, b':') else {
                    return Err(NotRead);
                };
                self.rest = rest;
                self.place = Place::Fresh;
                Ok(Some(key))
            }
            [b'}', rest @ ..] if self.place.may_close() => {
                let (place, rest) = after_value(rest);
                self.rest = rest;
                self.place = place;
                Ok(None)
            }
            _ => Err(NotRead),
        }
    }

    /// Reads a text.
    #[inline(always)]
    pub(crate) fn text(&mut self) -> Result<JsonText<'a>, NotRead>
        ensures { IfOk result (λ text. self.old ≡ string (text_bytes text) ∷ self.new) }
    {
        let inside = begin(self.place, self.rest, b'"')?;
        let (text, rest) = read_string(self.alloc, inside)?;
        if !ends_value(rest) {
            return Err(NotRead);
        }
        let (place, rest) = after_value(rest);
        self.rest = rest;
        self.place = place;
        Ok(text)
    }

    /// Passes this name, if it is the text that is next, and is written without escapes. Else the reader
    /// stays where it is.
    #[inline(always)]
    pub(crate) fn pass_name(&mut self, name: &str) -> bool
        requires named { IsTrue (is_name name.now) }
        ensures { MatchBool result (self.old ≡ string name.now ∷ self.new) (self.new ≡ self.old) }
    {
        let Ok(inside) = begin(self.place, self.rest, b'"') else {
            return false;
        };
        let Some(quoted) = after_name(inside, name) else {
            return false;
        };
        let rest = &quoted[1..];
        if !ends_value(rest) {
            return false;
        }
        let (place, rest) = after_value(rest);
        self.rest = rest;
        self.place = place;
        true
    }

    /// Reads a whole number of at most four digits.
    #[inline(always)]
    pub(crate) fn number(&mut self) -> Result<u32, NotRead>
        ensures number { IfOk result (λ n. self.old ≡ number (decimal n) ∷ self.new) }
        ensures small { IfOk result (λ number. number < 10000) }
    {
        if !self.place.may_begin() {
            return Err(NotRead);
        }
        let Some((number, rest)) = read_number(skip_space(self.rest)) else {
            return Err(NotRead);
        };
        if !ends_number(rest) {
            return Err(NotRead);
        }
        let (place, rest) = after_value(rest);
        self.rest = rest;
        self.place = place;
        Ok(number)
    }
}
