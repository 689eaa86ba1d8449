//! Reads strings of JSON whose opening quotation mark has been passed. An escape is read where it denotes
//! an ASCII character: no name, address or key of a certificate has another one.

ghost use Rattle.std.specs.Prelude.{◌≡◌, ◌∷◌, Some, IfSome, IfOk};
ghost use Rattle.json.specs.Lex.{between, in_string, lex};
ghost use Rattle.json.specs.Run.{is_plain};
ghost use Rattle.json.specs.Text.{content, plain, short_escape};
ghost use Rattle.mc_cert.specs.JsonString.{text_bytes, IsHexDigit, DenotesByte};

use crate::pieces::after_prefix;
use crate::tokens::NotRead;
use std::alloc::Global;

/// What a string denotes.
#[derive(Drop)]
pub(crate) enum JsonText<'a> {
    /// The bytes of a string without escapes.
    Plain(&'a [u8]),
    /// The bytes that a string with escapes denotes.
    Unescaped(Vec<u8>),
}

impl<'a> JsonText<'a> {
    /// The bytes that the string denotes.
    pub(crate) fn as_bytes(&self) -> &[u8]
        ensures { result.now ≡ text_bytes self.now }
    {
        match self {
            JsonText::Plain(bytes) => bytes,
            JsonText::Unescaped(bytes) => bytes,
        }
    }
}

/// Whether a string has this byte unescaped.
#[inline(always)]
fn is_plain(byte: u8) -> bool
    ensures { result ≡ is_plain byte }
{
    byte != b'"' && byte != b'\\' && byte >= b' '
}

/// The byte that a backslash and this letter denote.
fn short_escape(letter: u8) -> Option<u8>
    ensures { IfSome result (λ byte. short_escape letter ≡ Some byte) }
{
    match letter {
        b'"' | b'\\' | b'/' => Some(letter),
        b'b' => Some(8),
        b'f' => Some(12),
        b'n' => Some(b'\n'),
        b'r' => Some(b'\r'),
        b't' => Some(b'\t'),
        _ => None,
    }
}

/// The value of a hex digit.
fn hex_digit(byte: u8) -> Option<u8>
    ensures { IfSome result (IsHexDigit byte) }
{
    match byte {
        b'0'..=b'9' => Some(byte - b'0'),
        b'A'..=b'F' => Some(byte - b'A' + 10),
        b'a'..=b'f' => Some(byte - b'a' + 10),
        _ => None,
    }
}

/// Reads the last two digits of an escape by four, whose first two are zeros.
fn read_code(text: &[u8]) -> Option<(u8, &[u8])>
    ensures { IfSome result (λ parsed. DenotesByte (92 ∷ 117 ∷ 48 ∷ 48 ∷ text.now) parsed.0
        parsed.1.now) }
{
    let (first, rest) = text.split_first()?;
    let (second, rest) = rest.split_first()?;
    let high = hex_digit(*first)?;
    let low = hex_digit(*second)?;
    if high >= 8 {
        return None;
    }
    Some((high * 16 + low, rest))
}

/// Reads a byte or an escape of a string, and gives the rest of the text.
fn read_byte(text: &[u8]) -> Option<(u8, &[u8])>
    ensures { IfSome result (λ parsed. DenotesByte text.now parsed.0 parsed.1.now) }
{
    if let Some(rest) = after_prefix(text, b"\\u00") {
        return read_code(rest);
    }
    let (first, rest) = text.split_first()?;
    if is_plain(*first) {
        return Some((*first, rest));
    }
    if *first != b'\\' {
        return None;
    }
    let (letter, rest) = rest.split_first()?;
    let byte = short_escape(*letter)?;
    Some((byte, rest))
}

/// Reads a string with escapes, and gives the rest of the text.
#[cold]
fn read_escaped(alloc: Global, text: &[u8]) -> Result<(Vec<u8>, &[u8]), NotRead>
    ensures content { IfOk result (λ parsed. content plain text.now ≡ Some parsed.0.items) }
    ensures rest { IfOk result (λ parsed. lex in_string text.now ≡ lex between parsed.1.now) }
{
    let mut bytes = Vec::new(alloc);
    let mut rest = text;
    while let Some((byte, others)) = read_byte(rest) {
        bytes.push(byte)?;
        rest = others;
    }
    match rest {
        [b'"', others @ ..] => Ok((bytes, others)),
        _ => Err(NotRead),
    }
}

/// Reads a string, and gives the rest of the text.
#[inline(always)]
pub(crate) fn read_string(alloc: Global, text: &[u8]) -> Result<(JsonText<'_>, &[u8]), NotRead>
    ensures content { IfOk result (λ parsed. content plain text.now ≡ Some (text_bytes parsed.0)) }
    ensures rest { IfOk result (λ parsed. lex in_string text.now ≡ lex between parsed.1.now) }
{
    let mut end = 0;
    while end < text.len() && is_plain(text[end]) {
        end += 1;
    }
    let (front, rest) = text.split_at(end);
    match rest {
        [b'"', others @ ..] => Ok((JsonText::Plain(front), others)),
        [b'\\', ..] => {
            let (bytes, others) = read_escaped(alloc, text)?;
            Ok((JsonText::Unescaped(bytes), others))
        }
        _ => Err(NotRead),
    }
}
