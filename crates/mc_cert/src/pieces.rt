//! Reads pieces from the start of a text, for reading it in one pass.

ghost use Rattle.std.specs.Prelude.{◌≡◌, ◌+◌, ◌*◌, ◌++◌, ◌∷◌, ◌<◌, ◌≤◌, IfSome, decimal, drop};

use mc_text::find_byte;

/// The rest of the text after this prefix.
#[inline(always)]
pub(crate) fn after_prefix<'a>(text: &'a [u8], front: &[u8]) -> Option<&'a [u8]>
    ensures { IfSome result (λ rest. text.now ≡ front.now ++ rest.now) }
{
    text.strip_prefix(front)
}

/// The rest of the text after this name, if it begins with a quotation mark.
#[inline(always)]
pub(crate) fn after_name<'a>(text: &'a [u8], name: &str) -> Option<&'a [u8]>
    ensures text { IfSome result (λ rest. text.now ≡ name.now ++ rest.now) }
    ensures quote { IfSome result (λ rest. rest.now ≡ 34 ∷ drop 1 rest.now) }
{
    let rest = after_prefix(text, name.as_bytes())?;
    match rest {
        [b'"', ..] => Some(rest),
        _ => None,
    }
}

/// Reads a decimal digit, and gives the rest of the text.
#[inline(always)]
fn read_digit(text: &[u8]) -> Option<(u32, &[u8])>
    ensures text { IfSome result (λ parsed. text.now ≡ (48 + parsed.0) ∷ parsed.1.now) }
    ensures small { IfSome result (λ parsed. parsed.0 < 10) }
{
    let (first, rest) = text.split_first()?;
    match *first {
        byte @ b'0'..=b'9' => Some(((byte - b'0') as u32, rest)),
        _ => None,
    }
}

/// The number with the next digit appended, if the text begins with one, and the rest of the text.
#[inline(always)]
fn with_next_digit(number: u32, text: &[u8]) -> (u32, &[u8])
    requires some { 0 < number }
    requires small { number < 100000000 }
    ensures text { decimal result.0 ++ result.1.now ≡ decimal number ++ text.now }
    ensures some { 0 < result.0 }
    ensures small { result.0 ≤ number * 10 + 9 }
{
    match read_digit(text) {
        Some((digit, rest)) => (number * 10 + digit, rest),
        None => (number, text),
    }
}

/// Reads a decimal number of at most four digits without a leading zero, and gives the rest of the text.
#[inline(always)]
pub(crate) fn read_number(text: &[u8]) -> Option<(u32, &[u8])>
    ensures text { IfSome result (λ parsed. text.now ≡ decimal parsed.0 ++ parsed.1.now) }
    ensures small { IfSome result (λ parsed. parsed.0 < 10000) }
{
    let (first, rest) = read_digit(text)?;
    if first == 0 {
        return Some((first, rest));
    }
    let (two, rest) = with_next_digit(first, rest);
    let (three, rest) = with_next_digit(two, rest);
    Some(with_next_digit(three, rest))
}

/// The text up to the next quotation mark, and the rest, which begins with that.
#[inline(always)]
pub(crate) fn read_until_quote(text: &[u8]) -> Option<(&str, &[u8])>
    ensures { IfSome result (λ parsed. text.now ≡ parsed.0.now ++ parsed.1.now) }
{
    let end = find_byte(b'"', text)?;
    let (name, rest) = text.split_at(end);
    let name = str::from_utf8(name).ok()?;
    Some((name, rest))
}
