//! Hexadecimal digits of either case, thirty-two at a time, and the bytes that pairs of them write.

ghost use Rattle.std.specs.Prelude.{◌≡◌, map, true};
ghost use Rattle.std.specs.List.{list_all};
ghost use Rattle.hex.specs.Hex.{is_hex_digit};
ghost use Rattle.mc_text.specs.AddressWord.{hex_value_or_16};
ghost use Rattle.mc_text.specs.DigitPairs.{bytes_of_pairs};

use std::simd::prelude::*;

/// Whether all bytes are hexadecimal digits.
#[inline(always)]
pub fn are_hex_digits(text: u8x32) -> bool
    ensures { result ≡ list_all is_hex_digit text }
{
    let decimal = (text - u8x32::splat(b'0')).simd_lt(u8x32::splat(10));
    let small = text | u8x32::splat(0x20);
    let letter = (small - u8x32::splat(b'a')).simd_lt(u8x32::splat(6));
    (decimal | letter).all()
}

/// The values of digits. That of a decimal digit is its distance from `0`, and that of a letter is the
/// distance of its lower case from the tenth code before `a`: the smaller of the two is right.
#[inline(always)]
fn digit_values(text: u8x32) -> u8x32
    ensures { list_all is_hex_digit text ≡ true → result ≡ map hex_value_or_16 text }
{
    let decimal = text - u8x32::splat(b'0');
    let small = text | u8x32::splat(0x20);
    decimal.simd_min(small - u8x32::splat(b'a' - 10))
}

/// The bytes that pairs of digits write, each with its high digit first.
#[inline(always)]
pub fn bytes_of_hex_digits(text: u8x32) -> u8x16
    ensures { list_all is_hex_digit text ≡ true → result ≡ bytes_of_pairs text }
{
    let values = digit_values(text);
    let high = values.swizzle([0, 2, 4, 6, 8, 10, 12, 14, 16, 18, 20, 22, 24, 26, 28, 30]);
    let low = values.swizzle([1, 3, 5, 7, 9, 11, 13, 15, 17, 19, 21, 23, 25, 27, 29, 31]);
    (high << u8x16::splat(4)) + low
}
