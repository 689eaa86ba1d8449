//! Hexadecimal digits, and the bytes of an address word.

ghost use Rattle.std.specs.Prelude.{◌≡◌, ◌&&◌, ℕ, List, length, slice_index, false};
ghost use Rattle.std.specs.Prelude.{IfSome, IfNone, Some, Ok};
ghost use Rattle.hex.specs.Hex.{is_hex_digit, pair_value, decode_of};
ghost use Rattle.mc_text.specs.AddressWord.{hex_value_or_16};

/// The value of each byte that is a hexadecimal digit of either case, and 16 of each other one.
const VALUES: &[u8; 256] = &[
    16, 16, 16, 16, 16, 16, 16, 16, 16, 16, 16, 16, 16, 16, 16, 16, 16, 16, 16, 16, 16, 16, 16, 16,
    16, 16, 16, 16, 16, 16, 16, 16, 16, 16, 16, 16, 16, 16, 16, 16, 16, 16, 16, 16, 16, 16, 16, 16,
    0, 1, 2, 3, 4, 5, 6, 7, 8, 9, 16, 16, 16, 16, 16, 16, 16, 10, 11, 12, 13, 14, 15, 16, 16, 16,
    16, 16, 16, 16, 16, 16, 16, 16, 16, 16, 16, 16, 16, 16, 16, 16, 16, 16, 16, 16, 16, 16, 16, 10,
    11, 12, 13, 14, 15, 16, 16, 16, 16, 16, 16, 16, 16, 16, 16, 16, 16, 16, 16, 16, 16, 16, 16, 16,
    16, 16, 16, 16, 16, 16, 16, 16, 16, 16, 16, 16, 16, 16, 16, 16, 16, 16, 16, 16, 16, 16, 16, 16,
    16, 16, 16, 16, 16, 16, 16, 16, 16, 16, 16, 16, 16, 16, 16, 16, 16, 16, 16, 16, 16, 16, 16, 16,
    16, 16, 16, 16, 16, 16, 16, 16, 16, 16, 16, 16, 16, 16, 16, 16, 16, 16, 16, 16, 16, 16, 16, 16,
    16, 16, 16, 16, 16, 16, 16, 16, 16, 16, 16, 16, 16, 16, 16, 16, 16, 16, 16, 16, 16, 16, 16, 16,
    16, 16, 16, 16, 16, 16, 16, 16, 16, 16, 16, 16, 16, 16, 16, 16, 16, 16, 16, 16, 16, 16, 16, 16,
    16, 16, 16, 16, 16, 16, 16, 16, 16, 16, 16, 16, 16, 16,
];

/// The table's value for a byte.
fn value_in_table(byte: u8, values: &[u8; 256]) -> u8
    ensures { result ≡ slice_index values.now byte }
{
    values[byte as usize]
}

/// The value of a hexadecimal digit of either case, or 16.
#[tactic(auto, using(crate::proofs::AddressDigitLemmas::hex_value_of_table))]
pub fn hex_value_or_16(byte: u8) -> u8
    ensures { result ≡ hex_value_or_16 byte }
{
    value_in_table(byte, VALUES)
}

/// The octet that two digits write.
fn octet(high: u8, low: u8) -> Option<u8>
    ensures found { IfSome result (λ octet. (index : ℕ) → pair_value high low index ≡ Ok octet) }
    ensures only { IfNone result ((is_hex_digit high && is_hex_digit low) ≡ false) }
{
    let high = hex_value_or_16(high);
    let low = hex_value_or_16(low);
    if high < 16 && low < 16 {
        Some(high * 16 + low)
    } else {
        None
    }
}

/// The four bytes of a word of eight hexadecimal digits.
#[tactic(auto, using(crate::proofs::AddressDigitLemmas::decoded_word_has_eight_digits))]
pub(crate) fn decode_four_bytes(word: &[u8]) -> Option<[u8; 4]>
    ensures found { IfSome result (λ bytes. decode_of word.now ≡ Ok bytes) }
    ensures only { (bytes : List ℕ) → length bytes ≡ 4
        → decode_of word.now ≡ Ok bytes → result ≡ Some bytes }
{
    let [a, b, c, d, e, f, g, h] = word else {
        return None;
    };
    Some([
        octet(*a, *b)?,
        octet(*c, *d)?,
        octet(*e, *f)?,
        octet(*g, *h)?,
    ])
}
