//! Decimal numbers.

ghost use Rattle.std.specs.Prelude.{◌≡◌, ℕ, ◌+◌, ◌*◌, ◌^◌, ◌<◌, ◌≤◌, IsTrue, IfSome, Some};
ghost use Rattle.std.specs.Option.{SomeIff};
ghost use Rattle.std.specs.Char.{digit_value, is_ascii_digit};
ghost use Rattle.std.specs.Fmt.{decimal as decimal_text};
ghost use Rattle.std.specs.List.{list_all};
ghost use Rattle.mc_text.specs.Number.{IsDecimal, is_plain_decimal, number_up_to};

/// Reads a word of one or more decimal digits, and nothing else, whose number is at most `max`. Any
/// number of leading zeros is allowed.
pub fn decimal(word: &[u8], max: u64) -> Option<u64>
    ensures found { IfSome result (λ number. IsDecimal word.now number) }
    ensures bound { IfSome result (λ number. number ≤ max) }
    ensures only { (number : ℕ) → IsDecimal word.now number → number ≤ max → result ≡ Some number }
    ensures value { result ≡ number_up_to max word.now }
{
    parse_decimal(word, max)
}

/// Reads a decimal number without a needless leading zero, if it is at most `max`.
pub(crate) fn plain_decimal(word: &[u8], max: u64) -> Option<u64>
    ensures found { IfSome result (λ number. word.now ≡ decimal_text number) }
    ensures bound { IfSome result (λ number. number ≤ max) }
    ensures only { (number : ℕ) → number ≤ max → word.now ≡ decimal_text number → result ≡ Some number }
{
    if is_plain_decimal(word) {
        decimal(word, max)
    } else {
        None
    }
}

/// Whether the word is decimal digits without a needless leading zero.
pub fn is_plain_decimal(word: &[u8]) -> bool
    ensures { result ≡ is_plain_decimal word.now }
{
    if word.is_empty() || word.len() > 1 && word[0] == b'0' {
        return false;
    }
    are_digits(word)
}

fn are_digits(word: &[u8]) -> bool
    ensures { result ≡ list_all is_ascii_digit word.now }
{
    word.iter().all(|byte| byte.is_ascii_digit())
}

/// The number that decimal digits write, if it is at most `max`.
fn parse_decimal(word: &[u8], max: u64) -> Option<u64>
    ensures found { IfSome result (λ number. IsDecimal word.now number) }
    ensures bound { IfSome result (λ number. number ≤ max) }
    ensures only { (number : ℕ) → IsDecimal word.now number → number ≤ max → result ≡ Some number }
{
    if word.is_empty() {
        return None;
    }
    let mut number = 0;
    for byte in word {
        number = append_digit(number, *byte)?;
    }
    (number <= max).then_some(number)
}

/// The number with one more decimal digit, if the byte is a digit and the result fits in 64 bits.
fn append_digit(number: u64, byte: u8) -> Option<u64>
    ensures { SomeIff result
        (IsTrue (is_ascii_digit byte) × (number * 10 + digit_value byte < 2 ^ 64))
        (number * 10 + digit_value byte) }
{
    let digit = char::from(byte).to_digit(10)?;
    number.checked_mul(10)?.checked_add(u64::from(digit))
}
