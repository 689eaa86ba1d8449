//! The checksum of an IGMP message (RFC 1071).

ghost use Rattle.std.specs.Prelude.{◌≡◌, ◌<◌, ◌≤◌, ◌+◌, ◌*◌, ◌%◌, ◌^◌, ◌↔◌, length};
ghost use Rattle.mc_igmp.specs.Checksum.{is_checksum_right, word_sum};

/// Ones in all sixteen bits.
const ALL_ONES: u64 = 0xffff;

/// The number of bytes whose words are added up before the carries, a whole number of words. Their sum
/// fits in 32 bits, the sum of their pairs of words in 64, and that of their blocks in 80.
const PIECE_LEN: usize = 65_536;

/// The number of bytes of a block, of which each half is added as a number of 64 bits.
const BLOCK_LEN: usize = 16;

/// The one's complement sum of a number's words: carries out of the sixteen bits are added at their low
/// end.
fn fold_carries(number: u64) -> u64
    ensures bound { result ≤ ALL_ONES }
    ensures congruent { result % 65535 ≡ number % 65535 }
    ensures zero { (result ≡ 0) ↔ (number ≡ 0) }
{
    if number == 0 {
        0
    } else {
        (number - 1) % ALL_ONES + 1
    }
}

/// The one's complement sum of a sum and a number.
fn add_with_carries(sum: u64, number: u64) -> u64
    requires bounded { sum ≤ ALL_ONES }
    requires small { number < 2 ^ 48 }
    ensures bound { result ≤ ALL_ONES }
    ensures congruent { result % 65535 ≡ (sum + number) % 65535 }
    ensures zero { (result ≡ 0) ↔ (sum + number ≡ 0) }
{
    fold_carries(sum + number)
}

/// The sum of the big-endian words of a piece. An odd last byte is the high byte of a word.
fn sum_of_words(piece: &[u8]) -> u32
    requires bounded { length piece.now ≤ PIECE_LEN }
    ensures value { result ≡ word_sum piece.now }
{
    let mut sum = 0u32;
    let mut rest = piece;
    while let [high, low, others @ ..] = rest {
        sum += u32::from(*high) * 256 + u32::from(*low);
        rest = others;
    }
    match rest {
        [last] => sum + u32::from(*last) * 256,
        _ => sum,
    }
}

/// The sum of the words of a piece, but for multiples of 65,535. Two words are added at a time, as a number
/// of 32 bits, of which the first word is the carry (RFC 1071, section 2(C)).
fn sum_of_pairs(piece: &[u8]) -> u64
    requires bounded { length piece.now ≤ PIECE_LEN }
    ensures congruent { result % 65535 ≡ word_sum piece.now % 65535 }
    ensures zero { (result ≡ 0) ↔ (word_sum piece.now ≡ 0) }
    ensures small { result < 2 ^ 47 }
{
    let mut sum = 0u64;
    let mut rest = piece;
    while let [a, b, c, d, e, f, g, h, others @ ..] = rest {
        sum += u64::from(u32::from_be_bytes([*a, *b, *c, *d]));
        sum += u64::from(u32::from_be_bytes([*e, *f, *g, *h]));
        rest = others;
    }
    sum + u64::from(sum_of_words(rest))
}

/// The sum of the blocks at a piece's front, each half with its lowest byte first, and what follows them.
/// So the bytes of each word are swapped, and the sum is that of the words with its bytes swapped (RFC
/// 1071, section 2(B)): 256 times it is theirs, but for multiples of 65,535.
fn sum_of_blocks(piece: &[u8]) -> (u128, &[u8])
    requires bounded { length piece.now ≤ PIECE_LEN }
    ensures congruent { (256 * result.0 + word_sum result.1.now) % 65535 ≡ word_sum piece.now % 65535 }
    ensures zero { (result.0 + word_sum result.1.now ≡ 0) ↔ (word_sum piece.now ≡ 0) }
    ensures small { result.0 < 2 ^ 80 }
    ensures shorter { length result.1.now ≤ length piece.now }
{
    let mut sum = 0u128;
    let mut rest = piece;
    while let [a, b, c, d, e, f, g, h, i, j, k, l, m, n, o, p, others @ ..] = rest {
        sum += u128::from(u64::from_le_bytes([*a, *b, *c, *d, *e, *f, *g, *h]));
        sum += u128::from(u64::from_le_bytes([*i, *j, *k, *l, *m, *n, *o, *p]));
        rest = others;
    }
    (sum, rest)
}

/// A sum of blocks, but for multiples of 65,535. Carries out of the lower 64 bits are added at their low
/// end.
fn fold_sum_of_blocks(sum: u128) -> u64
    requires bounded { sum < 2 ^ 80 }
    ensures congruent { result % 65535 ≡ sum % 65535 }
    ensures zero { (result ≡ 0) ↔ (sum ≡ 0) }
    ensures small { result < 2 ^ 18 }
{
    let carries = (sum >> 64) as u64;
    let lower = (sum % (1 << 64)) as u64;
    fold_carries(lower) + carries
}

/// The sum of the words of a piece, but for multiples of 65,535: block by block, as far as there are
/// whole blocks.
fn sum_of_piece(piece: &[u8]) -> u64
    requires bounded { length piece.now ≤ PIECE_LEN }
    ensures congruent { result % 65535 ≡ word_sum piece.now % 65535 }
    ensures zero { (result ≡ 0) ↔ (word_sum piece.now ≡ 0) }
    ensures small { result < 2 ^ 48 }
{
    if piece.len() < BLOCK_LEN {
        return sum_of_pairs(piece);
    }
    let (blocks, rest) = sum_of_blocks(piece);
    256 * fold_sum_of_blocks(blocks) + sum_of_pairs(rest)
}

/// The first piece of a message, and what follows it. No word is cut in two.
fn split_piece(message: &[u8]) -> (&[u8], &[u8])
    requires more { PIECE_LEN < length message.now }
    ensures words { word_sum result.0.now + word_sum result.1.now ≡ word_sum message.now }
    ensures bounded { length result.0.now ≤ PIECE_LEN }
    ensures shorter { length result.1.now < length message.now }
{
    message.split_at(PIECE_LEN)
}

/// The one's complement sum of the words of a message. A message of at most `PIECE_LEN` bytes, as is
/// each that fits in an IP packet, is summed at once, and the carries are added at the end.
fn ones_complement_sum(message: &[u8]) -> u64
    ensures bound { result ≤ ALL_ONES }
    ensures congruent { result % 65535 ≡ word_sum message.now % 65535 }
    ensures zero { (result ≡ 0) ↔ (word_sum message.now ≡ 0) }
{
    let mut sum = 0u64;
    let mut rest = message;
    while rest.len() > PIECE_LEN {
        let (piece, others) = split_piece(rest);
        sum = add_with_carries(sum, sum_of_piece(piece));
        rest = others;
    }
    add_with_carries(sum, sum_of_piece(rest))
}

/// Whether the words of a message, with the checksum among them, add up to all ones.
pub(crate) fn is_checksum_right(message: &[u8]) -> bool
    ensures { result ≡ is_checksum_right message.now }
{
    ones_complement_sum(message) == ALL_ONES
}
