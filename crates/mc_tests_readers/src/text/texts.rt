//! Tests of addresses, lines, words and numbers.

use mc_text::*;
use std::alloc::{AllocError, Global};
use std::test::Fail;

/// Whether two dotted addresses are read, and three words of a kernel's tables that denote the second.
fn addresses_are_read() -> bool {
    let (Some(source), Some(group)) = (
        Addr::parse_dotted(b"10.0.0.5"),
        Addr::parse_dotted(b"239.1.2.3"),
    ) else {
        return false;
    };
    source.octets() == [10, 0, 0, 5]
        && source < group
        && Addr::from_octets([239, 1, 2, 3]) == group
        && Addr::from_hex_word(b"030201EF", Order::Little) == Some(group)
        && Addr::from_hex_word(b"EF010203", Order::Big) == Some(group)
        && Addr::from_hex_word(b"ef010203", Order::Big) == Some(group)
        && Addr::from_hex_word(b"", Order::Little).is_none()
}

#[test]
fn addresses(rt: HostRuntime) {
    assert!(rt; addresses_are_read());
}

/// Whether a range is read that has a group, and is written as it was read, and whether others are refused.
fn ranges_are_read(alloc: Global) -> Result<bool, AllocError> {
    let Some(range) = GroupRange::parse(b"239.16.0.0/12") else {
        return Ok(false);
    };
    let refused: &[&[u8]] = &[
        b"239.16.0.0/11",
        b"239.16.0.0/012",
        b"239.16.0.0/33",
        b"224.0.0.0/3",
        b"192.0.0.0/4",
        b"239.16.0.0",
    ];
    Ok(
        range.contains(Addr::from_octets([239, 31, 255, 255]))
            && !range.contains(Addr::from_octets([239, 32, 0, 0]))
            && format!(in alloc; "{range}")?.as_str() == "239.16.0.0/12"
            && refused.iter().all(|text| GroupRange::parse(text).is_none()),
    )
}

#[test]
fn ranges(rt: HostRuntime) -> Result<(), Fail> {
    assert!(rt; ranges_are_read(rt.alloc())?);
    Ok(())
}

/// Whether a line has this number and these bytes, and whether a line feed ends it.
fn is_line(line: Option<Line<'_>>, number: u32, bytes: &[u8], ended: bool) -> bool {
    match line {
        Some(line) => line.number == number && line.bytes == bytes && line.ended == ended,
        None => false,
    }
}

#[test]
fn lines(rt: HostRuntime) {
    let mut lines = Lines::new(b"Group Origin\n\n 0 eth0 ");
    assert!(rt; is_line(lines.next(), 1, b"Group Origin", true));
    assert!(rt; is_line(lines.next(), 2, b"", true));
    assert!(rt; is_line(lines.next(), 3, b" 0 eth0 ", false));
    assert!(rt; lines.next().is_none());
    assert!(rt; Lines::new(b"").next().is_none());
}

/// Whether the words of a line are these, which are separated by commas.
fn has_words(line: &str, wanted: &str) -> bool {
    let mut words = Words::new(line.as_bytes());
    for word in wanted.split(',') {
        if words.next() != Some(word.as_bytes()) {
            return false;
        }
    }
    words.next().is_none()
}

#[test]
fn words(rt: HostRuntime) {
    assert!(rt; has_words("  0 eth0\tx   12 ", "0,eth0\tx,12"));
}

/// Whether none of these words, which are separated by semicolons, is a number up to 31.
fn are_no_decimals(words: &str) -> bool {
    words
        .split(';')
        .all(|word| decimal(word.as_bytes(), 31).is_none())
}

#[test]
fn numbers(rt: HostRuntime) {
    assert!(rt; decimal(b"0", 0) == Some(0));
    assert!(rt; decimal(b"31", 31) == Some(31));
    assert!(rt; decimal(b"0000000000000000000000000000031", 31) == Some(31));
    assert!(rt; decimal(b"18446744073709551615", u64::MAX) == Some(u64::MAX));
    assert!(rt; decimal(b"18446744073709551616", u64::MAX).is_none());
    assert!(rt; are_no_decimals("32;;-1;+1;1 ;0x1;1_0"));
    assert!(rt; find_byte(b':', b"1:10:2") == Some(1));
    assert!(rt; find_byte(b':', b"110").is_none());
    assert!(rt; find_byte(b':', b"").is_none());
}

/// Whether a line feed is found at each place of a text of so many digits, and none where there is none.
fn is_found_at_each_place(alloc: Global, len: usize) -> Result<bool, AllocError> {
    let mut text = vec![in alloc; b'0'; len]?;
    let mut all = find_byte(b'\n', &text).is_none();
    for place in 0..len {
        text[place] = b'\n';
        all &= find_byte(b'\n', &text) == Some(place);
        text[place] = b'0';
    }
    Ok(all)
}

#[test]
fn line_feeds(rt: HostRuntime) -> Result<(), AllocError> {
    let alloc = rt.alloc();
    assert!(rt; is_found_at_each_place(alloc, 1)?);
    assert!(rt; is_found_at_each_place(alloc, 63)?);
    assert!(rt; is_found_at_each_place(alloc, 64)?);
    assert!(rt; is_found_at_each_place(alloc, 65)?);
    assert!(rt; is_found_at_each_place(alloc, 300)?);
    // the first one counts
    assert!(rt;
        find_byte(
            b'\n',
            b"0123456789\n0123456789\n0123456789\n0123456789\n0123456789\n0123456789\n"
        ) == Some(10)
    );
    Ok(())
}
