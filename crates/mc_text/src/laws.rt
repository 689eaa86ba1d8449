//! Laws of addresses, lines and numbers, which follow from the definitions alone.

ghost use Rattle.std.specs.Prelude.{◌≡◌, ◌≤◌, ◌↔◌, ℕ, List, Some};
ghost use Rattle.std.specs.Cmp.Lexicographic.{slice_cmp};
ghost use Rattle.std.specs.List.{AllByRecursion};
ghost use Rattle.std.specs.Ordering.{nat_cmp};
ghost use Rattle.mc_text.specs.Addr.{IsAddr, octets_of, dotted};
ghost use Rattle.mc_text.specs.AddressReading.{address_of_text, address_of_word};
ghost use Rattle.mc_text.specs.AddressWord.{IsAddressWord};
ghost use Rattle.mc_text.specs.Lines.{HasNoLineFeed, OnlyLastMayBeUnended, join_lines, lines_of};
ghost use Rattle.mc_text.specs.Lines.{max_text};
ghost use Rattle.mc_text.specs.Number.{IsDecimal, number_up_to};
ghost use Rattle.mc_text.specs.declared.text.addr.Order.{Order};

use crate::text::{Addr, MAX_TEXT};

/// The lines of a text, each with its line feed if it has one, join to the text.
pub fn lines_join_to_their_text()
    ensures { (text : List ℕ) → join_lines (lines_of text) ≡ text }
{}

/// `MAX_TEXT` is the greatest length of a text in the definitions, 16,777,216 bytes.
pub fn greatest_text_is_max_text()
    ensures { MAX_TEXT ≡ max_text }
{}

/// No line contains a line feed, and a line feed ends each line but perhaps the last.
pub fn lines_end_at_line_feeds()
    ensures within { (text : List ℕ) → AllByRecursion (λ line. HasNoLineFeed line.bytes) (lines_of text) }
    ensures ended { (text : List ℕ) → OnlyLastMayBeUnended (lines_of text) }
{}

/// Addresses are ordered by their octets, the first octet first, and so are their numbers.
pub fn addresses_are_ordered_by_octets()
    ensures order { (first second : ℕ) → IsAddr first → IsAddr second
        → ⟦<Addr as Ord>⟧.cmp first second ≡ slice_cmp nat_cmp (octets_of first) (octets_of second) }
    ensures number { (first second : ℕ) → IsAddr first → IsAddr second
        → nat_cmp first second ≡ slice_cmp nat_cmp (octets_of first) (octets_of second) }
{}

/// A dotted text is read as the address that it writes. No two addresses have the same text.
pub fn dotted_texts_are_read()
    ensures read { (text : List ℕ) (address : ℕ)
        → (address_of_text text ≡ Some address) ↔ (IsAddr address × (text ≡ dotted address)) }
    ensures one { (first second : ℕ) → IsAddr first → IsAddr second → dotted first ≡ dotted second
        → first ≡ second }
{}

/// An address word is read as the address that it shows. No word shows two addresses.
pub fn address_words_are_read()
    ensures read { (order : Order) (word : List ℕ) (address : ℕ)
        → (address_of_word order word ≡ Some address)
        ↔ (IsAddr address × IsAddressWord order word address) }
    ensures one { (order : Order) (word : List ℕ) (first second : ℕ) → IsAddr first → IsAddr second
        → IsAddressWord order word first → IsAddressWord order word second → first ≡ second }
{}

/// A word is read as the number that it writes in decimal, if that is in range.
pub fn decimal_numbers_are_read()
    ensures { (max : ℕ) (word : List ℕ) (number : ℕ)
        → (number_up_to max word ≡ Some number) ↔ (IsDecimal word number × (number ≤ max)) }
{}
