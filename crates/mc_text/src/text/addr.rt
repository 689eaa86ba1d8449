//! IPv4 addresses, as people write them and as a kernel's tables show them.

ghost use Rattle.std.specs.Prelude.{◌≡◌, ℕ, ◌<◌, ◌==◌, ◌↔◌, IsTrue, IfSome, Some};
ghost use Rattle.std.specs.Int.{w32, from_be_bytes};
ghost use Rattle.mc_text.specs.Addr.{IsAddr, IsForwardedGroup, IsSource, is_forwarded_group};
ghost use Rattle.mc_text.specs.Addr.{is_source, octets_of, dotted};
ghost use Rattle.mc_text.specs.AddressReading.{address_of_text, address_of_word, octets_in_order};
ghost use Rattle.mc_text.specs.AddressWord.{IsAddressWord, printed_octets};

use crate::text::address_digits::decode_four_bytes;
use std::fmt;
use std::marker::Model;
use std::net::Ipv4Addr;

/// An IPv4 address. Addresses are ordered by their four octets, the first octet first.
#[derive(Clone, Copy, Debug, PartialEq, Eq, PartialOrd, Ord, Hash)]
pub struct Addr {
    bits: u32,
}

impl Model for Addr {
    ghost Value = { ℕ };

    ghost view = { λ a. a.bits };

    ghost inverse = { λ n. record { bits = n } };
}

/// The byte order of a router's machine.
#[derive(Clone, Copy, Debug, PartialEq, Eq)]
pub enum Order {
    /// The least significant byte first, as on x86-64 and most ARM machines.
    Little,
    /// The most significant byte first.
    Big,
}

/// The address that a dotted text writes, if it is one.
fn parse_dotted_address(text: &[u8]) -> Option<Addr>
    ensures found { IfSome result (λ address. text.now ≡ dotted address) }
    ensures in_range { IfSome result IsAddr }
    ensures only { (address : ℕ) → IsAddr address → text.now ≡ dotted address → result ≡ Some address }
{
    let parsed = Ipv4Addr::parse_ascii(text).ok()?;
    Some(Addr {
        bits: parsed.to_bits(),
    })
}

/// The address that an address word shows, if it is one.
fn parse_address_word(word: &[u8], order: Order) -> Option<Addr>
    ensures found { IfSome result (λ address. IsAddressWord order word.now address) }
    ensures in_range { IfSome result IsAddr }
    ensures only { (address : ℕ) → IsAddr address → IsAddressWord order word.now address
        → result ≡ Some address }
{
    let bytes = decode_four_bytes(word)?;
    Some(Addr::from_printed_octets(bytes, order))
}

impl Addr {
    /// Reads four decimal numbers from 0 to 255 without leading zeros, with dots between them.
    pub fn parse_dotted(text: &[u8]) -> Option<Addr>
        // The text is the dotted text of the address that is read.
        ensures found { IfSome result (λ address. text.now ≡ dotted address) }
        ensures in_range { IfSome result IsAddr }
        // The dotted text of an address is read as that address.
        ensures only { (address : ℕ) → IsAddr address → text.now ≡ dotted address
            → result ≡ Some address }
        ensures value { result ≡ address_of_text text.now }
    {
        parse_dotted_address(text)
    }

    /// Reads an address word of `/proc/net/ip_mr_vif` and `/proc/net/ip_mr_cache`: eight
    /// hexadecimal digits of either case. The kernel prints the four network-order bytes as one
    /// number in the byte order of its machine (`%08X` in net/ipv4/ipmr.c).
    pub fn from_hex_word(word: &[u8], order: Order) -> Option<Addr>
        ensures found { IfSome result (λ address. IsAddressWord order word.now address) }
        ensures in_range { IfSome result IsAddr }
        ensures only { (address : ℕ) → IsAddr address → IsAddressWord order word.now address
            → result ≡ Some address }
        ensures value { result ≡ address_of_word order word.now }
    {
        parse_address_word(word, order)
    }

    /// The address whose word has the digits of these four bytes, from left to right.
    #[inline(always)]
    pub fn from_printed_octets(bytes: [u8; 4], order: Order) -> Addr
        ensures value { result ≡ from_be_bytes w32 (octets_in_order order bytes) }
        ensures printed { printed_octets order result ≡ bytes }
        ensures in_range { IsAddr result }
    {
        match order {
            Order::Big => Addr::from_octets(bytes),
            Order::Little => {
                let [first, second, third, fourth] = bytes;
                Addr::from_octets([fourth, third, second, first])
            }
        }
    }

    /// The address with these octets, of which the first is the most significant.
    pub fn from_octets(octets: [u8; 4]) -> Addr
        ensures value { result ≡ from_be_bytes w32 octets }
        ensures octets { octets_of result ≡ octets }
        ensures in_range { IsAddr result }
    {
        Addr {
            bits: u32::from_be_bytes(octets),
        }
    }

    /// The address of four octets as one number, the first octet the most significant.
    pub(crate) fn from_bits(bits: u32) -> Addr
        ensures { result ≡ bits }
    {
        Addr { bits }
    }

    /// The four octets as one number, the first octet the most significant.
    pub fn to_bits(self) -> u32
        ensures { result ≡ self }
    {
        let Addr { bits } = self;
        bits
    }

    /// Whether routers forward this group: 224.0.1.0 to 239.255.255.255. The groups 224.0.0.0 to
    /// 224.0.0.255 before them stay on their LAN (RFC 5771, section 4).
    pub fn is_forwarded_group(self) -> bool
        ensures means { IsTrue result ↔ IsForwardedGroup self }
        ensures value { result ≡ is_forwarded_group self }
    {
        (0xE000_0100..=0xEFFF_FFFF).contains(&self.bits)
    }

    /// Whether a host may send from this address: its first octet is 1 to 223, and not 127
    /// (RFC 1122, section 3.2.1.3).
    pub fn is_source(self) -> bool
        ensures means { IsTrue result ↔ IsSource self }
        ensures value { result ≡ is_source self }
    {
        let first = self.bits >> 24;
        (1..=223).contains(&first) && first != 127
    }

    /// The unspecified address, 0.0.0.0 (RFC 6890, table 1: "This host on this network").
    pub fn unspecified() -> Addr
        ensures { result ≡ 0 }
    {
        Addr { bits: 0 }
    }

    /// Whether it is 0.0.0.0, the unspecified address.
    pub fn is_unspecified(self) -> bool
        ensures { result ≡ (self == 0) }
    {
        self.bits == 0
    }

    /// The four octets, the most significant first: each is 0 to 255.
    pub fn octets(self) -> [u8; 4]
        ensures octets { result ≡ octets_of self }
        // The value of an address is always a number of 32 bits.
        ensures in_range { IsAddr self }
    {
        self.bits.to_be_bytes()
    }
}

impl fmt::Display for Addr {
    ghost output = { λ a. Some (dotted a) };

    fn fmt<W: fmt::Write>(&self, f: &mut fmt::Formatter<W>) -> fmt::Result {
        let address = Ipv4Addr::from_bits(self.bits);
        write!(f, "{address}")
    }
}
