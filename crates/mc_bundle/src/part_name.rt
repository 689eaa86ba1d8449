//! Names of a bundle's parts.

ghost use Rattle.std.specs.Prelude.{◌≡◌, ◌≤◌, length, IfSome, Some};
ghost use Rattle.std.specs.List.{list_all};
ghost use Rattle.mc_text.specs.Names.{is_part_byte};
ghost use Rattle.mc_bundle.specs.Bundle.{IsPartName};
ghost use Rattle.mc_bundle.specs.BundleReading.{is_part_name as is_name};
ghost use Rattle.mc_bundle.specs.PartName.{padded as with_zeros};

use std::marker::Model;
use std::{fmt, str};

/// The greatest length of a name, in bytes.
const MAX_NAME: usize = 64;

/// A part's name: 1 to 64 ASCII letters, digits, `-`, `_`, `.` and `/`.
#[derive(Clone, Copy, Debug, PartialEq, Eq)]
pub struct PartName {
    bytes: [u8; MAX_NAME],
    length: usize,
}

impl Model for PartName {
    ghost use Rattle.std.specs.Prelude.{ℕ, List};
    ghost use Rattle.std.proofs.Common.{arith, sym, length-take-le};
    ghost use Rattle.mc_bundle.specs.PartName.{name_of, IsNameInside, inside_of};

    ghost Value = { List ℕ };

    ghost view = { name_of };

    ghost invariant = { IsNameInside };

    ghost inverse = { inside_of };

    ghost inverse_ok = { λ a h i. record {
      bytes = sym h.zeros i;
      length = length-take-le a.length a.bytes (omega (arith, h.within, h.full)) i;
    } };
}

impl PartName {
    /// The name with these bytes. There is none if they are empty, more than 64, or other bytes than
    /// those.
    pub fn new(bytes: &[u8]) -> Option<PartName>
        ensures found { IfSome result (λ name. name ≡ bytes.now) }
        ensures is_name { IfSome result IsPartName }
        ensures only { IsPartName bytes.now → result ≡ Some bytes.now }
    {
        if !is_part_name(bytes) {
            return None;
        }
        Some(PartName {
            bytes: padded(bytes),
            length: bytes.len(),
        })
    }

    /// Its bytes.
    pub fn as_bytes(&self) -> &[u8]
        ensures bytes { result.now ≡ self.now }
        ensures is_name { IsPartName self.now }
    {
        &self.bytes[..self.length]
    }
}

impl fmt::Display for PartName {
    ghost output = { λ name. Some name };

    fn fmt<W: fmt::Write>(&self, f: &mut fmt::Formatter<W>) -> fmt::Result {
        match str::from_utf8(self.as_bytes()) {
            Ok(text) => f.write_str(text),
            Err(_) => Err(fmt::Error),
        }
    }
}

fn is_part_name(bytes: &[u8]) -> bool
    ensures { result ≡ is_name bytes.now }
{
    if bytes.is_empty() || bytes.len() > MAX_NAME {
        return false;
    }
    are_name_bytes(bytes)
}

fn are_name_bytes(bytes: &[u8]) -> bool
    ensures { result ≡ list_all is_part_byte bytes.now }
{
    bytes.iter().all(|byte| is_name_byte(*byte))
}

fn is_name_byte(byte: u8) -> bool
    ensures { result ≡ is_part_byte byte }
{
    byte.is_ascii_alphanumeric() || matches!(byte, b'-' | b'_' | b'.' | b'/')
}

/// The bytes, followed by zeros.
fn padded(bytes: &[u8]) -> [u8; MAX_NAME]
    requires bounded { length bytes.now ≤ MAX_NAME }
    ensures value { result ≡ with_zeros bytes.now }
    ensures full { length result ≡ MAX_NAME }
{
    let mut all = [0u8; MAX_NAME];
    all[..bytes.len()].copy_from_slice(bytes);
    all
}
