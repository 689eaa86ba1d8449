//! Prints bytes between quotes.

ghost use Rattle.std.specs.Prelude.{◌≡◌, Some};
ghost use Rattle.mc_commands.specs.RefusalText.{is_unescaped as unescaped, quoted, quoted_byte};

use std::fmt;

/// Whether a byte is printed unescaped between quotes.
fn is_unescaped(byte: u8) -> bool
    ensures { result ≡ unescaped byte }
{
    matches!(byte, 0x20..=0x7e) && byte != b'"' && byte != b'\\'
}

/// A byte that prints between quotes, as `e` or `\x22`.
#[derive(Clone, Copy, Drop)]
struct QuotedByte {
    byte: u8,
}

impl fmt::Display for QuotedByte {
    ghost output = { λ shown. Some (quoted_byte shown.byte) };

    #[tactic(auto, using(mc_shown::proofs::DeviceLemmas::hex_text))]
    fn fmt<W: fmt::Write>(&self, f: &mut fmt::Formatter<W>) -> fmt::Result {
        let byte = self.byte;
        if is_unescaped(byte) {
            f.write_char(char::from(byte))
        } else {
            write!(f, "\\x{byte:02x}")
        }
    }
}

/// Bytes that print between quotes: a quote, a backslash and bytes outside 0x20 to 0x7e as `\xhh`.
#[derive(Clone, Copy, Drop)]
pub(crate) struct Quoted<'b> {
    /// The bytes.
    pub(crate) bytes: &'b [u8],
}

impl<'b> fmt::Display for Quoted<'b> {
    ghost output = { λ shown. Some (quoted shown.bytes.now) };

    fn fmt<W: fmt::Write>(&self, f: &mut fmt::Formatter<W>) -> fmt::Result {
        for byte in self.bytes {
            let byte = QuotedByte { byte: *byte };
            write!(f, "{byte}")?;
        }
        Ok(())
    }
}
