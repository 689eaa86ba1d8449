//! The text of a vif's device.

ghost use Rattle.std.specs.Prelude.{◌≡◌, Some};
ghost use Rattle.mc_forward.specs.ListedTables.{facts};
ghost use Rattle.mc_shown.specs.RowText.{byte_text, device_text, device_name_text, is_plain};

use mc_forward::FlowView;
use mc_topology::RouterNo;
use std::fmt;

/// Whether a byte of a device's name is written unescaped.
fn is_plain(byte: u8) -> bool
    ensures { result ≡ is_plain byte }
{
    matches!(byte, 0x21..=0x7e) && byte != b'\\'
}

/// A byte of a device's name, such as `e` or `\x20`.
#[derive(Clone, Copy, Drop)]
struct ShownByte {
    byte: u8,
}

impl fmt::Display for ShownByte {
    ghost output = { λ shown. Some (byte_text shown.byte) };

    #[tactic(auto, using(crate::proofs::DeviceLemmas::hex_text))]
    fn fmt<W: fmt::Write>(&self, f: &mut fmt::Formatter<W>) -> fmt::Result {
        let byte = self.byte;
        if is_plain(byte) {
            f.write_char(char::from(byte))
        } else {
            write!(f, "\\x{byte:02x}")
        }
    }
}

/// A device's name, such as `eth1`. The backslash, and bytes outside 0x21 to 0x7e, are escaped as `\xhh`.
#[derive(Clone, Copy, Drop)]
pub struct ShownDeviceName<'n> {
    /// Its bytes.
    pub name: &'n [u8],
}

impl<'n> fmt::Display for ShownDeviceName<'n> {
    ghost output = { λ shown. Some (device_name_text shown.name.now) };

    fn fmt<W: fmt::Write>(&self, f: &mut fmt::Formatter<W>) -> fmt::Result {
        for byte in self.name {
            let byte = ShownByte { byte: *byte };
            write!(f, "{byte}")?;
        }
        Ok(())
    }
}

/// The device of a router's vif, such as `eth1`, or the vif's number, such as `vif/3`, if the router's
/// table has no line for it or no device.
#[derive(Clone, Copy, Drop)]
pub struct ShownDevice<'v> {
    /// A flow of the domain.
    pub view: &'v FlowView<'v>,
    /// The router.
    pub router: RouterNo,
    /// Its vif.
    pub vif: u8,
}

impl<'v> fmt::Display for ShownDevice<'v> {
    ghost output = { λ shown. Some (device_text (facts shown.view.now.domain) shown.router shown.vif) };

    fn fmt<W: fmt::Write>(&self, f: &mut fmt::Formatter<W>) -> fmt::Result {
        let vif = self.vif;
        match self.view.vif(self.router, vif) {
            Some(line) if line.has_device() => {
                let name = ShownDeviceName {
                    name: line.device(),
                };
                write!(f, "{name}")
            }
            _ => write!(f, "vif/{vif}"),
        }
    }
}
