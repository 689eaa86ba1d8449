//! The names of LANs, routers and devices.

ghost use Rattle.std.specs.Prelude.{◌≡◌};
ghost use Rattle.std.specs.List.{list_all};
ghost use Rattle.mc_topology.specs.Names.{is_name_byte, is_name, is_device};

use mc_text::is_device_name;

/// Whether a LAN's or a router's name may have the byte.
fn is_name_byte(byte: u8) -> bool
    ensures { result ≡ is_name_byte byte }
{
    byte.is_ascii_alphanumeric() || byte == b'-' || byte == b'_' || byte == b'.'
}

/// Whether a name may have each byte of the text.
fn has_name_bytes(text: &str) -> bool
    ensures { result ≡ list_all is_name_byte text.now }
{
    text.as_bytes().iter().all(|byte| is_name_byte(*byte))
}

/// Whether the text can be the name of a LAN or of a router: 1 to 32 ASCII letters, digits, `-`, `_` or
/// `.`.
#[tactic(auto, using(std::proofs::lemmas::Bool::Decides::nat_tests), unfolding(crate::specs::Names::is_name))]
pub fn is_name(text: &str) -> bool
    ensures { result ≡ is_name text.now }
{
    if text.is_empty() || text.len() > 32 {
        return false;
    }
    has_name_bytes(text)
}

/// Whether the text can be the name of an interface's device: a device's name, and not `none`, which the
/// kernel writes for a vif without a device.
#[tactic(auto, unfolding(crate::specs::Names::is_device))]
pub(crate) fn is_device(text: &str) -> bool
    ensures { result ≡ is_device text.now }
{
    is_device_name(text.as_bytes()) && text != "none"
}
