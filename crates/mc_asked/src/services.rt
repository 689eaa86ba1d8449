//! The services whose groups hosts ask for by themselves.

ghost use Rattle.std.specs.Prelude.{◌≡◌, option_map};
ghost use Rattle.mc_asked.specs.Services.{service_name};

use mc_text::Addr;

/// The name of the service of a group, if it is one's.
pub fn service_name(group: Addr) -> Option<&'static str>
    ensures { option_map (λ name. name.now) result ≡ service_name group }
{
    match group.to_bits() {
        0xE000_0101 => Some("NTP"),
        0xE000_0116 => Some("SLP"),
        0xE000_0118 => Some("WINS"),
        0xE000_0123 => Some("SLP"),
        0xE000_0127 => Some("Auto-RP"),
        0xE000_0128 => Some("Auto-RP"),
        0xE000_013C => Some("HP"),
        0xE000_014B => Some("SIP"),
        0xE000_01BB => Some("CoAP"),
        0xE000_170C => Some("KNX"),
        0xE002_7FFE => Some("SAP"),
        0xEFC3_FFFF => Some("SAP"),
        0xEFFF_FFFA => Some("SSDP"),
        0xEFFF_FFFD => Some("SLP"),
        0xEFFF_FFFF => Some("SAP"),
        _ => None,
    }
}
