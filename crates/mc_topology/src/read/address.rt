//! Reads the addresses of sources and groups.

ghost use Rattle.mc_topology.specs.Addresses.{source_address_of, group_address_of};
ghost use Rattle.std.specs.Prelude.{◌≡◌};

use crate::fault::TopologyFaultKind;
use mc_text::Addr;

/// Parses the address of a host that may send.
#[tactic(auto, unfolding(crate::specs::Addresses::source_address_of))]
pub(crate) fn source_address_of(text: &str) -> Result<Addr, TopologyFaultKind>
    ensures { result ≡ source_address_of text.now }
{
    match Addr::parse_dotted(text.as_bytes()) {
        Some(address) if address.is_source() => Ok(address),
        _ => Err(TopologyFaultKind::BadAddress),
    }
}

/// Parses the address of a group that routers forward.
#[tactic(auto, unfolding(crate::specs::Addresses::group_address_of))]
pub(crate) fn group_address_of(text: &str) -> Result<Addr, TopologyFaultKind>
    ensures { result ≡ group_address_of text.now }
{
    match Addr::parse_dotted(text.as_bytes()) {
        Some(address) if address.is_forwarded_group() => Ok(address),
        _ => Err(TopologyFaultKind::BadAddress),
    }
}
