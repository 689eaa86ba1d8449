//! Topologies that are one byte too long. The program takes no such file.

use super::lookups::NETWORK;
use mc_topology::*;
use std::alloc::{AllocError, Global};
use std::test::Fail;

/// A text, and a byte after it, repeated up to one byte too many.
fn too_long(alloc: Global, text: &str, byte: u8) -> Result<Vec<u8>, AllocError> {
    let mut bytes = Vec::from_slice(alloc, text.as_bytes())?;
    bytes.resize(16_777_217, byte)?;
    Ok(bytes)
}

/// Whether a text has too many bytes.
fn is_refused(alloc: Global, text: &[u8]) -> bool {
    match Topology::read(alloc, text).err() {
        Some(fault) => {
            fault.section == Section::Top
                && fault.number == 0
                && fault.kind == TopologyFaultKind::TooMany
        }
        None => false,
    }
}

/// Too many bytes are reported before any other fault: a missing key, bad TOML, and bytes that aren't
/// UTF-8.
#[test]
fn oversized_topologies_are_refused(rt: HostRuntime) -> Result<(), Fail> {
    for (text, byte) in [(NETWORK, b'#'), ("", b'#'), ("", b'='), ("", 0xFF)] {
        let bytes = too_long(rt.alloc(), text, byte)?;
        assert!(rt; is_refused(rt.alloc(), &bytes), "at {byte}");
    }
    Ok(())
}
