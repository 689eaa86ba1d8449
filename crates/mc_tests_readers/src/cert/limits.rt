//! Certificates that are one byte too long. The program takes no such file.

use super::network::{NETWORK, VERSION_ONE, VERSION_TWO};
use crate::topology::lookups::with_topology;
use mc_cert::*;
use mc_topology::Topology;
use std::alloc::{AllocError, Global};
use std::test::Fail;

/// A certificate, and spaces after it up to one byte too many.
fn too_long(alloc: Global, certificate: &str) -> Result<Vec<u8>, AllocError> {
    let mut text = Vec::with_capacity(alloc, 16_777_217)?;
    text.extend_from_slice(certificate.as_bytes())?;
    text.resize(16_777_217, b' ')?;
    Ok(text)
}

/// Whether a text has too many bytes for a certificate of this topology.
fn is_refused_for_topology(alloc: Global, topology: &Topology, text: &[u8]) -> bool {
    let fault = CertFault {
        place: At::Top,
        kind: CertFaultKind::TooMany,
    };
    Certificate::read(alloc, text, topology).err() == Some(fault)
}

/// The same for the topology of NETWORK.
fn is_refused(alloc: Global, text: &[u8]) -> bool {
    let found = with_topology(alloc, NETWORK.as_bytes(), |topology| {
        is_refused_for_topology(alloc, topology, text)
    });
    matches!(found, Ok(true))
}

#[test]
fn oversized_certificates_are_refused(rt: HostRuntime) -> Result<(), Fail> {
    for certificate in [VERSION_ONE, VERSION_TWO] {
        let text = too_long(rt.alloc(), certificate)?;
        assert!(rt; is_refused(rt.alloc(), &text));
    }
    Ok(())
}
