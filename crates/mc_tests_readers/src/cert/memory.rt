//! Lack of memory: a certificate is written, and written again if memory runs out. `rt try --test
//! --fail-alloc N` refuses the Nth growth.

ghost use Rattle.mc_cert.specs.Certificate.{BelongsTo};

use super::network::TWO_FLOWS;
use crate::topology::lookups::with_topology;
use mc_cert::laws::denoted_certificate_belongs_to_topology;
use mc_cert::*;
use mc_text::Memory;
use mc_topology::Topology;
use std::alloc::Global;
use std::test::Fail;

/// A certificate of two flows, each with a tree of its own.
const TEXT: &str = concat!(
    r#"{"flows":[{"group":"239.1.2.3","source":"10.0.0.5","tree":0},"#,
    r#"{"group":"239.1.2.4","source":"10.0.0.5","tree":1}],"#,
    r#""trees":[[{"lan":"l0","need":1,"rank":0},{"lan":"l2","need":255,"rank":255,"router":"r2","vif":31}],"#,
    r#"[{"lan":"l0","need":1,"rank":0}]],"version":2}"#
);

/// Whether the certificate is written as TEXT, by a second call if memory runs out.
fn is_written_with_retry(
    alloc: Global,
    topology: &Topology,
    certificate: &Certificate,
) -> Result<bool, Memory>
    requires { BelongsTo topology.now certificate.now }
{
    match certificate.to_json(alloc, topology) {
        Ok(text) => Ok(text.as_str() == TEXT),
        Err(Memory) => Ok(certificate.to_json(alloc, topology)?.as_str() == TEXT),
    }
}

/// The same for the certificate that TEXT denotes.
fn is_rewritten(alloc: Global, topology: &Topology) -> Result<bool, Fail> {
    denoted_certificate_belongs_to_topology();
    match Certificate::read(alloc, TEXT.as_bytes(), topology) {
        Ok(certificate) => Ok(is_written_with_retry(alloc, topology, &certificate)?),
        Err(fault) => Err(fault.into()),
    }
}

#[test]
fn certificate_is_written_after_a_refused_growth(rt: HostRuntime) -> Result<(), Fail> {
    let alloc = rt.alloc();
    let found = with_topology(alloc, TWO_FLOWS.as_bytes(), |topology| {
        is_rewritten(alloc, topology)
    })?;
    assert!(rt; found?);
    Ok(())
}
