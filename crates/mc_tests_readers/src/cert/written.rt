//! Tests of certificates that are read and written again.

ghost use Rattle.mc_cert.specs.Certificate.{BelongsTo};

use super::network::{NETWORK, TWO_FLOWS};
use crate::topology::lookups::with_topology;
use mc_cert::laws::denoted_certificate_belongs_to_topology;
use mc_cert::*;
use mc_topology::Topology;
use std::alloc::{AllocError, Global};
use std::process::Abort;
use std::test::Fail;

/// Whether a certificate is written as this text.
fn is_written(alloc: Global, topology: &Topology, certificate: &Certificate, wanted: &str) -> bool
    requires { BelongsTo topology.now certificate.now }
{
    match certificate.to_json(alloc, topology) {
        Ok(text) => text.as_str() == wanted,
        Err(_) => false,
    }
}

/// Whether the certificate that a text denotes over a topology is written as `wanted`.
fn is_rewritten_over(alloc: Global, topology: &Topology, text: &str, wanted: &str) -> bool {
    denoted_certificate_belongs_to_topology();
    match Certificate::read(alloc, text.as_bytes(), topology) {
        Ok(certificate) => is_written(alloc, topology, &certificate, wanted),
        Err(_) => false,
    }
}

/// The same over the topology of a network's text.
fn is_rewritten(alloc: Global, network: &str, text: &str, wanted: &str) -> bool {
    let found = with_topology(alloc, network.as_bytes(), |topology| {
        is_rewritten_over(alloc, topology, text, wanted)
    });
    matches!(found, Ok(true))
}

/// Certificates of NETWORK: of each block a comment, a text, and how its certificate is written.
const OF_ONE_FLOW: &str = r#"# version 1
{"flows":[{"group":"239.1.2.3","reached":[{"lan":"l0","need":1,"rank":0},{"lan":"l1","need":2,"rank":1,"router":"r1","vif":1},{"lan":"l2","need":3,"rank":2,"router":"r2","vif":1}],"source":"10.0.0.5"}],"version":1}
{"flows":[{"group":"239.1.2.3","source":"10.0.0.5","tree":0}],"trees":[[{"lan":"l0","need":1,"rank":0},{"lan":"l1","need":2,"rank":1,"router":"r1","vif":1},{"lan":"l2","need":3,"rank":2,"router":"r2","vif":1}]],"version":2}

# version 2
{"flows":[{"group":"239.1.2.3","source":"10.0.0.5","tree":0}],"trees":[[{"lan":"l0","need":1,"rank":0},{"lan":"l1","need":2,"rank":1,"router":"r1","vif":1},{"lan":"l2","need":3,"rank":2,"router":"r2","vif":1}]],"version":2}
{"flows":[{"group":"239.1.2.3","source":"10.0.0.5","tree":0}],"trees":[[{"lan":"l0","need":1,"rank":0},{"lan":"l1","need":2,"rank":1,"router":"r1","vif":1},{"lan":"l2","need":3,"rank":2,"router":"r2","vif":1}]],"version":2}

# no entries
{"flows":[{"group":"239.1.2.3","reached":[],"source":"10.0.0.5"}],"version":1}
{"flows":[{"group":"239.1.2.3","source":"10.0.0.5","tree":0}],"trees":[[]],"version":2}"#;

/// The same for TWO_FLOWS.
const OF_TWO_FLOWS: &str = r#"# equal lists of two flows are one tree
{"flows":[{"group":"239.1.2.3","reached":[{"lan":"l0","need":1,"rank":0}],"source":"10.0.0.5"},{"group":"239.1.2.4","reached":[{"lan":"l0","need":1,"rank":0}],"source":"10.0.0.5"}],"version":1}
{"flows":[{"group":"239.1.2.3","source":"10.0.0.5","tree":0},{"group":"239.1.2.4","source":"10.0.0.5","tree":0}],"trees":[[{"lan":"l0","need":1,"rank":0}]],"version":2}

# one tree of both
{"flows":[{"group":"239.1.2.3","source":"10.0.0.5","tree":0},{"group":"239.1.2.4","source":"10.0.0.5","tree":0}],"trees":[[{"lan":"l0","need":1,"rank":0}]],"version":2}
{"flows":[{"group":"239.1.2.3","source":"10.0.0.5","tree":0},{"group":"239.1.2.4","source":"10.0.0.5","tree":0}],"trees":[[{"lan":"l0","need":1,"rank":0}]],"version":2}

# equal trees that are given twice are one
{"flows":[{"group":"239.1.2.3","source":"10.0.0.5","tree":0},{"group":"239.1.2.4","source":"10.0.0.5","tree":1}],"trees":[[{"lan":"l0","need":1,"rank":0}],[{"lan":"l0","need":1,"rank":0}]],"version":2}
{"flows":[{"group":"239.1.2.3","source":"10.0.0.5","tree":0},{"group":"239.1.2.4","source":"10.0.0.5","tree":0}],"trees":[[{"lan":"l0","need":1,"rank":0}]],"version":2}

# trees that no flow names are left out
{"flows":[{"group":"239.1.2.3","source":"10.0.0.5","tree":1},{"group":"239.1.2.4","source":"10.0.0.5","tree":1}],"trees":[[],[{"lan":"l0","need":1,"rank":0}],[]],"version":2}
{"flows":[{"group":"239.1.2.3","source":"10.0.0.5","tree":0},{"group":"239.1.2.4","source":"10.0.0.5","tree":0}],"trees":[[{"lan":"l0","need":1,"rank":0}]],"version":2}

# the order is that of first use, and a tree may be empty
{"flows":[{"group":"239.1.2.3","source":"10.0.0.5","tree":1},{"group":"239.1.2.4","source":"10.0.0.5","tree":0}],"trees":[[{"lan":"l0","need":1,"rank":0}],[]],"version":2}
{"flows":[{"group":"239.1.2.3","source":"10.0.0.5","tree":0},{"group":"239.1.2.4","source":"10.0.0.5","tree":1}],"trees":[[],[{"lan":"l0","need":1,"rank":0}]],"version":2}

# each flow's own tree
{"flows":[{"group":"239.1.2.3","source":"10.0.0.5","tree":0},{"group":"239.1.2.4","source":"10.0.0.5","tree":1}],"trees":[[],[{"lan":"l0","need":1,"rank":0}]],"version":2}
{"flows":[{"group":"239.1.2.3","source":"10.0.0.5","tree":0},{"group":"239.1.2.4","source":"10.0.0.5","tree":1}],"trees":[[],[{"lan":"l0","need":1,"rank":0}]],"version":2}

# trees of the same entries in another order are two
{"flows":[{"group":"239.1.2.3","source":"10.0.0.5","tree":0},{"group":"239.1.2.4","source":"10.0.0.5","tree":1}],"trees":[[{"lan":"l0","need":1,"rank":0},{"lan":"l2","need":255,"rank":255,"router":"r2","vif":31}],[{"lan":"l2","need":255,"rank":255,"router":"r2","vif":31},{"lan":"l0","need":1,"rank":0}]],"version":2}
{"flows":[{"group":"239.1.2.3","source":"10.0.0.5","tree":0},{"group":"239.1.2.4","source":"10.0.0.5","tree":1}],"trees":[[{"lan":"l0","need":1,"rank":0},{"lan":"l2","need":255,"rank":255,"router":"r2","vif":31}],[{"lan":"l2","need":255,"rank":255,"router":"r2","vif":31},{"lan":"l0","need":1,"rank":0}]],"version":2}"#;

/// Each certificate of the blocks is written as its block says.
pub(super) fn check_blocks(rt: &impl Abort, alloc: Global, network: &str, blocks: &str) {
    for block in blocks.split("\n\n") {
        let (_, texts) = block.split_once('\n').expect(rt, "a comment");
        let (text, wanted) = texts.split_once('\n').expect(rt, "two texts");
        assert!(rt; is_rewritten(alloc, network, text, wanted), "at {text}");
    }
}

#[test]
fn certificates_are_written_in_version_two(rt: HostRuntime) {
    check_blocks(&rt, rt.alloc(), NETWORK, OF_ONE_FLOW);
    check_blocks(&rt, rt.alloc(), TWO_FLOWS, OF_TWO_FLOWS);
}

/// A network of the greatest number of flows.
fn many_flows(alloc: Global) -> Result<String, AllocError> {
    let mut text = String::from_str(
        alloc,
        "version = 1\nlans = [\"l0\"]\nsource = [{address = \"10.0.0.5\", lan = \"l0\"}]\nflow = [",
    )?;
    for number in 0..4096u32 {
        let (third, fourth) = (number / 256, number % 256);
        write!(
            text,
            r#"{{source = "10.0.0.5", group = "239.1.{third}.{fourth}", ttl = 3}},"#
        )?;
    }
    text.push_str("]\n")?;
    Ok(text)
}

/// The certificate of those flows: one tree of the greatest number of entries.
fn one_tree(alloc: Global) -> Result<String, AllocError> {
    let mut text = String::from_str(
        alloc,
        r#"{"flows":[{"group":"239.1.0.0","source":"10.0.0.5","tree":0}"#,
    )?;
    for number in 1..4096u32 {
        let (third, fourth) = (number / 256, number % 256);
        write!(
            text,
            r#",{{"group":"239.1.{third}.{fourth}","source":"10.0.0.5","tree":0}}"#
        )?;
    }
    text.push_str(r#"],"trees":[[{"lan":"l0","need":1,"rank":0}"#)?;
    for _ in 1..1024u32 {
        text.push_str(r#",{"lan":"l0","need":1,"rank":0}"#)?;
    }
    text.push_str(r#"]],"version":2}"#)?;
    Ok(text)
}

#[test]
fn many_flows_share_a_tree(rt: HostRuntime) -> Result<(), Fail> {
    let network = many_flows(rt.alloc())?;
    let text = one_tree(rt.alloc())?;
    let found = is_rewritten(rt.alloc(), network.as_str(), text.as_str(), text.as_str());
    assert!(rt; found);
    Ok(())
}
