//! Reads a certificate of version 1.

ghost use Rattle.std.specs.Prelude.{◌≡◌, ◌≤◌, None, IfOk, length, map, option_map};
ghost use Rattle.mc_text.specs.Lines.{max_text};
ghost use Rattle.serde_json.specs.Data.{Members};
ghost use Rattle.mc_cert.specs.Denotation.{DenotesCertificate};
ghost use Rattle.mc_cert.specs.Tokens.{HoldsVersionOne, IsVersionOne};

use crate::certificate::Certificate;
use crate::key::Key;
use crate::reached::Reached;
use crate::token_reader::TokenReader;
use crate::tokens::NotRead;
use crate::tokens::flow::flows_value;
use crate::tokens::object::{Fields, read_document};
use crate::tokens::value::whole_value;
use mc_topology::Topology;
use std::alloc::Global;

/// What was read of a certificate.
#[derive(Drop)]
struct VersionOneFields {
    version: Option<u32>,
    flows: Option<Vec<Vec<Reached>>>,
}

impl Fields for VersionOneFields {
    ghost levels = { 4 };

    ghost holds = { λ t f. HoldsVersionOne t f.version
        (option_map (λ flows. map (λ es. es.items) flows.items) f.flows) };

    fn read_field(
        self,
        alloc: Global,
        topology: &Topology,
        key: Key,
        reader: &mut TokenReader<'_>,
    ) -> Result<VersionOneFields, NotRead> {
        match key {
            Key::Version => {
                let version = whole_value(1, 1, reader)?;
                Ok(VersionOneFields {
                    version: Some(version),
                    ..self
                })
            }
            Key::Flows => {
                let flows = flows_value(alloc, topology, reader)?;
                Ok(VersionOneFields {
                    flows: Some(flows),
                    ..self
                })
            }
            _ => Err(NotRead),
        }
    }
}

impl VersionOneFields {
    fn new() -> VersionOneFields
        ensures { result ≡ record { version = None; flows = None } }
    {
        VersionOneFields {
            version: None,
            flows: None,
        }
    }

    /// The certificate, if it has what it must have.
    fn certificate(self, topology: &Topology) -> Result<Certificate, NotRead>
        requires read { (members : Members) × HoldsVersionOne topology.now self.version
            (option_map (λ flows. map (λ entries. entries.items) flows.items) self.flows) members }
        ensures { IfOk result (λ certificate. (members : Members)
            → HoldsVersionOne topology.now self.version
            (option_map (λ flows. map (λ entries. entries.items) flows.items) self.flows) members →
            IsVersionOne topology.now members certificate) }
    {
        // This brings the topology's rules into the proof: its limits follow from them.
        let _rules = topology.flows();
        match (self.version, self.flows) {
            (Some(_), Some(flows)) => Ok(Certificate::from_flows(flows)),
            _ => Err(NotRead),
        }
    }
}

/// Reads a certificate of version 1.
pub(crate) fn version_one(
    alloc: Global,
    topology: &Topology,
    text: &str,
) -> Result<Certificate, NotRead>
    requires few { length text.now ≤ max_text }
    ensures { IfOk result (DenotesCertificate topology.now text.now) }
{
    let fields = read_document(alloc, topology, VersionOneFields::new(), text)?;
    let certificate = fields.certificate(topology)?;
    Ok(certificate)
}
