//! Reads a certificate of version 2.

ghost use Rattle.std.specs.Prelude.{◌≡◌, ◌<◌, ◌≤◌, None, All, IfOk, length, map, option_map};
ghost use Rattle.mc_text.specs.Lines.{max_text};
ghost use Rattle.serde_json.specs.Data.{Members};
ghost use Rattle.mc_cert.specs.Certificate.{IsWritableTree, tree_at};
ghost use Rattle.mc_cert.specs.Denotation.{DenotesCertificate, DenotesTree};
ghost use Rattle.mc_cert.specs.Tokens.{ReadsTo, DenotesTrees, HoldsVersionTwo, IsVersionTwo};

use crate::certificate::Certificate;
use crate::compact::are_below;
use crate::key::Key;
use crate::reached::Reached;
use crate::token_reader::TokenReader;
use crate::tokens::NotRead;
use crate::tokens::entry::entries_value;
use crate::tokens::list::{TokenRows, read_list};
use crate::tokens::object::{Fields, read_document};
use crate::tokens::shared_flow::tree_numbers_value;
use crate::tokens::value::whole_value;
use crate::version_two::MAX_TREES;
use mc_topology::Topology;
use std::alloc::Global;

/// Reads each row as a tree.
#[derive(Drop)]
struct TreeRows<'t> {
    alloc: Global,
    topology: &'t Topology,
}

impl<'t> TokenRows for TreeRows<'t> {
    ghost use Rattle.std.specs.Prelude.{⊤};
    ghost use Rattle.mc_cert.specs.Certificate.{Tree};

    type Item = Vec<Reached>;

    ghost Row = { Tree };

    ghost item_view = { λ entries. entries.items };

    ghost levels = { 2 };

    ghost is_row_number = { λ _ _. ⊤ };

    ghost denotes = { λ rows _. DenotesTree rows.topology.now };

    fn read_row(
        &self,
        _number: usize,
        reader: &mut TokenReader<'_>,
    ) -> Result<Vec<Reached>, NotRead> {
        entries_value(self.alloc, self.topology, reader)
    }
}

/// Reads the list of trees.
fn trees_value(
    alloc: Global,
    topology: &Topology,
    reader: &mut TokenReader<'_>,
) -> Result<Vec<Vec<Reached>>, NotRead>
    ensures { IfOk result (λ trees. ReadsTo 3 reader.old
        (λ d. DenotesTrees topology.now d (map (λ entries. entries.items) trees.items)) reader.new) }
{
    let trees = read_list(alloc, &TreeRows { alloc, topology }, MAX_TREES, reader)?;
    Ok(trees)
}

/// What was read of a certificate.
#[derive(Drop)]
struct VersionTwoFields {
    version: Option<u32>,
    flows: Option<Vec<u32>>,
    trees: Option<Vec<Vec<Reached>>>,
}

impl Fields for VersionTwoFields {
    ghost levels = { 3 };

    ghost holds = { λ t f. HoldsVersionTwo t f.version (option_map (λ numbers. numbers.items) f.flows)
        (option_map (λ trees. map (λ es. es.items) trees.items) f.trees) };

    fn read_field(
        self,
        alloc: Global,
        topology: &Topology,
        key: Key,
        reader: &mut TokenReader<'_>,
    ) -> Result<VersionTwoFields, NotRead> {
        match key {
            Key::Flows => {
                let numbers = tree_numbers_value(alloc, topology, reader)?;
                Ok(VersionTwoFields {
                    flows: Some(numbers),
                    ..self
                })
            }
            Key::Trees => {
                let trees = trees_value(alloc, topology, reader)?;
                Ok(VersionTwoFields {
                    trees: Some(trees),
                    ..self
                })
            }
            Key::Version => {
                let version = whole_value(2, 2, reader)?;
                Ok(VersionTwoFields {
                    version: Some(version),
                    ..self
                })
            }
            _ => Err(NotRead),
        }
    }
}

/// The certificate of these trees, if the number of each flow's tree is below their count.
fn certificate_of(trees: Vec<Vec<Reached>>, numbers: Vec<u32>) -> Result<Certificate, NotRead>
    requires few { length numbers.items ≤ 4096 }
    requires lists { All IsWritableTree (map (λ entries. entries.items) trees.items) }
    ensures flows { IfOk result (λ certificate.
        certificate ≡ map (tree_at (map (λ entries. entries.items) trees.items)) numbers.items) }
    ensures below { IfOk result (λ _. All (λ number. number < length trees.items) numbers.items) }
{
    if !are_below(&numbers, trees.len()) {
        return Err(NotRead);
    }
    Ok(Certificate::from_trees(trees, numbers))
}

impl VersionTwoFields {
    fn new() -> VersionTwoFields
        ensures { result ≡ record { version = None; flows = None; trees = None } }
    {
        VersionTwoFields {
            version: None,
            flows: None,
            trees: None,
        }
    }

    /// The certificate, if it has what it must have.
    fn certificate(self, topology: &Topology) -> Result<Certificate, NotRead>
        requires read { (members : Members) × HoldsVersionTwo topology.now self.version
            (option_map (λ numbers. numbers.items) self.flows)
            (option_map (λ trees. map (λ entries. entries.items) trees.items) self.trees) members }
        ensures { IfOk result (λ certificate. (members : Members)
            → HoldsVersionTwo topology.now self.version
            (option_map (λ numbers. numbers.items) self.flows)
            (option_map (λ trees. map (λ entries. entries.items) trees.items) self.trees) members →
            IsVersionTwo topology.now members certificate) }
    {
        // This brings the topology's rules into the proof: its limits follow from them.
        let _rules = topology.flows();
        match (self.version, self.flows, self.trees) {
            (Some(_version), Some(numbers), Some(trees)) => {
                let certificate = certificate_of(trees, numbers)?;
                Ok(certificate)
            }
            _ => Err(NotRead),
        }
    }
}

/// Reads a certificate of version 2.
pub(crate) fn version_two(
    alloc: Global,
    topology: &Topology,
    text: &str,
) -> Result<Certificate, NotRead>
    requires few { length text.now ≤ max_text }
    ensures denotes { IfOk result (DenotesCertificate topology.now text.now) }
{
    let fields = read_document(alloc, topology, VersionTwoFields::new(), text)?;
    let certificate = fields.certificate(topology)?;
    Ok(certificate)
}
