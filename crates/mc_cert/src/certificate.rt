//! A certificate: reading it, making it and writing it.

ghost use Rattle.std.specs.Prelude.{◌≡◌, ◌<◌, ◌≤◌, All, length, map, Some, None, slice_get};
ghost use Rattle.std.specs.Prelude.{option_map, string_bytes};
ghost use Rattle.mc_text.specs.Lines.{max_text};
ghost use Rattle.mc_cert.specs.Certificate.{IsWritableTree, trees_by_flow, tree_at};

use crate::compact::compact_certificate;
use crate::fault::CertFault;
use crate::reached::{FlowCert, Reached};
use crate::read::parse_certificate;
use crate::tokens::certificate_of_tokens;
use crate::trees::Trees;
use mc_text::Memory;
use mc_topology::Topology;
use std::alloc::Global;
use std::marker::Model;

/// For each flow of a topology, in order, the LANs that its packets reach: its tree. In contracts a
/// certificate is the list of these trees. A tree that several flows share is stored once.
#[derive(Debug)]
pub struct Certificate {
    trees: Vec<Vec<Reached>>,
    tree_of_flow: Option<Vec<u32>>,
}

// Written out, so that dropping a certificate is one step in a caller's proof, and not one for each field.
impl Drop for Certificate {
    fn drop(self) {
        let Self {
            trees,
            tree_of_flow,
        } = self;
    }
}

impl Model for Certificate {
    ghost use Rattle.std.specs.Prelude.{List, option_map, map};
    ghost use Rattle.mc_cert.specs.Certificate.{Tree, trees_by_flow, IsValidCertificate};

    ghost Value = { List Tree };

    ghost view = { λ c. trees_by_flow (map (λ t. t.items) c.trees.items)
        (option_map (λ n. n.items) c.tree_of_flow) };

    ghost invariant = { λ c. IsValidCertificate (map (λ t. t.items) c.trees.items)
        (option_map (λ n. n.items) c.tree_of_flow) };
}

impl Certificate {
    ghost use Rattle.std.specs.Prelude.{List, IfOk, Ok};
    ghost use Rattle.mc_cert.specs.Answer.{Gives};
    ghost use Rattle.mc_cert.specs.Certificate.{Tree, BelongsTo};
    ghost use Rattle.mc_cert.specs.CertificateText.{certificate_json};
    ghost use Rattle.mc_cert.specs.Reading.{parse_certificate};
    ghost use Rattle.mc_cert.specs.Denotation.{DenotesCertificate};

    /// Reads a certificate of version 1 or 2 for this topology: at most 16,777,216 bytes of JSON, with
    /// at most 1,024 entries for a flow or a tree, and at most 4,096 trees in version 2.
    ///
    /// # Errors
    ///
    /// The first rule that the text breaks, with its place, where each part is checked before the next
    /// one; `Memory`, at `top`, where an allocation failed.
    pub fn read(alloc: Global, text: &[u8], topology: &Topology) -> Result<Certificate, CertFault>
        // What is read is what the text denotes.
        ensures found { IfOk result (DenotesCertificate topology.now text.now) }
        // A text that denotes a certificate is read as that, unless memory runs out.
        ensures only { (flows : List Tree) → DenotesCertificate topology.now text.now flows →
            Gives (λ c. c) result (Ok flows) }
        // The fault is the first one of the text, unless memory runs out.
        ensures fault { Gives (λ c. c) result (parse_certificate topology.now text.now) }
    {
        // What `to_json` writes is read by its bytes, a certificate in another form by its tokens, and a
        // text that is none through a tree of JSON values, which finds the fault.
        if let Ok(certificate) = compact_certificate(alloc, topology, text) {
            return Ok(certificate);
        }
        if let Ok(certificate) = certificate_of_tokens(alloc, topology, text) {
            return Ok(certificate);
        }
        parse_certificate(alloc, topology, text)
    }

    /// The certificate of these trees, one for each flow, in the order of the topology's flows: at most
    /// 4,096 trees of at most 1,024 entries, each with a `need` of at least 1 and a vif of at most 31.
    pub fn from_flows(flows: Vec<Vec<Reached>>) -> Certificate
        requires few { length flows.items ≤ 4096 }
        requires lists { All IsWritableTree (map (λ tree. tree.items) flows.items) }
        ensures flows { result ≡ map (λ tree. tree.items) flows.items }
    {
        Certificate {
            trees: flows,
            tree_of_flow: None,
        }
    }

    /// The certificate of these trees, with the number of each flow's tree, counted from 0: at most
    /// 4,096 flows, and trees of at most 1,024 entries, each with a `need` of at least 1 and a vif of
    /// at most 31.
    pub fn from_trees(trees: Vec<Vec<Reached>>, tree_of_flow: Vec<u32>) -> Certificate
        requires few { length tree_of_flow.items ≤ 4096 }
        requires lists { All IsWritableTree (map (λ tree. tree.items) trees.items) }
        requires named { All (λ number. number < length trees.items) tree_of_flow.items }
        ensures flows { result ≡ map (tree_at (map (λ tree. tree.items) trees.items))
            tree_of_flow.items }
    {
        Certificate {
            trees,
            tree_of_flow: Some(tree_of_flow),
        }
    }

    /// How many flows there are, at most 4,096.
    pub fn flows(&self) -> u32
        ensures count { result ≡ length self.now }
        ensures few { length self.now ≤ 4096 }
    {
        match &self.tree_of_flow {
            Some(numbers) => numbers.len() as u32,
            None => self.trees.len() as u32,
        }
    }

    /// The tree of the flow with this number, counted from 0.
    pub(crate) fn tree(&self, flow: u32) -> &[Reached]
        requires known { flow < length self.now }
        ensures tree { slice_get self.now flow ≡ Some result.now }
    {
        let number = match &self.tree_of_flow {
            Some(numbers) => numbers[flow as usize],
            None => flow,
        };
        &self.trees[number as usize]
    }

    /// The same tree, with the rules that it keeps.
    fn writable_tree(&self, flow: u32) -> &[Reached]
        requires known { flow < length self.now }
        ensures tree { slice_get self.now flow ≡ Some result.now }
        ensures list { IsWritableTree result.now }
    {
        let _trees = &self.trees;
        self.tree(flow)
    }

    /// The certificate of the flow with this number, counted from 0, of the topology that it belongs
    /// to.
    pub fn flow<'a>(&'a self, flow: u32, topology: &Topology) -> FlowCert<'a>
        requires listed { flow < length self.now }
        requires belongs { length self.now ≡ length topology.now.flows }
        ensures source { option_map (λ flow. flow.source) (slice_get topology.now.flows flow) ≡
            Some result.source }
        ensures group { option_map (λ flow. flow.group) (slice_get topology.now.flows flow) ≡
            Some result.group }
        ensures reached { slice_get self.now flow ≡ Some result.reached.now }
        ensures list { IsWritableTree result.reached.now }
    {
        let listed = topology.flow(flow);
        FlowCert {
            source: listed.source,
            group: listed.group,
            reached: self.writable_tree(flow),
        }
    }

    /// The trees of the flows, where equal ones are stored once.
    fn to_trees(&self, alloc: Global) -> Result<Trees, Memory>
        ensures { IfOk result (λ trees. trees ≡ self.now) }
    {
        let mut trees = Trees::new(alloc);
        for flow in 0..self.flows() {
            let tree = Vec::from_slice(alloc, self.writable_tree(flow))?;
            trees.push(tree)?;
        }
        Ok(trees)
    }

    /// The JSON text of the certificate, in version 2, for the topology that it belongs to: compact,
    /// on one line without a line feed. Equal trees are written once, in the order of first use.
    ///
    /// # Errors
    ///
    /// `Memory` where an allocation failed.
    pub fn to_json(&self, alloc: Global, topology: &Topology) -> Result<String, Memory>
        requires valid { BelongsTo topology.now self.now }
        ensures text { IfOk result (λ text. string_bytes text
            ≡ certificate_json topology.now self.now) }
        ensures denotes { IfOk result (λ text. length (string_bytes text) ≤ max_text →
            DenotesCertificate topology.now (string_bytes text) self.now) }
    {
        self.to_trees(alloc)?.to_json(alloc, topology)
    }
}
