//! The trees of a certificate, added flow by flow.

ghost use Rattle.std.specs.Prelude.{◌≡◌, ◌<◌, ◌≤◌, [], ◌∷◌, ◌++◌, length, IfOk, OnOk, OnErr};
ghost use Rattle.std.specs.Prelude.{string_bytes};
ghost use Rattle.mc_text.specs.Lines.{max_text};
ghost use Rattle.mc_cert.specs.Certificate.{BelongsTo, IsWritableTree};
ghost use Rattle.mc_cert.specs.CertificateText.{certificate_json};
ghost use Rattle.mc_cert.specs.Denotation.{DenotesCertificate};

use crate::distinct::DistinctTrees;
use crate::json_text::{push_flows, push_trees, room_for};
use crate::reached::Reached;
use mc_text::Memory;
use mc_topology::Topology;
use std::alloc::Global;
use std::marker::Model;

/// The trees of a certificate, one for each flow, in the order in which they were added. In contracts
/// this is their list. A tree that several flows share is stored once.
#[derive(Debug, Drop)]
pub struct Trees {
    distinct: DistinctTrees,
    /// The number of each flow's tree among these.
    numbers: Vec<u32>,
}

impl Model for Trees {
    ghost use Rattle.std.specs.Prelude.{List};
    ghost use Rattle.mc_cert.specs.Certificate.{Tree};
    ghost use Rattle.mc_cert.specs.Trees.{trees_of, AreSharedTrees};

    ghost Value = { List Tree };

    ghost view = { λ t. trees_of t.distinct t.numbers.items };

    ghost invariant = { λ t. AreSharedTrees t.distinct t.numbers.items };
}

impl Trees {
    /// No trees.
    pub fn new(alloc: Global) -> Trees
        ensures { result ≡ [] }
    {
        Trees {
            distinct: DistinctTrees::new(alloc),
            numbers: Vec::new(alloc),
        }
    }

    /// Adds the tree of the next flow: at most 1,024 entries, each with a `need` of at least 1 and a
    /// vif of at most 31. There are at most 4,096 flows.
    ///
    /// # Errors
    ///
    /// `Memory` where an allocation failed. The trees are then unchanged.
    pub fn push(&mut self, tree: Vec<Reached>) -> Result<(), Memory>
        requires few { length self.old < 4096 }
        requires list { IsWritableTree tree.items }
        ensures pushed { OnOk result (self.new ≡ self.old ++ tree.items ∷ []) }
        ensures unchanged { OnErr result (self.new ≡ self.old) }
    {
        self.numbers.reserve(1)?;
        let number = self.distinct.number_of(tree)?;
        self.numbers.push(number)?;
        Ok(())
    }

    /// The JSON text of the certificate of these trees, in version 2, for the topology that it
    /// belongs to: compact, on one line without a line feed. Equal trees are written once, in the
    /// order of first use.
    ///
    /// # Errors
    ///
    /// `Memory` where an allocation failed.
    pub fn to_json(&self, alloc: Global, topology: &Topology) -> Result<String, Memory>
        requires valid { BelongsTo topology.now self.now }
        ensures text { IfOk result (λ text. string_bytes text
            ≡ certificate_json topology.now self.now) }
        ensures denotes { IfOk result (λ text. length (string_bytes text) ≤ max_text →
            DenotesCertificate topology.now (string_bytes text) self.now) }
    {
        // This brings the topology's rules into the proof: its limits follow from them.
        let _rules = topology.flows();
        let mut text = String::from_str(alloc, r#"{"flows":["#)?;
        push_flows(&mut text, topology, &self.numbers)?;
        text.push_str(r#"],"trees":["#)?;
        let trees = self.distinct.trees();
        text.reserve(room_for(trees))?;
        push_trees(&mut text, topology, trees)?;
        text.push_str(r#"],"version":2}"#)?;
        Ok(text)
    }
}
