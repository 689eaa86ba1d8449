//! The LANs of a topology, by name and by number.

ghost use Rattle.std.specs.Prelude.{◌≡◌, ◌++◌, ◌<◌, ◌≤◌, [], ◌∷◌, false, length, slice_get, Some};
ghost use Rattle.std.specs.Prelude.{IfErr, IfSome, OnOk};
ghost use Rattle.mc_topology.specs.Answer.{out_of_memory};
ghost use Rattle.mc_topology.specs.Lans.{has_lan};
ghost use Rattle.mc_topology.specs.Names.{index_of};

use crate::fault::TopologyFault;
use crate::number::LanNo;
use indexmap::IndexSet;
use std::alloc::Global;
use std::marker::Model;

/// The greatest number of LANs.
pub(crate) const MAX_LANS: usize = 1024;

/// The names of the LANs, in the order of the topology.
#[derive(Debug, Drop)]
pub(crate) struct Lans {
    names: IndexSet<String>,
}

impl Model for Lans {
    ghost use Rattle.std.specs.Prelude.{List, ℕ, map, string_bytes};

    ghost Value = { List (List ℕ) };

    ghost view = { λ a. map string_bytes a.names.keys };
}

impl Lans {
    /// No LANs.
    pub(crate) fn new(alloc: Global) -> Lans
        ensures { result ≡ [] }
    {
        Lans {
            names: IndexSet::new(alloc),
        }
    }

    /// How many there are.
    pub(crate) fn len(&self) -> usize
        ensures { result ≡ length self.now }
    {
        self.names.len()
    }

    /// Whether a LAN has the name.
    pub(crate) fn has(&self, name: &str) -> bool
        ensures { result ≡ has_lan name.now self.now }
    {
        self.names.contains(name)
    }

    /// The number of the LAN with the name.
    pub(crate) fn number_of(&self, name: &str) -> Option<LanNo>
        requires bounded { length self.now ≤ MAX_LANS }
        ensures number { result ≡ index_of name.now self.now }
        ensures listed { IfSome result (λ lan. lan < length self.now) }
    {
        let index = self.names.get_index_of(name)?;
        Some(LanNo(index as u32))
    }

    /// The name of the LAN with this number.
    pub(crate) fn name(&self, lan: LanNo) -> &str
        requires known { lan < length self.now }
        ensures item { slice_get self.now lan ≡ Some result.now }
    {
        let name = &self.names.as_slice()[lan.0 as usize];
        name.as_str()
    }

    /// Adds a LAN, whose name no other has.
    pub(crate) fn push(&mut self, alloc: Global, name: &str) -> Result<(), TopologyFault>
        requires absent { has_lan name.now self.old ≡ false }
        ensures added { OnOk result (self.new ≡ self.old ++ name.now ∷ []) }
        ensures fault { IfErr result (λ fault. fault ≡ out_of_memory) }
    {
        self.names.insert(String::from_str(alloc, name)?)?;
        Ok(())
    }
}
