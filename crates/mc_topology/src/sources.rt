//! The sources of a topology, by address.

ghost use Rattle.std.specs.Prelude.{◌≡◌, ◌++◌, ◌<◌, [], ◌∷◌, false, length, slice_get, Some, IfErr};
ghost use Rattle.std.specs.Prelude.{OnOk};
ghost use Rattle.mc_topology.specs.Answer.{out_of_memory};
ghost use Rattle.mc_topology.specs.Sources.{has_source, lan_of_source};

use crate::fault::TopologyFault;
use crate::number::LanNo;
use crate::source::Source;
use indexmap::IndexMap;
use mc_text::Addr;
use std::alloc::Global;
use std::marker::Model;

/// The greatest number of sources.
pub(crate) const MAX_SOURCES: usize = 4096;

/// The addresses of the hosts that send, each with its LAN, in the order of the topology.
#[derive(Debug, Drop)]
pub(crate) struct Sources {
    lans: IndexMap<Addr, LanNo>,
}

impl Model for Sources {
    ghost use Rattle.std.specs.Prelude.{List, map};
    ghost use Rattle.mc_topology.specs.SectionRows.{SourceRow, source_row};

    ghost Value = { List SourceRow };

    ghost view = { λ a. map source_row a.lans.entries };
}

impl Sources {
    /// No sources.
    pub(crate) fn new(alloc: Global) -> Sources
        ensures { result ≡ [] }
    {
        Sources {
            lans: IndexMap::new(alloc),
        }
    }

    /// How many there are.
    pub(crate) fn len(&self) -> usize
        ensures { result ≡ length self.now }
    {
        self.lans.len()
    }

    /// Whether a source has the address.
    pub(crate) fn has(&self, address: Addr) -> bool
        ensures { result ≡ has_source address self.now }
    {
        self.lans.contains_key(&address)
    }

    /// The LAN of the source with the address.
    pub(crate) fn lan_of(&self, address: Addr) -> Option<LanNo>
        ensures { result ≡ lan_of_source address self.now }
    {
        let lan = self.lans.get(&address)?;
        Some(*lan)
    }

    /// The source with this number.
    pub(crate) fn source(&self, source: u32) -> Source
        requires known { source < length self.now }
        ensures item { slice_get self.now source ≡ Some result }
    {
        let addresses = self.lans.keys();
        Source {
            address: addresses.as_slice()[source as usize],
            lan: self.lans[source as usize],
        }
    }

    /// Adds a source, whose address no other has.
    ///
    /// # Errors
    ///
    /// `Memory`, at `top` 0, if an allocation is refused.
    pub(crate) fn push(&mut self, source: Source) -> Result<(), TopologyFault>
        requires absent { has_source source.address self.old ≡ false }
        ensures added { OnOk result (self.new ≡ self.old ++ source ∷ []) }
        ensures fault { IfErr result (λ fault. fault ≡ out_of_memory) }
    {
        self.lans.insert(source.address, source.lan)?;
        Ok(())
    }
}
