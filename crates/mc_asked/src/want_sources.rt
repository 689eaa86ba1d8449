//! A want and the sources that the filter of none of its LANs admits, found LAN by LAN.

ghost use Rattle.std.specs.Prelude.{◌≡◌, IfOk, OnOk, false, filter};
ghost use Rattle.std.specs.List.Sorted.{IsStrictlyIncreasing};
ghost use Rattle.mc_filter.specs.SourceFilter.{has};
ghost use Rattle.mc_asked.specs.WantSources.{as_asked, with_lan, without_sources};

use crate::unadmitted::has_address;
use crate::want_states::AskedWant;
use mc_text::Addr;
use std::alloc::{AllocError, Global};
use std::marker::Model;

/// A want, and the sources that the filter of none of its LANs so far admits.
#[derive(Debug, Drop)]
pub struct WantSources {
    want: (Addr, Addr),
    // whether one of its LANs is among those so far
    is_begun: bool,
    // ascending
    unadmitted: Vec<Addr>,
}

impl Model for WantSources {
    ghost use Rattle.std.specs.List.Sorted.{IsStrictlyIncreasing};
    ghost use Rattle.mc_asked.specs.WantSources.{WantSourcesValue};

    ghost Value = { WantSourcesValue };

    ghost view = { λ s. record {
      want = s.want;
      is_begun = s.is_begun;
      unadmitted = s.unadmitted.items;
    } };

    ghost invariant = { λ s. IsStrictlyIncreasing s.unadmitted.items };
}

/// Of these addresses those that are among some ascending ones.
fn common(alloc: Global, ascending: &[Addr], addresses: &[Addr]) -> Result<Vec<Addr>, AllocError>
    requires ascending { IsStrictlyIncreasing ascending.now }
    ensures { IfOk result (λ kept. kept.items ≡ filter (has ascending.now) addresses.now) }
{
    let mut kept = Vec::new(alloc);
    for address in addresses {
        if has_address(ascending, *address) {
            kept.push(*address)?;
        }
    }
    Ok(kept)
}

impl WantSources {
    /// Before the first LAN.
    pub(crate) fn new(alloc: Global, want: (Addr, Addr)) -> WantSources
        ensures { result ≡ without_sources want }
    {
        WantSources {
            want,
            is_begun: false,
            unadmitted: Vec::new(alloc),
        }
    }

    /// Takes the ascending sources that one more LAN doesn't admit.
    pub(crate) fn add_lan(&mut self, alloc: Global, own: Vec<Addr>) -> Result<(), AllocError>
        requires ascending { IsStrictlyIncreasing own.items }
        ensures same { self.new.want ≡ self.old.want }
        ensures added { OnOk result (self.new ≡ with_lan own.items self.old) }
    {
        if self.is_begun {
            self.unadmitted = common(alloc, &self.unadmitted, &own)?;
        } else {
            self.is_begun = true;
            self.unadmitted = own;
        }
        Ok(())
    }

    /// The want with the sources.
    pub(crate) fn into_asked(self) -> AskedWant
        ensures { result ≡ as_asked self }
    {
        let WantSources {
            want,
            unadmitted,
            ..
        } = self;
        AskedWant::new(want, unadmitted)
    }
}
