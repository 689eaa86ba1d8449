//! The first copy on each LAN, and the first duplicate.

ghost use Rattle.std.specs.Prelude.{◌≡◌, ◌<◌, All, IfOk, [], length};
ghost use Rattle.mc_theory.specs.Findings.{first_double};
ghost use Rattle.mc_forward.specs.PerLan.{HoldsFirstOfEachKey, item_on_lan};

use mc_forward::{CarriedCopy, FlowView, PerLan, record_first_copies};
use mc_text::Memory;
use mc_topology::LanNo;
use std::alloc::Global;

/// The first copy on each LAN, and the first copy that has an earlier one on its LAN.
#[derive(Drop)]
pub struct FirstCopies {
    pub by_lan: PerLan<CarriedCopy>,
    pub second: Option<CarriedCopy>,
}

impl FirstCopies {
    /// The first copy on each LAN, and the first duplicate, among these copies.
    ///
    /// # Errors
    ///
    /// `Memory` if an allocation fails.
    pub fn new(
        alloc: Global,
        view: &FlowView<'_>,
        copies: &[CarriedCopy],
    ) -> Result<FirstCopies, Memory>
        requires within { All (λ copy. copy.lan < length view.now.domain.topology.lans) copies.now }
        ensures first_copies { IfOk result (λ first_copies.
            HoldsFirstOfEachKey (λ copy. copy.lan) first_copies.by_lan copies.now) }
        ensures second { IfOk result (λ first_copies. first_copies.second ≡ first_double [] copies.now) }
    {
        let mut by_lan = PerLan::new(alloc, view.lans())?;
        let second = record_first_copies(&mut by_lan, copies, 0);
        Ok(FirstCopies { by_lan, second })
    }

    /// The first copy on a LAN.
    pub fn on(&self, lan: LanNo) -> Option<CarriedCopy>
        ensures { result ≡ item_on_lan self.now.by_lan lan }
    {
        self.by_lan.on(lan)
    }
}
