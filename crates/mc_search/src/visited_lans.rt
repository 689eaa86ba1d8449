//! The LANs that a search visits.

ghost use Rattle.std.specs.Prelude.{◌≡◌, ◌<◌, ◌∷◌, [], All, IfOk, IfSome, OnOk, length, slice_get};
ghost use Rattle.mc_search.specs.LanProbe.{IsVisitedLans};
ghost use Rattle.mc_search.specs.SearchLine.{append_new};

use mc_forward::PerLan;
use mc_text::Memory;
use mc_topology::LanNo;
use std::alloc::Global;

/// The visited LANs, each once, in order.
#[derive(Drop)]
pub(crate) struct VisitedLans {
    lans: Vec<LanNo>,
    /// Which of all LANs are among them.
    marks: PerLan<LanNo>,
}

impl VisitedLans {
    ghost use Rattle.std.specs.Prelude.{ℕ};

    /// The missed LAN alone, of `lans` LANs.
    pub(crate) fn new(alloc: Global, lans: u32, missed: LanNo) -> Result<VisitedLans, Memory>
        requires known { missed < lans }
        ensures lans { IfOk result (λ visited_lans. visited_lans.lans.items ≡ missed ∷ []) }
        ensures visited_lans { IfOk result (IsVisitedLans lans) }
    {
        let mut visited_lans = VisitedLans {
            lans: Vec::new(alloc),
            marks: PerLan::new(alloc, lans)?,
        };
        visited_lans.add(missed)?;
        Ok(visited_lans)
    }

    /// The LAN at a position, from 0.
    pub(crate) fn at(&self, position: u32) -> Option<LanNo>
        ensures lan { result ≡ slice_get self.now.lans.items position }
        ensures listed { (lans : ℕ) → IsVisitedLans lans self.now → IfSome result (λ lan. lan < lans) }
    {
        let position = position as usize;
        if position < self.lans.len() {
            Some(self.lans[position])
        } else {
            None
        }
    }

    /// The visited LANs, in order.
    pub(crate) fn lans(&self) -> &[LanNo]
        ensures lans { result.now ≡ self.now.lans.items }
        ensures listed { (lans : ℕ) → IsVisitedLans lans self.now → All (λ lan. lan < lans) result.now }
    {
        &self.lans
    }

    /// Adds a LAN, unless it was visited already.
    pub(crate) fn add(&mut self, lan: LanNo) -> Result<(), Memory>
        requires lan { lan < length self.old.marks }
        requires visited_lans { IsVisitedLans (length self.old.marks) self.old }
        ensures lans { OnOk result (self.new.lans.items ≡ append_new self.old.lans.items (lan ∷ [])) }
        ensures visited_lans { OnOk result (IsVisitedLans (length self.old.marks) self.new) }
    {
        if self.marks.put_first(lan, lan) {
            self.lans.push(lan)?;
        }
        Ok(())
    }
}
