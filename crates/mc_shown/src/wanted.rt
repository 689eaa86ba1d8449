//! The LANs that want a flow, and those of them that its packet missed.

mod wanted_text;

ghost use Rattle.std.specs.Prelude.{◌≡◌, ℕ, ◌<◌, ◌≤◌, ◌||◌, All, IfOk, List, false, is_some};
ghost use Rattle.std.specs.Prelude.{length, slice_index_or};
ghost use Rattle.mc_forward.specs.ListedTables.{facts};
ghost use Rattle.mc_theory.specs.Flights.{Copy};
ghost use Rattle.mc_theory.specs.Findings.{first_copy_on};
ghost use Rattle.mc_shown.specs.WantedText.{AreMarksOfCopies, also_missed, is_also_missed};
ghost use Rattle.mc_shown.specs.WantedText.{lans_wanting, missed_besides};

use mc_forward::{CarriedCopy, Flight, FlowView};
use mc_replay::Finding;
use mc_topology::LanNo;
use std::alloc::{AllocError, Global};
pub use wanted_text::{push_also_missed, push_wanted};

/// The greatest number of LANs of a topology.
const MAX_LANS: usize = 1024;

/// The LANs that want a flow, in the topology's order.
///
/// # Errors
///
/// `AllocError` if an allocation fails.
pub fn lans_wanting(alloc: Global, view: &FlowView<'_>) -> Result<Vec<LanNo>, AllocError>
    ensures { IfOk result (λ lans. lans.items ≡ lans_wanting (facts view.now.domain) view.now.flow) }
{
    let mut lans = Vec::new(alloc);
    for number in 0..view.lans() {
        let lan = LanNo(number);
        if view.wants(lan) {
            lans.push(lan)?;
        }
    }
    Ok(lans)
}

/// Marks the LANs that these copies are on.
fn mark_lans(marks: &mut [bool], copies: &[CarriedCopy])
    requires within { All (λ copy. copy.lan < length marks.old) copies.now }
    ensures count { length marks.new ≡ length marks.old }
    ensures marks { (lan : ℕ) → slice_index_or marks.new lan false
        ≡ (slice_index_or marks.old lan false || is_some (first_copy_on copies.now lan)) }
{
    for copy in copies {
        marks[copy.lan.0 as usize] = true;
    }
}

/// Whether a LAN other than `missed` wants the flow and isn't marked.
fn is_wanted_and_unmarked(view: &FlowView<'_>, marks: &[bool], missed: LanNo, lan: LanNo) -> bool
    requires listed { lan < length view.now.domain.topology.lans }
    requires marked { lan < length marks.now }
    ensures marked { (copies : List Copy) → AreMarksOfCopies marks.now copies →
        result ≡ is_also_missed (facts view.now.domain) view.now.flow copies missed lan }
{
    view.wants(lan) && !marks[lan.0 as usize] && lan != missed
}

/// The LANs other than `missed` that want the flow and aren't marked.
fn unmarked_lans(
    alloc: Global,
    view: &FlowView<'_>,
    marks: &[bool],
    missed: LanNo,
) -> Result<Vec<LanNo>, AllocError>
    requires within { length view.now.domain.topology.lans ≤ length marks.now }
    ensures marked { (copies : List Copy) → AreMarksOfCopies marks.now copies →
        IfOk result (λ lans. lans.items ≡ also_missed (facts view.now.domain) view.now.flow copies missed) }
{
    let mut lans = Vec::new(alloc);
    for number in 0..view.lans() {
        let lan = LanNo(number);
        if is_wanted_and_unmarked(view, marks, missed, lan) {
            lans.push(lan)?;
        }
    }
    Ok(lans)
}

/// The LANs other than `missed` that want the flow and carried no copy in a flight.
fn also_missed(alloc: Global, flight: &Flight<'_>, missed: LanNo) -> Result<Vec<LanNo>, AllocError>
    ensures { IfOk result (λ lans. lans.items ≡ also_missed (facts flight.now.domain) flight.now.flow
        flight.now.flight.carried missed) }
{
    let view = flight.flow_view();
    // This brings the topology's rules into the proof: its limits follow from them.
    let _rules = view.topology();
    let mut marks = [false; MAX_LANS];
    mark_lans(&mut marks, flight.copies());
    unmarked_lans(alloc, view, &marks, missed)
}

/// The LANs that a flight missed besides the one of its finding, in the topology's order: those that want
/// the flow and carried no copy. There are none where the finding is no missed LAN.
///
/// # Errors
///
/// `AllocError` if an allocation fails.
pub fn missed_besides(
    alloc: Global,
    flight: &Flight<'_>,
    finding: Finding,
) -> Result<Vec<LanNo>, AllocError>
    ensures { IfOk result (λ lans. lans.items ≡ missed_besides (facts flight.now.domain)
        flight.now.flow flight.now.flight.carried finding) }
{
    match finding {
        Finding::Missed(lan) => also_missed(alloc, flight, lan),
        Finding::Clean | Finding::Duplicate(_) | Finding::Loop(_) | Finding::Stray(_, _) => {
            Ok(Vec::new(alloc))
        }
    }
}
