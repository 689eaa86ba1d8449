//! Why a LAN behind a stray carries a second copy, and from which TTL on packets show it.

ghost use Rattle.std.specs.Prelude.{◌≡◌, ◌≤◌, ◌==◌, ◌++◌, [], IfOk, None, Some, if◌then◌else◌};
ghost use Rattle.mc_theory.specs.Findings.{first_double, sender_on as sender_of_first};
ghost use Rattle.mc_forward.specs.FlightsInDomain.{net_in};
ghost use Rattle.mc_forward.specs.PerLan.{HoldsFirstOfEachKey};
ghost use Rattle.mc_replay.specs.FindingValues.{finding_value, optional_finding_value};
ghost use Rattle.mc_replay.specs.PastStrays.{finding_of_double};
ghost use Rattle.mc_explain.specs.Behind.{double_causes, second_causes};
ghost use Rattle.mc_explain.specs.Explained.{sender_causes};
ghost use Rattle.mc_explain.specs.ShownNeed.{need_of_two_copies as least_of_two_copies};

use crate::causes::Cause;
use crate::causes::explained::{add_sender, circle_causes};
use crate::causes::path::hops_around;
use crate::causes::shown_need::need_of_two_copies;
use mc_forward::{CarriedCopy, FlowView, sender_on};
use mc_replay::Finding;
use mc_search::FirstCopies;
use mc_text::Memory;
use mc_topology::LanNo;
use std::alloc::Global;

/// The senders of the first copy on a LAN and of its second.
fn senders_of_two(
    alloc: Global,
    copies: &[CarriedCopy],
    first_copies: &FirstCopies,
    second: &CarriedCopy,
) -> Result<Vec<Cause>, Memory>
    requires first_copies { HoldsFirstOfEachKey (λ copy. copy.lan) first_copies.now.by_lan copies.now }
    ensures { IfOk result (λ causes. causes.items
        ≡ sender_causes second.now.lan (sender_of_first copies.now second.now.lan)
        ++ sender_causes second.now.lan second.now.sender) }
{
    let lan = second.lan;
    let mut causes = Vec::new(alloc);
    add_sender(&mut causes, lan, sender_on(&first_copies.by_lan, lan))?;
    add_sender(&mut causes, lan, second.sender)?;
    Ok(causes)
}

/// Why a LAN carries a second copy, without a remedy, by what that shows.
fn double_causes(
    alloc: Global,
    view: &FlowView<'_>,
    copies: &[CarriedCopy],
    first_copies: &FirstCopies,
    second: &CarriedCopy,
    finding: Finding,
) -> Result<Vec<Cause>, Memory>
    requires first_copies { HoldsFirstOfEachKey (λ copy. copy.lan) first_copies.now.by_lan copies.now }
    ensures { IfOk result (λ causes. causes.items
        ≡ double_causes (net_in view.now) copies.now second.now (finding_value finding)) }
{
    match finding {
        Finding::Duplicate(_) => senders_of_two(alloc, copies, first_copies, second),
        Finding::Loop(_) => {
            let circle = hops_around(alloc, view, copies, first_copies, second)?;
            circle_causes(alloc, &circle)
        }
        Finding::Clean | Finding::Stray(_, _) | Finding::Missed(_) => Ok(Vec::new(alloc)),
    }
}

/// Why a LAN carries a second copy, by what that shows, which is known.
pub(crate) fn second_causes(
    alloc: Global,
    view: &FlowView<'_>,
    copies: &[CarriedCopy],
    first_copies: &FirstCopies,
    second: &CarriedCopy,
    finding: &Option<Finding>,
) -> Result<Vec<Cause>, Memory>
    requires first_copies { HoldsFirstOfEachKey (λ copy. copy.lan) first_copies.now.by_lan copies.now }
    requires finding { optional_finding_value finding.now
        ≡ Some (finding_of_double (net_in view.now) copies.now second.now) }
    ensures { IfOk result (λ causes. causes.items ≡ second_causes (net_in view.now) copies.now
        (Some second.now)) }
{
    match finding {
        Some(finding) => double_causes(alloc, view, copies, first_copies, second, *finding),
        None => Ok(Vec::new(alloc)),
    }
}

/// The TTL from which on packets show a LAN's second copy. None is given where the flow's own TTL is 255.
pub(crate) fn second_shown_from(
    alloc: Global,
    view: &FlowView<'_>,
    copies: &[CarriedCopy],
    first_copies: &FirstCopies,
    lan: LanNo,
) -> Result<Option<u8>, Memory>
    requires first_copies { HoldsFirstOfEachKey (λ copy. copy.lan) first_copies.now.by_lan copies.now }
    requires second { first_copies.now.second ≡ first_double [] copies.now }
    requires bounded { least_of_two_copies (net_in view.now) copies.now lan ≤ 255 }
    ensures { IfOk result (λ shown. shown ≡ (if (net_in view.now).ttl == 255 then None
        else Some (least_of_two_copies (net_in view.now) copies.now lan))) }
{
    if view.ttl() == 255 {
        return Ok(None);
    }
    let least = need_of_two_copies(alloc, view, copies, first_copies, lan)?;
    Ok(Some(least))
}
