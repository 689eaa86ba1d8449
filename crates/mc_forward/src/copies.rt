//! All copies of one packet so far, and how one handling changes them.

ghost use Rattle.std.specs.Prelude.{◌≡◌, ◌-◌, ◌<◌, ◌≤◌, ◌++◌, ◌∷◌, [], Some, length, map, take};
ghost use Rattle.std.specs.Prelude.{remove, is_some, IfOk, OnOk, OnErr, slice_get};
ghost use Rattle.std.specs.Prelude.{option_map};
ghost use Rattle.mc_theory.specs.Flights.{hearers, waits_at, put, leave, sends, handle};
ghost use Rattle.mc_theory.specs.Flights.{step, without_waiting};
ghost use Rattle.mc_theory.specs.Events.{event_of, outcome_by_row, outcome_of_sending};
ghost use Rattle.mc_forward.specs.Domains.{oif_pairs};
ghost use Rattle.mc_forward.specs.FlightsInDomain.{net_in, Extends};
ghost use Rattle.mc_forward.specs.OutcomeValues.{outcome_value};

use crate::copy::{CarriedCopy, Stray, WaitingCopy};
use crate::event::{Event, Outcome};
use crate::flow_view::FlowView;
use crate::flow_with_rows::FlowWithRows;
use crate::row::RowFor;
use mc_tables::Oif;
use mc_text::Memory;
use mc_topology::RouterNo;
use std::alloc::Global;
use std::collections::VecDeque;
use std::marker::Model;

/// The copies that LANs carried, those that wait, and the strays, each in the order in which they
/// came.
#[derive(Drop)]
pub(crate) struct Copies {
    carried: Vec<CarriedCopy>,
    waiting: VecDeque<WaitingCopy>,
    strays: Vec<Stray>,
}

impl Model for Copies {
    ghost use Rattle.mc_theory.specs.Flights.{Flight};
    ghost use Rattle.mc_forward.specs.FlightsInDomain.{flight_of, flight_code};

    ghost Value = { Flight };

    ghost coded = { flight_code };

    ghost view = { λ c. flight_of c.carried.items c.waiting.items c.strays.items };
}

/// Lets a copy that its LAN carries wait at the LAN's interfaces other than its sender.
#[inline(always)]
fn wait_at_hearers(
    waiting: &mut VecDeque<WaitingCopy>,
    view: &FlowView<'_>,
    copy: &CarriedCopy,
) -> Result<(), Memory>
    requires listed_lan { copy.now.lan < length view.now.domain.topology.lans }
    ensures ok { OnOk result (waiting.new.items ≡
        waiting.old.items ++ map (waits_at copy.now.ttl) (hearers (net_in view.now) copy.now)) }
    ensures kept { take (length waiting.old.items) waiting.new.items ≡ waiting.old.items }
{
    for interface in view.interfaces(copy.lan) {
        let (router, vif) = interface;
        if !copy.is_sent_by(router, vif) {
            waiting.push_back(WaitingCopy {
                router,
                vif,
                ttl: copy.ttl,
            })?;
        }
    }
    Ok(())
}

/// Removes the copy with this index. The others keep their order; those before it are moved, or those
/// after it, whichever are fewer.
fn remove_waiting(waiting: &mut VecDeque<WaitingCopy>, index: usize)
    requires waits { index < length waiting.old.items }
    ensures removed { waiting.new.items ≡ remove waiting.old.items index }
{
    let _taken = if index == 0 {
        waiting.pop_front()
    } else {
        waiting.remove(index)
    };
}

impl Copies {
    /// No copy yet, with room for one on each of so many LANs and for a waiting one at each of so many
    /// routers. Few packets of a right flow need more.
    pub(crate) fn new(alloc: Global, lans: u32, routers: u32) -> Result<Copies, Memory>
        ensures { IfOk result (λ copies.
            copies ≡ record { carried = []; waiting = []; strays = [] }) }
    {
        Ok(Copies {
            carried: Vec::with_capacity(alloc, lans as usize)?,
            waiting: VecDeque::with_capacity(alloc, routers as usize)?,
            strays: Vec::new(alloc),
        })
    }

    pub(crate) fn carried(&self) -> &[CarriedCopy]
        ensures { result.now ≡ self.now.carried }
    {
        &self.carried
    }

    pub(crate) fn waiting(&self) -> usize
        ensures { result ≡ length self.now.waiting }
    {
        self.waiting.len()
    }

    pub(crate) fn strays(&self) -> &[Stray]
        ensures { result.now ≡ self.now.strays }
    {
        &self.strays
    }

    /// Puts a copy on its LAN.
    #[inline(always)]
    pub(crate) fn put(&mut self, view: &FlowView<'_>, copy: &CarriedCopy) -> Result<(), Memory>
        requires listed_lan { copy.now.lan < length view.now.domain.topology.lans }
        ensures ok { OnOk result (self.new ≡ put (net_in view.now) copy.now self.old) }
        ensures kept { Extends self.old self.new }
    {
        self.carried.push(*copy)?;
        wait_at_hearers(&mut self.waiting, view, copy)
    }

    /// Sends the taken copy on by a vif of its router, with one less to live. Whether that puts it on a
    /// LAN.
    #[inline(always)]
    fn send(&mut self, view: &FlowView<'_>, taken: &WaitingCopy, vif: u8) -> Result<bool, Memory>
        requires positive { 0 < taken.now.ttl }
        ensures ok { OnOk result (self.new ≡ leave (net_in view.now) (taken.now.ttl - 1)
            (taken.now.router, vif) ((net_in view.now).placed taken.now.router vif) self.old) }
        ensures onto { IfOk result (λ onto.
            onto ≡ is_some ((net_in view.now).placed taken.now.router vif)) }
        ensures kept { Extends self.old self.new }
    {
        let router = taken.router;
        match view.placed(router, vif) {
            Some(lan) => {
                let copy = CarriedCopy {
                    lan,
                    ttl: taken.ttl - 1,
                    sender: Some((router, vif)),
                };
                self.put(view, &copy)?;
                Ok(true)
            }
            None => {
                self.strays.push(Stray { router, vif })?;
                Ok(false)
            }
        }
    }

    /// Sends the taken copy on by each outgoing vif whose threshold its time to live exceeds.
    #[inline(always)]
    fn send_all(
        &mut self,
        view: &FlowView<'_>,
        taken: &WaitingCopy,
        oifs: &[Oif],
    ) -> Result<Outcome, Memory>
        requires at_most_32 { length oifs.now ≤ 32 }
        ensures ok { OnOk result (self.new ≡
            sends (net_in view.now) taken.now.router taken.now.ttl (oif_pairs oifs.now) self.old) }
        ensures outcome { IfOk result (λ outcome. outcome_value outcome ≡ outcome_of_sending
            (net_in view.now) taken.now.router taken.now.ttl (oif_pairs oifs.now)) }
        ensures kept { Extends self.old self.new }
    {
        let mut copies = 0;
        let mut strays = 0;
        for oif in oifs {
            if taken.ttl > oif.threshold {
                if self.send(view, taken, oif.vif)? {
                    copies += 1;
                } else {
                    strays += 1;
                }
            }
        }
        Ok(Outcome::Sent { copies, strays })
    }

    /// Does what the router does with a copy that waits at its vif. The copy still waits afterwards.
    #[inline(always)]
    fn forward(&mut self, flow: &FlowWithRows<'_>, taken: &WaitingCopy) -> Result<Outcome, Memory>
        ensures ok { OnOk result (self.new ≡ handle (net_in flow.now) (Some taken.now) self.old) }
        ensures outcome { IfOk result (λ outcome. outcome_value outcome ≡
            outcome_by_row (net_in flow.now) taken.now ((net_in flow.now).row taken.now.router)) }
        ensures kept { Extends self.old self.new }
    {
        match flow.row(taken.router) {
            RowFor::Exact(entry) => {
                if entry.iif == taken.vif {
                    self.send_all(flow.view(), taken, entry.oifs)
                } else {
                    Ok(Outcome::OtherVif)
                }
            }
            RowFor::Open => {
                self.strays.push(Stray {
                    router: taken.router,
                    vif: taken.vif,
                })?;
                Ok(Outcome::Open)
            }
            RowFor::NoRow => Ok(Outcome::NoRow),
        }
    }

    /// Handles and removes the waiting copy with this index. All growth comes first, so that nothing is
    /// changed where memory runs out.
    #[inline(always)]
    pub(crate) fn handle(&mut self, flow: &FlowWithRows<'_>, index: usize) -> Result<Event, Memory>
        requires waits { index < length self.old.waiting }
        ensures ok { OnOk result (self.new ≡ step (net_in flow.now) index self.old) }
        ensures event { IfOk result (λ event.
            option_map (event_of (net_in flow.now)) (slice_get self.old.waiting index)
            ≡ Some event) }
        ensures err { OnErr result (self.new ≡ self.old) }
    {
        let carried = self.carried.len();
        let waiting = self.waiting.len();
        let strays = self.strays.len();
        let taken = self.waiting[index];
        match self.forward(flow, &taken) {
            Ok(outcome) => {
                remove_waiting(&mut self.waiting, index);
                Ok(Event {
                    router: taken.router,
                    vif: taken.vif,
                    ttl: taken.ttl,
                    outcome,
                })
            }
            Err(Memory) => {
                self.carried.truncate(carried);
                self.waiting.truncate(waiting);
                self.strays.truncate(strays);
                Err(Memory)
            }
        }
    }

    /// Removes the waiting copy with this index.
    pub(crate) fn lose(&mut self, lost: usize)
        requires waits { lost < length self.old.waiting }
        ensures removed { self.new ≡ without_waiting lost self.old }
    {
        remove_waiting(&mut self.waiting, lost);
    }
}
