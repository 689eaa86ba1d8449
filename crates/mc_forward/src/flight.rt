//! The flight of one packet: its copies from the source's on, one handling or loss after another.

ghost use Rattle.std.specs.Prelude.{◌≡◌, ◌<◌, Some, length, min, IfOk, OnOk, OnErr, slice_get};
ghost use Rattle.std.specs.Prelude.{option_map, All, IfSome};
ghost use Rattle.mc_theory.specs.Flights.{copy_count_on, start, step, without_waiting};
ghost use Rattle.mc_theory.specs.Events.{event_of};
ghost use Rattle.mc_forward.specs.Domains.{net_of};
ghost use Rattle.mc_forward.specs.FlightsInDomain.{net_of_flight_in_domain, with_flight};

use crate::copies::Copies;
use crate::copy::{CarriedCopy, Stray};
use crate::domain::Domain;
use crate::event::Event;
use crate::flow_view::FlowView;
use crate::flow_with_rows::FlowWithRows;
use mc_text::Memory;
use mc_topology::LanNo;
use std::alloc::Global;
use std::marker::Model;

/// The copies of one packet of a flow, which routers of the domain handle in whatever order the
/// caller picks. Its value in contracts is the domain, the flow's number and the flight.
#[derive(Drop)]
pub struct Flight<'d> {
    flow: FlowWithRows<'d>,
    copies: Copies,
}

impl<'d> Model for Flight<'d> {
    ghost use Rattle.mc_forward.specs.FlightsInDomain.{FlightInDomain, IsFlight, flight_in_domain_code};

    ghost Value = { FlightInDomain };

    ghost coded = { flight_in_domain_code };

    ghost view = { λ f. record { domain = f.flow.domain; flow = f.flow.flow; flight = f.copies } };

    ghost invariant = { λ f. IsFlight f.flow f.copies };
}

/// How many of the copies a LAN carried, 4,294,967,295 where there are more.
fn count_copies_on(carried: &[CarriedCopy], lan: LanNo) -> u32
    ensures { result ≡ min (copy_count_on carried.now lan) 4294967295 }
{
    let mut count = 0u32;
    for copy in carried {
        if copy.lan == lan {
            count = count.saturating_add(1);
        }
    }
    count
}

impl<'d> Flight<'d> {
    /// The flight in which the LAN of the flow's source carries a packet with this time to live, 1
    /// to 255, and no router has handled a copy.
    ///
    /// # Errors
    ///
    /// `Memory` where a growth was refused.
    pub fn start(
        alloc: Global,
        domain: &'d Domain,
        flow: u32,
        ttl: u8,
    ) -> Result<Flight<'d>, Memory>
        requires listed_flow { flow < length domain.now.topology.flows }
        ensures ok { IfOk result (λ flight. flight ≡ record {
          domain = domain.now;
          flow = flow;
          flight = start (net_of domain.now flow) ttl;
        }) }
    {
        let view = FlowView::new(domain, flow);
        let mut copies = Copies::new(alloc, view.lans(), view.routers())?;
        let first = CarriedCopy {
            lan: view.source(),
            ttl,
            sender: None,
        };
        copies.put(&view, &first)?;
        let flow = FlowWithRows::new(alloc, view)?;
        Ok(Flight { flow, copies })
    }

    /// The flow of the packet.
    pub fn flow_view(&self) -> &FlowView<'d>
        ensures { result.now ≡ record { domain = self.now.domain; flow = self.now.flow } }
    {
        self.flow.view()
    }

    /// The flow of the packet, with each router's row for it.
    pub fn flow_with_rows(&self) -> &FlowWithRows<'d>
        ensures { result.now ≡ record { domain = self.now.domain; flow = self.now.flow } }
    {
        &self.flow
    }

    /// How many copies wait.
    pub fn waiting(&self) -> usize
        ensures { result ≡ length self.now.flight.waiting }
    {
        self.copies.waiting()
    }

    /// How many copies a LAN carried, 4,294,967,295 where it carried more.
    pub fn carried(&self, lan: LanNo) -> u32
        ensures { result ≡ min (copy_count_on self.now.flight.carried lan) 4294967295 }
    {
        count_copies_on(self.copies.carried(), lan)
    }

    /// Where copies left the known domain, in order.
    pub fn strays(&self) -> &[Stray]
        ensures { result.now ≡ self.now.flight.strays }
    {
        self.copies.strays()
    }

    /// The copies that LANs carried, in order. The first is the source's.
    pub fn copies(&self) -> &[CarriedCopy]
        ensures copies { result.now ≡ self.now.flight.carried }
        // Each is on a LAN of the topology, and one of its routers sent it if not the source.
        ensures lans { All (λ copy. copy.lan < length self.now.domain.topology.lans) result.now }
        ensures senders { All (λ copy. IfSome copy.sender (λ interface.
            interface.0 < length self.now.domain.topology.routers)) result.now }
    {
        self.copies.carried()
    }

    /// The router at which the waiting copy with this index waits handles it. The copies that it
    /// sends wait after the others, which keep their order.
    ///
    /// # Errors
    ///
    /// `Memory` where a growth was refused. The flight is then as it was.
    #[inline(always)]
    pub fn handle(&mut self, index: usize) -> Result<Event, Memory>
        requires waits { index < length self.old.flight.waiting }
        ensures ok { OnOk result (self.new ≡
            with_flight self.old (step (net_of_flight_in_domain self.old) index self.old.flight)) }
        ensures event { IfOk result (λ event. option_map (event_of (net_of_flight_in_domain self.old))
            (slice_get self.old.flight.waiting index) ≡ Some event) }
        ensures err { OnErr result (self.new ≡ self.old) }
    {
        self.copies.handle(&self.flow, index)
    }

    /// The waiting copy with this index is lost: no router handles it. Nothing else changes.
    pub fn lose(&mut self, index: usize)
        requires waits { index < length self.old.flight.waiting }
        ensures removed { self.new ≡ with_flight self.old (without_waiting index self.old.flight) }
    {
        self.copies.lose(index);
    }
}
