//! Prints an event and a finding with the names of a topology.

ghost use Rattle.std.specs.Prelude.{◌≡◌, Some};
ghost use Rattle.mc_replay.specs.TravelText.{event_text, finding_text, outcome_text};

use crate::finding::Finding;
use mc_forward::{Event, Outcome};
use mc_topology::{Topology, WordAtLan, WordAtVif};
use std::fmt;

/// An outcome that prints as `sent 1 strayed 0`.
#[derive(Clone, Copy, Drop)]
struct ShownOutcome {
    outcome: Outcome,
}

impl fmt::Display for ShownOutcome {
    ghost use Rattle.mc_forward.specs.OutcomeValues.{outcome_value};

    ghost output = { λ shown. Some (outcome_text (outcome_value shown.outcome)) };

    fn fmt<W: fmt::Write>(&self, f: &mut fmt::Formatter<W>) -> fmt::Result {
        match self.outcome {
            Outcome::Open => f.write_str("open"),
            Outcome::NoRow => f.write_str("no row"),
            Outcome::OtherVif => f.write_str("other vif"),
            Outcome::Sent { copies, strays } => write!(f, "sent {copies} strayed {strays}"),
        }
    }
}

/// An event that prints with the names of a topology, as `r1 0 ttl 3 sent 1 strayed 0`.
#[derive(Clone, Copy, Drop)]
pub struct ShownEvent<'t> {
    /// The event.
    pub event: Event,
    /// The topology whose names are printed.
    pub topology: &'t Topology,
}

impl<'t> fmt::Display for ShownEvent<'t> {
    ghost output = { λ shown. Some (event_text shown.topology.now shown.event) };

    fn fmt<W: fmt::Write>(&self, f: &mut fmt::Formatter<W>) -> fmt::Result {
        let router = self.topology.router_name_or_empty(self.event.router);
        let Event { vif, ttl, .. } = self.event;
        let outcome = ShownOutcome {
            outcome: self.event.outcome,
        };
        write!(f, "{router} {vif} ttl {ttl} {outcome}")
    }
}

/// An event, to be printed with the names of a topology.
pub fn shown_event(event: Event, topology: &Topology) -> ShownEvent<'_>
    ensures event { result.event ≡ event }
    ensures topology { result.topology.now ≡ topology.now }
{
    ShownEvent { event, topology }
}

/// A finding that prints with the names of a topology, as `Missed l2`.
#[derive(Clone, Copy, Drop)]
pub struct ShownFinding<'t> {
    /// The finding.
    pub finding: Finding,
    /// The topology whose names are printed.
    pub topology: &'t Topology,
}

impl<'t> fmt::Display for ShownFinding<'t> {
    ghost output = { λ shown. Some (finding_text shown.topology.now shown.finding) };

    fn fmt<W: fmt::Write>(&self, f: &mut fmt::Formatter<W>) -> fmt::Result {
        let topology = self.topology;
        match self.finding {
            Finding::Clean => f.write_str("Clean"),
            Finding::Duplicate(lan) => WordAtLan::new("Duplicate", topology, lan).fmt(f),
            Finding::Loop(lan) => WordAtLan::new("Loop", topology, lan).fmt(f),
            Finding::Stray(router, vif) => WordAtVif::new("Stray", topology, router, vif).fmt(f),
            Finding::Missed(lan) => WordAtLan::new("Missed", topology, lan).fmt(f),
        }
    }
}

impl Finding {
    /// The finding, to be printed with the names of a topology.
    pub fn shown(self, topology: &Topology) -> ShownFinding<'_>
        ensures finding { result.finding ≡ self }
        ensures topology { result.topology.now ≡ topology.now }
    {
        ShownFinding {
            finding: self,
            topology,
        }
    }
}
