//! Prints a reason and a verdict with the names of a topology.

ghost use Rattle.std.specs.Prelude.{◌≡◌, Some};
ghost use Rattle.mc_check.specs.ReasonText.{reason_text, verdict_text};

use crate::verdict::{Reason, Verdict};
use mc_topology::{Topology, WordAtLan, WordAtVif};
use std::fmt;

/// A reason that prints with the names of a topology, as `Extra r3 1 l2`.
#[derive(Clone, Copy, Drop)]
pub struct ShownReason<'t> {
    /// The reason.
    pub reason: Reason,
    /// The topology whose names are printed.
    pub topology: &'t Topology,
}

impl<'t> fmt::Display for ShownReason<'t> {
    ghost output = { λ shown. Some (reason_text shown.topology.now shown.reason) };

    fn fmt<W: fmt::Write>(&self, f: &mut fmt::Formatter<W>) -> fmt::Result {
        let topology = self.topology;
        match self.reason {
            Reason::TwoEntries(lan) => WordAtLan::new("TwoEntries", topology, lan).fmt(f),
            Reason::BadSource => f.write_str("BadSource"),
            Reason::Wildcard(router, vif) => WordAtVif::new("Wildcard", topology, router, vif).fmt(
                f,
            ),
            Reason::Stray(router, vif) => WordAtVif::new("Stray", topology, router, vif).fmt(f),
            Reason::Extra(router, vif, lan) => {
                let place = WordAtVif::new("Extra", topology, router, vif);
                write!(f, "{place} {}", topology.lan_name_or_empty(lan))
            }
            Reason::WrongRank(lan) => WordAtLan::new("WrongRank", topology, lan).fmt(f),
            Reason::WrongNeed(lan) => WordAtLan::new("WrongNeed", topology, lan).fmt(f),
            Reason::Unfed(lan) => WordAtLan::new("Unfed", topology, lan).fmt(f),
            Reason::Missed(lan) => WordAtLan::new("Missed", topology, lan).fmt(f),
            Reason::Low(lan) => WordAtLan::new("Low", topology, lan).fmt(f),
        }
    }
}

/// A verdict that prints with the names of a topology, as `yes copies 3` or `no Low l2`.
#[derive(Clone, Copy, Drop)]
pub struct ShownVerdict<'t> {
    /// The verdict.
    pub verdict: Verdict,
    /// The topology whose names are printed.
    pub topology: &'t Topology,
}

impl<'t> fmt::Display for ShownVerdict<'t> {
    ghost output = { λ shown. Some (verdict_text shown.topology.now shown.verdict) };

    fn fmt<W: fmt::Write>(&self, f: &mut fmt::Formatter<W>) -> fmt::Result {
        match self.verdict {
            Verdict::Yes { copies } => write!(f, "yes copies {copies}"),
            Verdict::No(reason) => write!(f, "no {}", reason.shown(self.topology)),
        }
    }
}

impl Reason {
    /// The reason, to be printed with the names of a topology.
    pub fn shown(self, topology: &Topology) -> ShownReason<'_>
        ensures reason { result.reason ≡ self }
        ensures topology { result.topology.now ≡ topology.now }
    {
        ShownReason {
            reason: self,
            topology,
        }
    }
}

impl Verdict {
    /// The verdict, to be printed with the names of a topology.
    pub fn shown(self, topology: &Topology) -> ShownVerdict<'_>
        ensures verdict { result.verdict ≡ self }
        ensures topology { result.topology.now ≡ topology.now }
    {
        ShownVerdict {
            verdict: self,
            topology,
        }
    }
}
