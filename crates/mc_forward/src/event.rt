//! The event of a router's handling of a copy.

use mc_topology::RouterNo;
use std::marker::Model;

/// What became of a copy that a router handled.
#[derive(Clone, Copy, Debug, PartialEq, Eq)]
pub enum Outcome {
    /// The router has a row for every source, which is not followed.
    Open,
    /// The router has no row.
    NoRow,
    /// The router's row takes copies from another vif.
    OtherVif,
    /// The router sent copies.
    Sent {
        /// How many it put on LANs, 0 to 32.
        copies: u32,
        /// How many it sent to vifs that are placed on no LAN, 0 to 32.
        strays: u32,
    },
}

/// A router's handling of a copy that waited at one of its vifs.
#[derive(Clone, Copy, Debug, PartialEq, Eq)]
pub struct Event {
    /// The router.
    pub router: RouterNo,
    /// Its vif at which the copy waited, 0 to 31.
    pub vif: u8,
    /// The time to live with which the copy came.
    pub ttl: u8,
    /// What became of it.
    pub outcome: Outcome,
}

impl Model for Event {
    ghost use Rattle.std.proofs.Common.{ap};
    ghost use Rattle.mc_theory.specs.Events as events;
    ghost use Rattle.mc_forward.specs.OutcomeValues.{outcome_value, outcome_of_value};
    ghost use Rattle.mc_forward.specs.OutcomeValues.{outcome_of_value-outcome_value};

    ghost Value = { events.Event };

    ghost view = { λ e.
        record { router = e.router; vif = e.vif; ttl = e.ttl; outcome = outcome_value e.outcome } };

    ghost inverse = { λ e. record {
      router = e.router;
      vif = e.vif;
      ttl = e.ttl;
      outcome = outcome_of_value e.outcome;
    } };

    ghost inverse_ok = { λ e h.
        ap (λ o. record { router = e.router; vif = e.vif; ttl = e.ttl; outcome = o })
        (outcome_of_value-outcome_value e.outcome) };
}
