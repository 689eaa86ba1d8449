//! Texts of a word and a place of the topology, by the place's name.

ghost use Rattle.std.specs.Prelude.{◌≡◌, ◌++◌, Some, codes, decimal};
ghost use Rattle.mc_topology.specs.Topology.{lan_name, router_name};

use crate::number::{LanNo, RouterNo};
use crate::topology::Topology;
use std::fmt;

/// A word with the name of a LAN, as `Missed l2`.
#[derive(Clone, Copy, Drop)]
pub struct WordAtLan<'t> {
    /// The word.
    pub word: &'t str,
    /// The name of the LAN.
    pub lan: &'t str,
}

impl<'t> WordAtLan<'t> {
    /// The word with the name of this LAN; empty where the topology has no such LAN.
    pub fn new(word: &'t str, topology: &'t Topology, lan: LanNo) -> Self
        ensures word { result.word.now ≡ word.now }
        ensures lan { result.lan.now ≡ lan_name topology.now lan }
    {
        let lan = topology.lan_name_or_empty(lan);
        Self { word, lan }
    }
}

impl<'t> fmt::Display for WordAtLan<'t> {
    ghost output = { λ at. Some (at.word.now ++ codes " " ++ at.lan.now) };

    fn fmt<W: fmt::Write>(&self, f: &mut fmt::Formatter<W>) -> fmt::Result {
        write!(f, "{} {}", self.word, self.lan)
    }
}

/// A word with the name of a router and a vif of it, as `Stray r3 1`.
#[derive(Clone, Copy, Drop)]
pub struct WordAtVif<'t> {
    /// The word.
    pub word: &'t str,
    /// The name of the router.
    pub router: &'t str,
    /// The vif.
    pub vif: u8,
}

impl<'t> WordAtVif<'t> {
    /// The word with the name of this router and a vif of it; the name is empty where the topology has no
    /// such router.
    pub fn new(word: &'t str, topology: &'t Topology, router: RouterNo, vif: u8) -> Self
        ensures word { result.word.now ≡ word.now }
        ensures router { result.router.now ≡ router_name topology.now router }
        ensures vif { result.vif ≡ vif }
    {
        let router = topology.router_name_or_empty(router);
        Self { word, router, vif }
    }
}

impl<'t> fmt::Display for WordAtVif<'t> {
    ghost output = { λ at. Some (at.word.now ++ codes " " ++ at.router.now ++ codes " "
        ++ decimal at.vif) };

    fn fmt<W: fmt::Write>(&self, f: &mut fmt::Formatter<W>) -> fmt::Result {
        write!(f, "{} {} {}", self.word, self.router, self.vif)
    }
}
