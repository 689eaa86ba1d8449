//! Source filters, and merging records into them.

ghost use Rattle.std.specs.Prelude.{◌≡◌, ◌⊎◌, ◌↔◌, ◌||◌, ℕ, IsTrue, IsOk, OnOk, OnErr};
ghost use Rattle.std.specs.List.Sorted.{IsStrictlyIncreasing};
ghost use Rattle.mc_igmp.specs.declared.record.Kind.TheVariants as kind;
ghost use Rattle.mc_igmp.specs.Wants.{Admits};
ghost use Rattle.mc_filter.specs.SourceFilter.{has};
ghost use Rattle.mc_filter.specs.SourceFilter.{FilterAdmits, ChangesNoFilter, include_nothing};
ghost use Rattle.mc_filter.specs.SourceFilter.{admits, admits_by};

use crate::addresses::{append_sources, is_listed, remove_common, retain_common, sort_and_dedup};
use mc_igmp::{Kind, Record};
use mc_text::{Addr, Memory};
use std::alloc::Global;
use std::marker::Model;

/// The meaning of a filter's list of sources.
#[derive(Clone, Copy, Debug, PartialEq, Eq)]
pub enum Mode {
    /// Only the sources in the list are wanted.
    Include,
    /// All sources but those in the list are wanted.
    Exclude,
}

/// A source filter: a mode and an ascending list of distinct sources. Its value in contracts is the
/// two.
#[derive(Debug, Drop)]
pub struct Filter {
    mode: Mode,
    sources: Vec<Addr>,
}

impl Model for Filter {
    ghost use Rattle.std.specs.List.Sorted.{IsStrictlyIncreasing};
    ghost use Rattle.mc_filter.specs.SourceFilter.{SourceFilter};

    ghost Value = { SourceFilter };

    ghost view = { λ s. record { mode = s.mode; sources = s.sources.items } };

    ghost invariant = { λ s. IsStrictlyIncreasing s.sources.items };
}

impl Filter {
    /// The filter that admits no source. It allocates no memory.
    pub fn none(alloc: Global) -> Filter
        ensures { result ≡ include_nothing }
    {
        Filter {
            mode: Mode::Include,
            sources: Vec::new(alloc),
        }
    }

    /// Merges in a record (RFC 3376, section 3.2): afterwards the filter admits what it admitted before
    /// and what the record admits. A record of another type than 1 and 2 changes nothing.
    ///
    /// # Errors
    ///
    /// `Memory` if an allocation is refused. The filter is unchanged then.
    pub fn merge(&mut self, group_record: &Record<'_>) -> Result<(), Memory>
        ensures admits { OnOk result ((source : ℕ) →
            FilterAdmits self.new source
            ↔ (FilterAdmits self.old source ⊎ Admits group_record.now source)) }
        ensures mode { OnOk result ((self.new.mode ≡ Mode.Exclude) ↔
            ((self.old.mode ≡ Mode.Exclude) ⊎ (group_record.now.kind ≡ kind.Exclude))) }
        ensures other_types { ChangesNoFilter group_record.now.kind
            → IsOk result × (self.new ≡ self.old) }
        ensures err { OnErr result (self.new ≡ self.old) }
        ensures ascending { IsStrictlyIncreasing self.new.sources }
    {
        let alloc = *self.sources.allocator();
        let mode = match group_record.kind {
            Kind::Include => Mode::Include,
            Kind::Exclude => Mode::Exclude,
            Kind::Change(_) | Kind::Unknown(_) => return Ok(()),
        };
        let mut listed = Vec::new(alloc);
        append_sources(&mut listed, &group_record.sources)?;
        self.merge_list(mode, listed)
    }

    /// Merges in a filter of this mode with these sources, which may be in any order.
    pub(crate) fn merge_list(&mut self, mode: Mode, mut listed: Vec<Addr>) -> Result<(), Memory>
        ensures admits { OnOk result ((source : ℕ) →
            admits self.new source
            ≡ (admits self.old source || admits_by mode (has listed.items source))) }
        ensures mode { OnOk result ((self.new.mode ≡ Mode.Exclude) ↔
            ((self.old.mode ≡ Mode.Exclude) ⊎ (mode ≡ Mode.Exclude))) }
        ensures err { OnErr result (self.new ≡ self.old) }
        ensures ascending { IsStrictlyIncreasing self.new.sources }
    {
        match (self.mode, mode) {
            (Mode::Include, Mode::Include) => {
                listed.extend_from_slice(&self.sources)?;
                sort_and_dedup(&mut listed);
                self.sources = listed;
            }
            (Mode::Include, Mode::Exclude) => {
                sort_and_dedup(&mut listed);
                remove_common(&mut listed, &self.sources);
                *self = Filter {
                    mode,
                    sources: listed,
                };
            }
            (Mode::Exclude, Mode::Include) => {
                sort_and_dedup(&mut listed);
                remove_common(&mut self.sources, &listed);
            }
            (Mode::Exclude, Mode::Exclude) => {
                sort_and_dedup(&mut listed);
                retain_common(&mut self.sources, &listed);
            }
        }
        Ok(())
    }

    /// The mode: whether the listed sources are the wanted ones, or the others.
    pub fn mode(&self) -> Mode
        ensures { result ≡ self.now.mode }
    {
        self.mode
    }

    /// The listed sources, ascending and distinct.
    pub fn sources(&self) -> &[Addr]
        ensures value { result.now ≡ self.now.sources }
        ensures ascending { IsStrictlyIncreasing result.now }
    {
        &self.sources
    }

    /// Whether the filter admits a source.
    pub fn admits(&self, source: Addr) -> bool
        ensures { IsTrue result ↔ FilterAdmits self.now source }
    {
        let is_listed = is_listed(&self.sources, source);
        match self.mode {
            Mode::Include => is_listed,
            Mode::Exclude => !is_listed,
        }
    }
}
