//! The tally of channels over records: which channels some record wants. A channel is wanted unless no
//! INCLUDE record lists its source and every EXCLUDE record of its group does (RFC 3376, section 3.2).

ghost use Rattle.std.specs.Prelude.{◌≡◌, ◌<◌, IfOk, IfSome, OnOk, false, length};
ghost use Rattle.mc_filter.specs.Tallies.{AddsRecord, AreStatesAfterRecord, CountsNoRecord};
ghost use Rattle.mc_filter.specs.Tallies.{ListsAsChannels, excludes_after, is_include};
ghost use Rattle.mc_filter.specs.Tallies.{is_unwanted, state_after_listing};

use mc_igmp::{Kind, Record};
use mc_text::{Index, Memory, pair_number};
use std::alloc::Global;

/// The state of a channel after some records.
#[derive(Clone, Copy, Debug, PartialEq, Eq)]
pub(crate) enum ChannelState {
    /// An INCLUDE record lists its source.
    Included,
    /// The first so many EXCLUDE records for its group list its source, and no INCLUDE record does.
    Listed(u32),
}

impl ChannelState {
    /// Whether no record wants the channel, after `excludes` EXCLUDE records for its group: whether
    /// each of them lists its source.
    pub(crate) fn is_unwanted(self, excludes: u32) -> bool
        ensures { result ≡ is_unwanted self excludes }
    {
        match self {
            ChannelState::Included => false,
            ChannelState::Listed(count) => count == excludes,
        }
    }

    /// The state after a record that lists the source, with `before` EXCLUDE records for the group
    /// before it and `after` with it.
    fn after_listing(self, kind: Kind, before: u32, after: u32) -> ChannelState
        requires kind { after ≡ excludes_after kind before }
        ensures value { result ≡ state_after_listing kind before self }
    {
        match kind {
            Kind::Include => ChannelState::Included,
            Kind::Exclude if self.is_unwanted(before) => ChannelState::Listed(after),
            _ => self,
        }
    }
}

/// The number of EXCLUDE records with one more record of this kind, if 32 bits hold it.
fn excludes_after(kind: Kind, before: u32) -> Option<u32>
    ensures { IfSome result (λ after. after ≡ excludes_after kind before) }
{
    match kind {
        Kind::Exclude => before.checked_add(1),
        _ => Some(before),
    }
}

fn is_include(kind: Kind) -> bool
    ensures { result ≡ is_include kind }
{
    matches!(kind, Kind::Include)
}

/// Whether something else may be asked for: as before a source was listed, or by the source, which an
/// INCLUDE record lists without a channel, or another record with one.
fn asks_more_by(before: bool, has_channel: bool, by_include: bool) -> bool
    ensures { result ≡ false → (before ≡ false) × (has_channel ≡ by_include) }
{
    before || has_channel != by_include
}

/// The state of groups and channels after some records.
#[derive(Debug, Drop)]
pub(crate) struct Tally {
    /// The number of EXCLUDE records for each group.
    pub(crate) excludes: Vec<u32>,
    /// The state of each channel.
    pub(crate) states: Vec<ChannelState>,
    /// Whether some record is for another group, or an INCLUDE record lists a source that makes no
    /// channel, or another record one that does.
    pub(crate) asks_more: bool,
}

impl Tally {
    /// The tally of so many groups and channels before any record.
    ///
    /// # Errors
    ///
    /// `Memory` if an allocation is refused.
    pub(crate) fn none(alloc: Global, groups: usize, channels: usize) -> Result<Tally, Memory>
        ensures groups { IfOk result (λ tally. length tally.excludes.items ≡ groups) }
        ensures channels { IfOk result (λ tally. length tally.states.items ≡ channels) }
        ensures each { IfOk result (CountsNoRecord groups channels) }
        ensures more { IfOk result (λ tally. tally.asks_more ≡ false) }
    {
        let mut excludes = Vec::new(alloc);
        excludes.resize(groups, 0)?;
        let mut states = Vec::new(alloc);
        states.resize(channels, ChannelState::Listed(0))?;
        Ok(Tally {
            excludes,
            states,
            asks_more: false,
        })
    }

    /// Updates the channels whose sources the record lists, with `before` EXCLUDE records for its group
    /// before it and `after` with it.
    fn list_sources(&mut self, channels: &Index, group_record: &Record<'_>, before: u32, after: u32)
        requires room { length self.old.states.items ≡ length channels.now }
        requires after { after ≡ excludes_after group_record.now.kind before }
        ensures excludes { self.new.excludes.items ≡ self.old.excludes.items }
        ensures count { length self.new.states.items ≡ length self.old.states.items }
        ensures each { AreStatesAfterRecord channels.now group_record.now before self.old.states.items
            self.new.states.items }
        ensures more { self.new.asks_more ≡ false → (self.old.asks_more ≡ false)
            × ListsAsChannels channels.now group_record.now group_record.now.sources }
    {
        let by_include = is_include(group_record.kind);
        for source in group_record.sources.iter() {
            let number = pair_number(source, group_record.group);
            match channels.place_of(number) {
                Some(place) => {
                    self.states[place] = self.states[place].after_listing(
                        group_record.kind,
                        before,
                        after,
                    );
                    self.asks_more = asks_more_by(self.asks_more, true, by_include);
                }
                None => self.asks_more = asks_more_by(self.asks_more, false, by_include),
            }
        }
    }

    /// Adds a record, whose group is at this place among the groups.
    ///
    /// # Errors
    ///
    /// `Memory` if the group has more EXCLUDE records than 32 bits count, which no list that can be
    /// read has.
    pub(crate) fn add(
        &mut self,
        channels: &Index,
        place: usize,
        group_record: &Record<'_>,
    ) -> Result<(), Memory>
        requires place { place < length self.old.excludes.items }
        requires room { length self.old.states.items ≡ length channels.now }
        ensures groups { OnOk result
            (length self.new.excludes.items ≡ length self.old.excludes.items) }
        ensures channels { OnOk result (length self.new.states.items ≡ length channels.now) }
        ensures each { OnOk result (AddsRecord channels.now place group_record.now self.old self.new) }
        ensures more { OnOk result (self.new.asks_more ≡ false → (self.old.asks_more ≡ false)
            × ListsAsChannels channels.now group_record.now group_record.now.sources) }
    {
        let before = self.excludes[place];
        let after = excludes_after(group_record.kind, before).ok_or(Memory)?;
        self.list_sources(channels, group_record, before, after);
        self.excludes[place] = after;
        Ok(())
    }
}
