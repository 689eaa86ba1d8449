//! Channels, and which of them the hosts of a LAN want.

ghost use Rattle.std.specs.Prelude.{◌≡◌, ◌<◌, ℕ, Bool, Contains, IfOk, OnOk, [], Some, false};
ghost use Rattle.std.specs.Prelude.{length, map, slice_get, vec_len};
ghost use Rattle.std.specs.List.{All};
ghost use Rattle.mc_text.specs.Pair.{pair_number};
ghost use Rattle.mc_filter.specs.ChannelPlaces.{AreAnswersOfTally, AreNumbersOf};
ghost use Rattle.mc_filter.specs.ChannelPlaces.{IsChannelPlace, IsWantedAnswer, channel_at};
ghost use Rattle.mc_filter.specs.ChannelWants.{AreAllAskedFor};
ghost use Rattle.mc_filter.specs.Tallies.{CountsRecord, IsTallyOf, KeepsToChannels};
ghost use Rattle.mc_filter.specs.Tallies.{KeepToChannelsUnlessMore};

use crate::tally::Tally;
use mc_igmp::{ListRecords, Record, ReportList};
use mc_text::{Addr, Index, Memory, index_of_groups, pair_number, pair_numbers};
use std::alloc::Global;
use std::marker::Model;

/// The places of a channel and of its group, each in the index that has it.
#[derive(Clone, Copy, Debug)]
struct ChannelPlace {
    group: usize,
    channel: usize,
}

/// An index of channels.
fn index_of_channels(alloc: Global, asked: &[(Addr, Addr)]) -> Result<Index, Memory>
    ensures each { IfOk result (λ channels.
        All (λ channel. Contains channels (pair_number channel)) asked.now) }
    ensures only { IfOk result (λ channels. AreNumbersOf channels asked.now) }
{
    let numbers = pair_numbers(alloc, asked)?;
    Index::of(alloc, numbers)
}

/// The place of a channel, which must be in both indexes.
fn place_of(groups: &Index, channels: &Index, source: Addr, group: Addr) -> ChannelPlace
    requires group { Contains groups.now group }
    requires channel { Contains channels.now (pair_number (source, group)) }
    ensures place { IsChannelPlace groups.now channels.now result }
    ensures channel { channel_at channels.now result ≡ (source, group) }
{
    let places = (
        groups.place_of(u64::from(group.to_bits())),
        channels.place_of(pair_number(source, group)),
    );
    match places {
        (Some(group), Some(channel)) => ChannelPlace { group, channel },
        _ => unreachable!(),
    }
}

/// The place of each channel.
fn places_of(
    alloc: Global,
    groups: &Index,
    channels: &Index,
    asked: &[(Addr, Addr)],
) -> Result<Vec<ChannelPlace>, Memory>
    requires groups { All (λ channel. Contains groups.now channel.1) asked.now }
    requires channels { All (λ channel. Contains channels.now (pair_number channel)) asked.now }
    ensures places { IfOk result (λ places. All (IsChannelPlace groups.now channels.now) places.items) }
    ensures asked { IfOk result (λ places.
        map (channel_at channels.now) places.items ≡ asked.now) }
{
    let mut places = Vec::with_capacity(alloc, asked.len())?;
    for channel in asked {
        places.push(place_of(groups, channels, channel.0, channel.1))?;
    }
    Ok(places)
}

/// Adds a record to a tally of these groups and channels.
fn add_record(
    tally: &mut Tally,
    groups: &Index,
    channels: &Index,
    group_record: &Record<'_>,
) -> Result<(), Memory>
    requires groups { length tally.old.excludes.items ≡ length groups.now }
    requires channels { length tally.old.states.items ≡ length channels.now }
    ensures groups { OnOk result (length tally.new.excludes.items ≡ length groups.now) }
    ensures channels { OnOk result (length tally.new.states.items ≡ length channels.now) }
    ensures each { OnOk result
        (CountsRecord groups.now channels.now group_record.now tally.old tally.new) }
    ensures more { OnOk result (tally.new.asks_more ≡ false → (tally.old.asks_more ≡ false)
        × KeepsToChannels groups.now channels.now group_record.now) }
{
    let group = u64::from(group_record.group.to_bits());
    match groups.place_of(group) {
        Some(place) => tally.add(channels, place, group_record)?,
        None => tally.asks_more = true,
    }
    Ok(())
}

/// The tally of the channels over records.
fn tally_of_records(
    alloc: Global,
    groups: &Index,
    channels: &Index,
    records: ListRecords<'_>,
) -> Result<Tally, Memory>
    ensures groups { IfOk result (λ tally. length tally.excludes.items ≡ length groups.now) }
    ensures channels { IfOk result (λ tally. length tally.states.items ≡ length channels.now) }
    ensures each { IfOk result (λ tally. IsTallyOf groups.now channels.now records.entry tally []) }
    ensures more { IfOk result (λ tally.
        KeepToChannelsUnlessMore groups.now channels.now records.entry tally []) }
{
    let mut tally = Tally::none(alloc, groups.count(), channels.count())?;
    for group_record in records {
        add_record(&mut tally, groups, channels, &group_record)?;
    }
    Ok(tally)
}

/// The tally of the channels over the records of a list. A record that repeats another one changes
/// nothing.
fn tally_of(
    alloc: Global,
    groups: &Index,
    channels: &Index,
    reports: &ReportList,
) -> Result<Tally, Memory>
    ensures groups { IfOk result (λ tally. length tally.excludes.items ≡ length groups.now) }
    ensures channels { IfOk result (λ tally. length tally.states.items ≡ length channels.now) }
    ensures each { IfOk result (λ tally. IsTallyOf groups.now channels.now reports.now tally []) }
    ensures more { IfOk result (λ tally.
        KeepToChannelsUnlessMore groups.now channels.now reports.now tally []) }
{
    tally_of_records(alloc, groups, channels, reports.distinct_records())
}

/// Whether the channel at each place is wanted, by the tally of all records.
fn wanted_answers(
    alloc: Global,
    tally: &Tally,
    places: &[ChannelPlace],
) -> Result<Vec<bool>, Memory>
    requires groups { All (λ place. place.group < length tally.now.excludes.items) places.now }
    requires channels { All (λ place. place.channel < length tally.now.states.items) places.now }
    ensures count { IfOk result (λ answers. length answers.items ≡ length places.now) }
    ensures each { IfOk result (λ answers. AreAnswersOfTally tally.now places.now answers.items) }
{
    let mut answers = Vec::with_capacity(alloc, places.len())?;
    for place in places {
        let excludes = tally.excludes[place.group];
        answers.push(!tally.states[place.channel].is_unwanted(excludes))?;
    }
    Ok(answers)
}

/// What the hosts of a LAN want of channels.
#[derive(Debug, Drop)]
pub struct ChannelWants {
    /// Whether they want each channel.
    pub wanted: Vec<bool>,
    /// Whether they may ask for something else as well: a group of which they want no channel, or a source
    /// with which it makes none. If not, they don't.
    pub asks_more: bool,
}

/// Channels, each a source and a group (RFC 4607, section 1), indexed to be found in reports. Its value
/// in contracts is the list of them.
#[derive(Debug, Drop)]
pub struct Channels {
    groups: Index,
    channels: Index,
    places: Vec<ChannelPlace>,
}

impl Model for Channels {
    ghost use Rattle.std.specs.Prelude.{ℕ, List, map};
    ghost use Rattle.std.specs.List.{All};
    ghost use Rattle.mc_filter.specs.ChannelPlaces.{AreGroupsOf, AreNumbersOf};
    ghost use Rattle.mc_filter.specs.ChannelPlaces.{IsChannelPlace, channel_at};

    ghost Value = { List (ℕ × ℕ) };

    ghost view = { λ s. map (channel_at s.channels) s.places.items };

    ghost invariant = { λ s. All (IsChannelPlace s.groups s.channels) s.places.items
        × AreGroupsOf s.groups (map (channel_at s.channels) s.places.items)
        × AreNumbersOf s.channels (map (channel_at s.channels) s.places.items) };
}

impl Channels {
    /// Indexes these channels.
    ///
    /// # Errors
    ///
    /// `Memory` if an allocation is refused.
    pub fn of(alloc: Global, asked: &[(Addr, Addr)]) -> Result<Channels, Memory>
        ensures { IfOk result (λ channels. channels ≡ asked.now) }
    {
        let groups = index_of_groups(alloc, asked)?;
        let channels = index_of_channels(alloc, asked)?;
        let places = places_of(alloc, &groups, &channels, asked)?;
        Ok(Channels {
            groups,
            channels,
            places,
        })
    }

    /// Whether the hosts of a LAN want each channel, by their reports: whether some record for its
    /// group admits its source (RFC 3376, section 3.2); and whether they may ask for something else. The
    /// list is read once.
    ///
    /// # Errors
    ///
    /// `Memory` if an allocation is refused.
    pub fn wanted(&self, alloc: Global, reports: &ReportList) -> Result<ChannelWants, Memory>
        ensures count { IfOk result (λ wants. vec_len wants.wanted ≡ length self.now) }
        ensures each { IfOk result (λ wants. (index : ℕ) (channel : ℕ × ℕ) (is_wanted : Bool) →
            slice_get self.now index ≡ Some channel
            → slice_get wants.wanted.items index ≡ Some is_wanted →
            IsWantedAnswer reports.now channel is_wanted) }
        ensures all { IfOk result (λ wants. wants.asks_more ≡ false →
            AreAllAskedFor self.now reports.now) }
    {
        let tally = tally_of(alloc, &self.groups, &self.channels, reports)?;
        let wanted = wanted_answers(alloc, &tally, &self.places)?;
        Ok(ChannelWants {
            wanted,
            asks_more: tally.asks_more,
        })
    }
}
