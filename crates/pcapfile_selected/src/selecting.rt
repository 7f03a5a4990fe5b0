//! The packets that a user selects.

ghost use Rattle.std.specs.Prelude.{◌≡◌};
ghost use Rattle.pcapfile_selected.specs.Asked.{AreAsked, AreAskedOfPackets, AreAskedWith, IsLeastFirst, IsLesser, from_nanoseconds, has_interface, is_latest_moment, is_relative, is_relative_moment, latest_of, needs_latest, time_of, times_asked, until_nanoseconds};

use crate::blocks::{BlockTests, Times};
use crate::times::{Moment, nanoseconds_since};
use pcap_file::pcapng::Timestamp;
use pcap_filter::Filter;
use pcapfile_cut::{Changes, Range, Selection};

/// The tests that a user names. A packet is selected if it passes all of them. Of the selected packets, duplicates may be left out, and the
/// others may be changed.
#[derive(Drop)]
pub struct Selecting {
    /// The ranges of the packets' numbers.
    pub numbers: Vec<Range>,
    /// The earliest time.
    pub from: Option<Moment>,
    /// The end of the times: packets are before it.
    pub until: Option<Moment>,
    /// The lengths that packets had on the wire.
    pub lengths: Range,
    /// The number of the packets' interface in their section.
    pub interface: Option<u32>,
    /// How many of the selected packets before it a packet is compared with; 0 keeps duplicates.
    pub dedup: u32,
    /// How the selected packets are changed.
    pub changes: Changes,
}

impl Selecting {
    /// Returns whether a test depends on the latest time of a packet.
    pub(crate) fn needs_latest(&self) -> bool
        ensures { result ≡ needs_latest self.now }
    {
        is_before_latest(self.from) || is_before_latest(self.until)
    }
}

/// The tests that a user names, and what was read for them before the capture.
#[derive(Clone, Copy)]
pub struct Tests<'a> {
    /// The tests that the user names.
    pub asked: &'a Selecting,
    /// The program that accepts the packets. `None` accepts all.
    pub filter: Option<&'a Filter>,
    /// The latest time of a packet, if a test depends on it and a packet has a time.
    pub latest: Option<Timestamp>,
}

impl<'a> Tests<'a> {
    /// Returns whether a test depends on the time of the first packet.
    pub(crate) fn is_relative(self) -> bool
        ensures { result ≡ is_relative self.entry }
    {
        is_relative(self.asked.from) || is_relative(self.asked.until)
    }

    // Returns the times that are tested, if the user names one, given the first time.
    fn times(self, first: Timestamp) -> Option<Times>
        ensures { result ≡ times_asked self.entry first }
    {
        if self.asked.from.is_none() && self.asked.until.is_none() {
            return None;
        }
        Some(Times {
            from: self.time_of(self.asked.from, first),
            until: self.time_of(self.asked.until, first),
        })
    }

    // Returns the time of a moment, if the user names one, given the first time.
    fn time_of(self, moment: Option<Moment>, first: Timestamp) -> Option<Timestamp>
        ensures { result ≡ time_of self.entry moment first }
    {
        match moment {
            None => None,
            Some(moment) => Some(moment.time(first, self.latest(first))),
        }
    }

    // Returns the latest time of a packet, or the first time if none is known.
    fn latest(self, first: Timestamp) -> Timestamp
        ensures { result ≡ latest_of self.entry first }
    {
        match self.latest {
            None => first,
            Some(latest) => latest,
        }
    }

    // Returns whether packets of the interface with this number may be selected.
    fn has_interface(self, number: u32) -> bool
        ensures { result ≡ has_interface self.entry number }
    {
        match self.asked.interface {
            None => true,
            Some(wanted) => wanted == number,
        }
    }

    /// Returns the first number of the ranges, or 1 if there are none.
    pub(crate) fn first(self) -> u64
        ensures { IsLeastFirst self.entry.asked.now.numbers.items result }
    {
        least_first(self.asked.numbers.as_slice())
    }

    /// Returns the tests of packets in blocks if the first packet with a time has the time `first`.
    pub(crate) fn in_blocks(self, first: Timestamp) -> BlockTests<'a>
        ensures { AreAsked self.entry first result }
    {
        BlockTests {
            selection: self.selection(first),
            interface: self.asked.interface,
            times: self.times(first),
        }
    }

    /// Returns the tests of a classic capture's packets if the first one has this time. All its packets are of interface 0.
    pub(crate) fn of_packets(self, first: Timestamp) -> Selection<'a>
        ensures { AreAskedOfPackets self.entry first result }
    {
        let mut selection = self.selection(first);
        if !self.has_interface(0) {
            selection.numbers = &[];
        }
        selection
    }

    // Returns the tests of packets of all interfaces if the first packet has this time.
    fn selection(self, first: Timestamp) -> Selection<'a>
        ensures { AreAskedWith self.entry.asked.now.numbers.items self.entry first result }
    {
        let Selecting {
            numbers,
            lengths,
            dedup,
            changes,
            ..
        } = self.asked;
        Selection {
            numbers: numbers.as_slice(),
            from: from_nanoseconds(self.time_of(self.asked.from, first)),
            until: until_nanoseconds(self.time_of(self.asked.until, first)),
            lengths: *lengths,
            filter: self.filter,
            dedup: *dedup,
            changes: *changes,
        }
    }
}

// Returns whether a moment is one before the latest packet.
fn is_before_latest(moment: Option<Moment>) -> bool
    ensures { result ≡ is_latest_moment moment }
{
    match moment {
        Some(Moment::BeforeLatest(_)) => true,
        _ => false,
    }
}

// Returns whether a moment is one after the first packet.
fn is_relative(moment: Option<Moment>) -> bool
    ensures { result ≡ is_relative_moment moment }
{
    match moment {
        None => false,
        Some(moment) => moment.is_after_first(),
    }
}

// Returns the nanoseconds since 1970 from which packets are selected.
fn from_nanoseconds(from: Option<Timestamp>) -> u64
    ensures { result ≡ from_nanoseconds from }
{
    match from {
        None => 0,
        Some(time) => nanoseconds_since(time),
    }
}

// Returns the nanoseconds since 1970 before which packets are selected.
fn until_nanoseconds(until: Option<Timestamp>) -> u64
    ensures { result ≡ until_nanoseconds until }
{
    match until {
        None => u64::MAX,
        Some(time) => nanoseconds_since(time),
    }
}

// Returns the least first number of these ranges, or 1 if there are none.
fn least_first(ranges: &[Range]) -> u64
    ensures { IsLeastFirst ranges.now result }
{
    let mut least = None;
    for place in 0..ranges.len() {
        let range = &ranges[place];
        least = Some(lesser(least, range.first));
    }
    match least {
        None => 1,
        Some(least) => least,
    }
}

// Returns the lesser one of a known number, if there is one, and another.
fn lesser(known: Option<u64>, n: u64) -> u64
    ensures { IsLesser known n result }
{
    match known {
        Some(known) if known <= n => known,
        _ => n,
    }
}
