//! The tests that select packets.

ghost use Rattle.std.specs.Prelude.{◌≡◌};
ghost use Rattle.std.specs.List.{list_any};
ghost use Rattle.pcapfile_cut.specs.Selections.{captured, goes_behind, is_in, is_selected, time_of};

use crate::changing::Changes;
use pcap_classic::pcap::PacketHeader;
use pcap_filter::Filter;

/// The numbers from one to another, both included.
#[derive(Clone, Copy, Debug, PartialEq, Eq)]
pub struct Range {
    /// The first of the numbers.
    pub first: u64,
    /// The last of the numbers.
    pub last: u64,
}

impl Range {
    /// All numbers.
    pub const ALL: Range = Range {
        first: 0,
        last: u64::MAX,
    };

    /// Returns whether the number is one of these.
    pub fn holds(&self, number: u64) -> bool
        ensures { result ≡ is_in self.now number }
    {
        self.first <= number && number <= self.last
    }
}

/// The tests that a wanted packet passes, all of them, the packets before it that it is compared with, and how it is changed.
#[derive(Clone, Copy)]
pub struct Selection<'a> {
    /// The ranges of the packets' numbers, in any order. The first packet has number 1. A packet that is in several ranges is
    /// written once.
    pub numbers: &'a [Range],
    /// The earliest time, in nanoseconds since 1970.
    pub from: u64,
    /// The end of the times, in nanoseconds since 1970: packets are before it.
    pub until: u64,
    /// The lengths that packets had on the wire.
    pub lengths: Range,
    /// The program that accepts the packets. `None` accepts all.
    pub filter: Option<&'a Filter>,
    /// How many of the packets before it that pass the tests a packet is compared with. A packet with the digest of one of them is a
    /// duplicate, and is left out. 0 keeps duplicates.
    pub dedup: u32,
    /// The changes of the packets that are written.
    pub changes: Changes,
}

// Returns the time of a packet in nanoseconds since 1970.
pub(crate) fn nanoseconds(head: &PacketHeader) -> u64
    ensures { result ≡ time_of head.now }
{
    let PacketHeader {
        ts_sec,
        ts_nsec,
        ..
    } = *head;
    u64::from(ts_sec) * 1_000_000_000 + u64::from(ts_nsec)
}

impl Selection<'_> {
    ghost use Rattle.pcapfile_cut.specs.Selections.{accepts};

    /// Returns whether a packet of this number is wanted, if it passes the other tests.
    pub fn has_number(&self, number: u64) -> bool
        ensures { result ≡ list_any (λ range. is_in range number) self.now.numbers.now }
    {
        self.numbers.iter().any(|range| range.holds(number))
    }

    /// Returns whether a wanted number is above this one.
    pub fn has_more(&self, number: u64) -> bool
        ensures { result ≡ goes_behind self.now number }
    {
        self.numbers.iter().any(|range| number < range.last)
    }

    /// Returns whether the program accepts a packet of these bytes and this length on the wire.
    pub fn accepts(&self, data: &[u8], length: u32) -> bool
        ensures { result ≡ accepts self.now data.now length }
    {
        match self.filter {
            Some(filter) => filter.accepts(data, length) != 0,
            None => true,
        }
    }

    /// Returns whether a packet of this number, header and data passes all tests.
    pub fn takes(&self, number: u64, head: &PacketHeader, data: &[u8]) -> bool
        ensures { result ≡ is_selected self.now number (captured head.now data.now) }
    {
        let time = nanoseconds(head);
        self.has_number(number)
            && self.from <= time
            && time < self.until
            && self.lengths.holds(u64::from(head.orig_len))
            && self.accepts(data, head.orig_len)
    }
}
