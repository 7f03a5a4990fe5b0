//! Whether the packet at a place can be trusted.

ghost use Rattle.std.specs.Prelude.{◌≡◌, ◌↔◌, IsTrue};
ghost use Rattle.pcap_classic.specs.Parser.{header_of};
ghost use Rattle.pcap_damaged.specs.Heads.{head_in};
ghost use Rattle.pcap_damaged.specs.Weighed.{CanBe, Doubtful, EndsWell, GoesOnWithin, HeadCanBe, Opposed, Weighs, WholeEndsWell, whole_length};

use crate::behind::follows;
use crate::heads::{Numbers, breaks_a_rule, head_at, is_near, limit_of, nanos_of};
use crate::search::resync;
use pcap_classic::pcap::{PACKET_LIMIT, PcapParser};

/// What a packet's head is worth, by the bytes behind it.
#[derive(Clone, Copy, Debug, PartialEq, Eq)]
pub enum Weight {
    /// The packet is there with its stored length.
    Stands,
    /// The stored length is wrong, and the packet has this many bytes: its original length, or as many as the capture stores.
    Length(u32),
    /// There is no packet of the stored length.
    Wrong,
    /// The packet is truncated.
    Short,
}

// Returns whether `n` bytes of data end where something may follow them.
fn ends_well(parser: &PcapParser, time: u32, n: u32, slice: &[u8]) -> bool
    ensures { IsTrue result ↔ EndsWell (header_of parser.now) time n slice.now }
{
    let end = 16 + n as usize;
    end <= slice.len() && follows(parser, time, &slice[end..])
}

// Returns whether a head has no data, or more than the capture stores, or breaks a rule.
fn is_doubtful(parser: &PcapParser, head: Numbers) -> bool
    ensures { IsTrue result ↔ Doubtful (header_of parser.now) (head_in head) }
{
    head.included == 0
        || head.included > limit_of(parser)
        || breaks_a_rule(parser.header().ts_resolution(), head)
}

// Returns whether a packet of this head may have `n` bytes of data.
pub(crate) fn can_be(parser: &PcapParser, time: u32, head: Numbers, n: u32) -> bool
    ensures { IsTrue result ↔ CanBe (header_of parser.now) time (head_in head) n }
{
    n > 0
        && n <= limit_of(parser)
        && nanos_of(parser.header().ts_resolution(), head.fraction) < 1_000_000_000
        && is_near(time, head.seconds)
        && (n <= head.original || head.original > PACKET_LIMIT)
}

// Returns the length of the whole packet of this head, or of as much of it as the capture stores.
pub(crate) fn whole_length(parser: &PcapParser, head: Numbers) -> u32
    ensures { result ≡ whole_length (header_of parser.now) (head_in head) }
{
    head.original.min(limit_of(parser))
}

// Returns whether a head is that of a whole packet, or of as much of it as the capture stores.
fn whole_ends_well(parser: &PcapParser, time: u32, head: Numbers, slice: &[u8]) -> bool
    ensures { IsTrue result ↔ WholeEndsWell (header_of parser.now) time (head_in head) slice.now }
{
    let length = whole_length(parser, head);
    can_be(parser, time, head, length) && ends_well(parser, time, length, slice)
}

// Returns whether packets go on inside the first `n` bytes of the data.
fn goes_on_within(parser: &PcapParser, time: u32, n: u32, data: &[u8]) -> bool
    ensures { IsTrue result ↔ GoesOnWithin (header_of parser.now) time n data.now }
{
    resync(parser, time, data, n as usize).is_some()
}

// Returns whether a head is doubtful, or packets go on inside its data.
fn is_opposed(parser: &PcapParser, time: u32, head: Numbers, data: &[u8]) -> bool
    ensures { IsTrue result ↔ Opposed (header_of parser.now) time (head_in head) data.now }
{
    is_doubtful(parser, head) || goes_on_within(parser, time, head.included, data)
}

/// Compares the packet at the front of the slice with what follows it. `time` is that of the packet before, in seconds since
/// 1970, or its own. The slice reaches to the end of the capture, or at least 1048640 bytes past the packet.
///
/// The packet stands if something may follow it (`follows`). Otherwise its original length is tried, or the snapshot length if that is
/// less. Otherwise the length is wrong if the head has no data, breaks a rule or is longer than the snapshot length, or if packets go on
/// inside its data. A packet against which nothing speaks stands, so the last one before corrupt bytes is kept.
pub fn weigh(parser: &PcapParser, time: u32, slice: &[u8]) -> Weight
    ensures { Weighs (header_of parser.now) time slice.now result }
{
    let Some((head, data)) = head_at(parser, slice) else {
        return Weight::Short;
    };
    if ends_well(parser, time, head.included, slice) {
        return Weight::Stands;
    }
    if whole_ends_well(parser, time, head, slice) {
        return Weight::Length(whole_length(parser, head));
    }
    if is_opposed(parser, time, head, data) {
        return Weight::Wrong;
    }
    if slice.len() < 16 + head.included as usize {
        return Weight::Short;
    }
    Weight::Stands
}

/// Returns whether the packet at the front of the slice may have `n` bytes of data: its time is near `time`, its fraction is
/// below a second, `n` is no more than the snapshot length, and no more than its original length unless that breaks a rule.
pub fn can_be_this_long(parser: &PcapParser, time: u32, slice: &[u8], n: u32) -> bool
    ensures { IsTrue result ↔ HeadCanBe (header_of parser.now) time slice.now n }
{
    match head_at(parser, slice) {
        None => false,
        Some((head, _data)) => can_be(parser, time, head, n),
    }
}
