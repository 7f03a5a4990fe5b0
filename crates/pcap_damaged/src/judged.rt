//! The packet at the front of the bytes of a damaged capture that have come so far.

ghost use Rattle.std.specs.Prelude.{◌↔◌, IsTrue, MatchOption};
ghost use Rattle.pcap_classic.specs.Parser.{header_of};
ghost use Rattle.pcap_damaged.specs.Heads.{head_in};
ghost use Rattle.pcap_damaged.specs.Judged.{Counts, IsFollowed, IsJudged, IsOverlong, IsShown, IsShownBehind, Judges, Lacks, LacksBehind, MayBeOverlong, NotOverlong, OverlongHead, WaitsForWhole};
ghost use Rattle.pcap_damaged.specs.Weighed.{Weighs};

use crate::behind::{begins_near, follows};
use crate::heads::{Numbers, head_at};
use crate::lengths::follow_by_length;
use crate::search::resync;
use crate::weight::{Weight, can_be, weigh, whole_length};
use pcap_classic::pcap::{PACKET_LIMIT, PcapParser};

/// The length of a packet's head, in bytes.
const HEAD: usize = 16;

/// The most bytes of four packets that break no rule.
const ROW: usize = 1_048_640;

/// What the bytes at the front of a damaged capture are.
#[derive(Clone, Copy, Debug, PartialEq, Eq)]
pub enum Judged {
    /// A packet of its stored length.
    Packet,
    /// A packet with this many bytes of data: its original length, or as many as the capture stores. The stored length is wrong.
    Length(u32),
    /// So many corrupt bytes. Behind them packets go on.
    Gap(usize),
    /// Corrupt bytes. Where packets go on is for `first_packets` to find.
    Corrupt,
    /// Not yet known: at least so many bytes are missing.
    Missing(usize),
}

/// Finds out whether a packet is at the front of the slice, by the bytes behind it. `time` is that of the packet before, in seconds since
/// 1970, or its own. `is_all` means that nothing follows the slice in the capture. Otherwise the result may be Missing, unless the next head
/// is near `time`, or the slice reaches 1048640 bytes past the packet.
///
/// A packet stands as `weigh` says, or has its original length or the snapshot length. It has one of these also if its stored length is above
/// 262144, its stored bytes are not all there, and something follows. If the length is wrong, the bytes before the first packets inside it
/// are corrupt. If there are none, it is a packet all the same if it has data, or if packets follow it by their lengths.
pub fn judge(parser: &PcapParser, time: u32, slice: &[u8], is_all: bool) -> Judged
    ensures { Judges (header_of parser.now) time is_all slice.now result }
{
    if let Some(length) = overlong(parser, time, slice, is_all) {
        return Judged::Length(length);
    }
    match missing(parser, time, slice) {
        Some(bytes) if !is_all => Judged::Missing(bytes),
        _ => judge_all(parser, time, slice),
    }
}

// Returns whether these bytes show what is behind so many bytes of data: the next head is near, or the longest row of four packets ends.
fn is_shown_behind(parser: &PcapParser, time: u32, size: u32, data: &[u8]) -> bool
    ensures { IsTrue result ↔ IsShownBehind (header_of parser.now) time size data.now }
{
    let end = size as usize;
    if data.len() < end + HEAD {
        return false;
    }
    data.len() >= end + ROW || begins_near(parser, time, &data[end..])
}

// Returns whether something may follow so many bytes of data.
fn is_followed(parser: &PcapParser, time: u32, size: u32, data: &[u8]) -> bool
    ensures { IsTrue result ↔ IsFollowed (header_of parser.now) time size data.now }
{
    let end = size as usize;
    end <= data.len() && follows(parser, time, &data[end..])
}

// Returns whether a stored length is above the limit and its bytes are not there, and the packet may be whole.
fn may_be_overlong(parser: &PcapParser, time: u32, head: Numbers, data: &[u8]) -> bool
    ensures { IsTrue result ↔ MayBeOverlong (header_of parser.now) time (head_in head) data.now }
{
    head.included > PACKET_LIMIT
        && data.len() < head.included as usize
        && can_be(parser, time, head, whole_length(parser, head))
}

// Returns whether the bytes behind such a packet are missing that show whether it is whole.
fn waits_for_whole(parser: &PcapParser, time: u32, head: Numbers, data: &[u8]) -> bool
    ensures { IsTrue result ↔ WaitsForWhole (header_of parser.now) time (head_in head) data.now }
{
    may_be_overlong(parser, time, head, data)
        && !is_shown_behind(parser, time, whole_length(parser, head), data)
}

// Returns whether such a packet is whole. Either the bytes behind it show that, or nothing follows them.
fn is_overlong(parser: &PcapParser, time: u32, head: Numbers, data: &[u8], is_all: bool) -> bool
    ensures { IsTrue result ↔ OverlongHead (header_of parser.now) time is_all (head_in head) data.now }
{
    let size = whole_length(parser, head);
    may_be_overlong(parser, time, head, data)
        && (is_all || is_shown_behind(parser, time, size, data))
        && is_followed(parser, time, size, data)
}

// Returns the length of the packet at the front, if its stored length is above the limit and it is whole.
fn overlong(parser: &PcapParser, time: u32, slice: &[u8], is_all: bool) -> Option<u32>
    ensures { MatchOption result (NotOverlong (header_of parser.now) time is_all slice.now)
        (IsOverlong (header_of parser.now) time is_all slice.now) }
{
    let Some((head, data)) = head_at(parser, slice) else {
        return None;
    };
    if !is_overlong(parser, time, head, data, is_all) {
        return None;
    }
    Some(whole_length(parser, head))
}

// Returns how many bytes are missing of those that show what is at the front, or None if they are there.
fn missing(parser: &PcapParser, time: u32, slice: &[u8]) -> Option<usize>
    ensures { MatchOption result (IsShown (header_of parser.now) time slice.now) (Lacks (header_of parser.now) time slice.now) }
{
    let Some((head, data)) = head_at(parser, slice) else {
        return Some(HEAD - slice.len());
    };
    if waits_for_whole(parser, time, head, data) {
        return Some(lacking(parser, time, whole_length(parser, head), data));
    }
    if is_shown_behind(parser, time, head.included, data) {
        return None;
    }
    Some(lacking(parser, time, head.included, data))
}

// Returns how many bytes are missing of those that show what is behind so many bytes of data: of the next head, or of the longest row of
// four packets.
fn lacking(parser: &PcapParser, time: u32, size: u32, data: &[u8]) -> usize
    requires { IsShownBehind (header_of parser.now) time size data.now → ⊥ }
    ensures { LacksBehind size data.now result }
{
    let end = size as usize;
    if data.len() < end + HEAD {
        return end + HEAD - data.len();
    }
    end + ROW - data.len()
}

// Finds out what is at the front of a slice whose bytes are enough.
fn judge_all(parser: &PcapParser, time: u32, slice: &[u8]) -> Judged
    ensures { IsJudged (header_of parser.now) time slice.now result }
{
    match weigh(parser, time, slice) {
        Weight::Stands => Judged::Packet,
        Weight::Length(length) => Judged::Length(length),
        Weight::Short => Judged::Corrupt,
        Weight::Wrong => judge_wrong(parser, time, slice),
    }
}

// Returns whether a packet counts as one though its length is wrong: it has data, or packets follow it by their lengths.
fn counts(parser: &PcapParser, head: Numbers, slice: &[u8]) -> bool
    ensures { IsTrue result ↔ Counts (header_of parser.now) slice.now (head_in head) }
{
    head.included > 0 || follow_by_length(parser, slice)
}

// Finds out what is at the front of a slice whose first packet has a wrong length.
fn judge_wrong(parser: &PcapParser, time: u32, slice: &[u8]) -> Judged
    requires { Weighs (header_of parser.now) time slice.now Weight.Wrong }
    ensures { IsJudged (header_of parser.now) time slice.now result }
{
    let Some((head, _data)) = head_at(parser, slice) else {
        return Judged::Corrupt;
    };
    let bound = head.included as usize + (HEAD - 1);
    match resync(parser, time, &slice[1..], bound) {
        Some(place) => Judged::Gap(place + 1),
        None if counts(parser, head, slice) => Judged::Packet,
        None => Judged::Corrupt,
    }
}
