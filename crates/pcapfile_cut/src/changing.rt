//! Packets that are written with another time, in another resolution, or with at most a number of their bytes.

ghost use Rattle.std.specs.Prelude.{◌≡◌, drop, take, true, IsTrue, MatchResult};
ghost use Rattle.pcap_core.specs.Codec.{number_bytes};
ghost use Rattle.pcap_items.specs.Writing.{WritesAll};
ghost use Rattle.pcap_classic.specs.Magic.{is_magic, order_of, resolution_of};
ghost use Rattle.pcap_classic.specs.Written.{packet_header_bytes, written_under};
ghost use Rattle.pcapfile_cut.specs.Openings.{header_in};
ghost use Rattle.pcapfile_cut.specs.Changes.{bytes_within, changed, changed_head, head_behind, header_after, is_nothing, keeps_time, moved_in, no_changes, stored_of, text_after};

use crate::moving::{Shift, move_head};
use byteorder::{BigEndian, LittleEndian};
use pcap_classic::TsResolution;
use pcap_classic::pcap::{PacketHeader, PcapHeader};
use pcap_core::{Endianness, ResultParsing};
use pcap_items::stream::put;
use std::io::Write;

/// The changes of the packets that a cut writes.
#[derive(Clone, Copy, Debug, PartialEq, Eq)]
pub struct Changes {
    /// The most bytes that are written of each packet. `None` if each packet keeps all its bytes.
    pub snaplen: Option<u32>,
    /// The change of each packet's time, in nanoseconds. `None` if each packet keeps its time.
    pub shift: Option<Shift>,
    /// The resolution of the output. Times are rounded down to it. `None` if it is that of the capture.
    pub resolution: Option<TsResolution>,
}

// A packet that was read: the header of its capture, its own header, and all its bytes.
#[derive(Clone, Copy)]
pub(crate) struct Found<'a> {
    pub(crate) header: &'a PcapHeader,
    pub(crate) head: PacketHeader,
    pub(crate) text: &'a [u8],
}

impl Changes {
    /// No change.
    pub const NONE: Changes = Changes {
        snaplen: None,
        shift: None,
        resolution: None,
    };

    // Returns whether nothing is changed.
    fn is_nothing(self) -> bool
        ensures { result ≡ is_nothing self }
    {
        self.snaplen.is_none() && self.shift.is_none() && self.resolution.is_none()
    }

    // Returns the header of a packet with its time moved, if that is asked for and a packet can have the new time.
    fn head_behind(self, ts_resolution: TsResolution, head: PacketHeader) -> PacketHeader
        ensures { result ≡ head_behind ts_resolution self.shift head }
    {
        match self.shift {
            Some(shift) => match move_head(ts_resolution, shift, &head) {
                Some(moved) => moved,
                None => head,
            },
            None => head,
        }
    }

    // Returns the resolution of the times to which packets of a capture of this resolution are moved.
    fn moved_in(self, ts_resolution: TsResolution) -> TsResolution
        ensures { result ≡ moved_in self.resolution ts_resolution }
    {
        match self.resolution {
            Some(TsResolution::NanoSecond) => TsResolution::NanoSecond,
            Some(TsResolution::MicroSecond) | None => ts_resolution,
        }
    }

    // Returns the header of a packet after these changes.
    fn head_of(self, ts_resolution: TsResolution, head: PacketHeader) -> PacketHeader
        ensures { result ≡ changed_head ts_resolution self head }
    {
        let head = self.head_behind(self.moved_in(ts_resolution), head);
        match self.snaplen {
            Some(most) => PacketHeader {
                incl_len: most.min(head.incl_len),
                ..head
            },
            None => head,
        }
    }

    // Returns the data of a packet after these changes.
    fn bytes_of(self, bytes: &[u8]) -> &[u8]
        ensures { result.now ≡ bytes_within self.snaplen bytes.now }
    {
        match self.snaplen {
            Some(most) => front_of(bytes, most),
            None => bytes,
        }
    }

    // Returns whether a shift is asked for, and the packet keeps its time, because no packet can have the new one.
    pub(crate) fn keep_time(self, ts_resolution: TsResolution, head: &PacketHeader) -> bool
        ensures { result ≡ keeps_time (moved_in self.resolution ts_resolution) self.shift head.now }
    {
        match self.shift {
            Some(shift) => move_head(self.moved_in(ts_resolution), shift, head).is_none(),
            None => false,
        }
    }
}

// Returns the header of a capture in this resolution, if one is given.
pub(crate) fn header_in(ts_resolution: Option<TsResolution>, header: &PcapHeader) -> PcapHeader
    requires { IsTrue (is_magic header.now.magic_number) }
    ensures header { result ≡ header_in ts_resolution header.now }
    ensures valid { IsTrue (is_magic result.magic_number) }
{
    let mut header = *header;
    if let Some(ts_resolution) = ts_resolution {
        header.set_ts_resolution(ts_resolution);
    }
    header
}

// Returns the data of a packet, which is behind its header.
pub(crate) fn data_of(text: &[u8]) -> &[u8]
    ensures { result.now ≡ drop 16 text.now }
{
    match text.get(16..) {
        Some(data) => data,
        None => &[],
    }
}

// Returns at most this many of the first bytes.
pub(crate) fn front_of(bytes: &[u8], most: u32) -> &[u8]
    ensures { result.now ≡ take most bytes.now }
{
    match bytes.get(..most as usize) {
        Some(front) => front,
        None => bytes,
    }
}

// Returns the 16 bytes of a packet's header under a capture's header.
fn bytes_under(header: &PcapHeader, packet: &PacketHeader) -> [u8; 16]
    requires { IsTrue (is_magic header.now.magic_number) }
    ensures { let magic = header.now.magic_number in
        result ≡ packet_header_bytes (number_bytes (order_of magic)) (resolution_of magic) packet.now }
{
    let ts_resolution = header.ts_resolution();
    match header.endianness() {
        Endianness::Big => packet.to_bytes::<BigEndian>(ts_resolution),
        Endianness::Little => packet.to_bytes::<LittleEndian>(ts_resolution),
    }
}

// Writes a packet after these changes.
fn put_changed<W: Write>(
    output: &mut W,
    has_failed: &mut bool,
    changes: Changes,
    found: Found<'_>,
) -> ResultParsing<()>
    requires { IsTrue (is_magic found.header.now.magic_number) }
    ensures out { WritesAll (W.contents output.old) (W.contents output.new)
        (written_under (header_after found.entry.header.now changes) (changed (resolution_of found.entry.header.now.magic_number) changes (stored_of found.entry).packet)) result }
    ensures told { MatchResult result (λ _. has_failed.new ≡ has_failed.old) (λ _. has_failed.new ≡ true) }
{
    let head = changes.head_of(found.header.ts_resolution(), found.head);
    let header = header_in(changes.resolution, found.header);
    put(output, has_failed, &bytes_under(&header, &head))?;
    put(output, has_failed, changes.bytes_of(data_of(found.text)))
}

// Writes a packet: with its own bytes if nothing is changed, or else after these changes.
pub(crate) fn put_found<W: Write>(
    output: &mut W,
    has_failed: &mut bool,
    changes: Changes,
    found: Found<'_>,
) -> ResultParsing<()>
    requires { IsTrue (is_magic found.header.now.magic_number) }
    ensures out { WritesAll (W.contents output.old) (W.contents output.new)
        (text_after found.entry.header.now changes (stored_of found.entry)) result }
    ensures told { MatchResult result (λ _. has_failed.new ≡ has_failed.old) (λ _. has_failed.new ≡ true) }
{
    if changes.is_nothing() {
        return put(output, has_failed, found.text);
    }
    put_changed(output, has_failed, changes, found)
}
