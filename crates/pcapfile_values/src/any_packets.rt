//! Packets of a capture of either format, as a program in C sees them.

ghost use Rattle.std.specs.Prelude.{◌≡◌, take};
ghost use Rattle.std.specs.List.{slice_get};
ghost use Rattle.pcapfile_values.specs.AnyPackets.{stored_bytes, TellsPacketTime, ShowsAlone, ShowsOfInterface, ShowsAny, ShowsCaptured};
ghost use Rattle.pcapfile_values.specs.Bodies.{clock_shown};
ghost use Rattle.pcapfile_values.specs.Shown.{captured};

use crate::blocks::PcapfileSection;
use crate::bodies::{PcapfileInterface, PcapfileNgPacket, PcapfileTime};
use crate::shown::{PcapfileHeader, PcapfilePacket};

/// A packet of a capture of either format, whose bytes are borrowed from the capture. In C: `pcapfile_any_packet`.
#[repr(C)]
#[derive(Clone, Copy)]
pub struct PcapfileAnyPacket<'a> {
    /// The number of the link type of the packet's first layer, or 0 if the packet has no interface.
    pub link: u32,
    pub interface_id: u32,
    /// 1, or 0 if the section doesn't have an interface of this number.
    pub has_interface: u8,
    /// 1, or 0 for a simple packet, for a packet without an interface, and for a time whose seconds don't fit 64 bits.
    pub has_time: u8,
    pub orig_len: u32,
    pub time: PcapfileTime,
    /// The stored bytes of the packet, without padding.
    pub bytes: &'a [u8],
}

impl PcapfileSection {
    // Returns the interface of this number, if the section has it so far.
    #[inline(always)]
    pub(crate) fn interface_at(
        &self,
        interfaces: &[PcapfileInterface],
        id: u32,
    ) -> Option<PcapfileInterface>
        ensures { result ≡ slice_get (take self.now.interfaces interfaces.now) id }
    {
        if id < self.interfaces {
            interfaces.get(id as usize).copied()
        } else {
            None
        }
    }
}

impl<'a> PcapfileAnyPacket<'a> {
    /// Returns the struct for a packet of a classic capture with this header.
    pub fn of_capture(packet: &PcapfilePacket<'a>, header: &PcapfileHeader) -> PcapfileAnyPacket<'a>
        ensures { ShowsCaptured header.now.link (captured packet.now) result }
    {
        PcapfileAnyPacket {
            link: header.link,
            interface_id: 0,
            has_interface: 1,
            has_time: 1,
            orig_len: packet.orig_len,
            time: PcapfileTime {
                seconds: i64::from(packet.ts_sec),
                nanoseconds: packet.ts_nsec,
            },
            bytes: packet.bytes,
        }
    }

    /// Returns the struct for a packet of a section, whose interfaces are in the first places of `interfaces`.
    #[inline(always)]
    pub fn new(
        packet: PcapfileNgPacket<'a>,
        section: &PcapfileSection,
        interfaces: &[PcapfileInterface],
    ) -> PcapfileAnyPacket<'a>
        ensures { ShowsAny (slice_get (take section.now.interfaces interfaces.now) packet.entry.interface_id) packet.entry result }
    {
        match section.interface_at(interfaces, packet.interface_id) {
            Some(interface) => PcapfileAnyPacket::of_interface(packet, interface),
            None => PcapfileAnyPacket::alone(packet),
        }
    }

    // Returns the struct for a packet of this interface.
    #[inline(always)]
    fn of_interface(
        packet: PcapfileNgPacket<'a>,
        interface: PcapfileInterface,
    ) -> PcapfileAnyPacket<'a>
        ensures { ShowsOfInterface interface packet.entry result }
    {
        let (has_time, time) = time_in(&packet, &interface);
        PcapfileAnyPacket {
            link: interface.link,
            interface_id: packet.interface_id,
            has_interface: 1,
            has_time,
            orig_len: packet.orig_len,
            time,
            bytes: stored(packet, interface.snaplen),
        }
    }

    // Returns the struct for a packet without an interface.
    fn alone(packet: PcapfileNgPacket<'a>) -> PcapfileAnyPacket<'a>
        ensures { ShowsAlone packet.entry result }
    {
        PcapfileAnyPacket {
            link: 0,
            interface_id: packet.interface_id,
            has_interface: 0,
            has_time: 0,
            orig_len: packet.orig_len,
            time: NO_TIME,
            bytes: stored(packet, 0),
        }
    }
}

const NO_TIME: PcapfileTime = PcapfileTime {
    seconds: 0,
    nanoseconds: 0,
};

// The block type number of a simple packet.
const SIMPLE: u32 = 3;

// Returns the stored bytes of a packet. In a simple packet, padding may follow them.
#[inline(always)]
fn stored<'a>(packet: PcapfileNgPacket<'a>, snaplen: u32) -> &'a [u8]
    ensures { result.now ≡ stored_bytes packet.entry snaplen }
{
    if packet.type_ != SIMPLE {
        return packet.bytes;
    }
    let len = if snaplen == 0 {
        packet.orig_len
    } else {
        packet.orig_len.min(snaplen)
    };
    &packet.bytes[..packet.bytes.len().min(len as usize)]
}

// Returns 1 and the time of a packet by the clock of its interface, or 0 if it has no time.
#[inline(always)]
fn time_in(packet: &PcapfileNgPacket<'_>, interface: &PcapfileInterface) -> (u8, PcapfileTime)
    ensures { TellsPacketTime (clock_shown interface.now) packet.now result.0 result.1 }
{
    if packet.type_ == SIMPLE {
        return (0, NO_TIME);
    }
    match interface.time_at(packet.timestamp) {
        Some(time) => (1, time),
        None => (0, NO_TIME),
    }
}
