//! Reads classic captures that come in pieces, from a buffer of the caller (the room).

ghost use Rattle.std.specs.Prelude.{◌≡◌, ◌≤◌, ◌↔◌, false, IsTrue};
ghost use Rattle.pcap_classic.specs.Magic.{is_magic};
ghost use Rattle.pcapfile_c.specs.Push.{LiesWithin, MakesSpace, MovesToFront, Puts, TakesFront, TakesNext};
ghost use Rattle.pcapfile_c.specs.Readers.{header_reader, reader};

use crate::pcap::{next_packet, pcapfile_take_header, take_slowly};
use pcapfile_values::errors::PcapfileError;
use pcapfile_values::shown::{PcapfileBytes, PcapfileHeader, PcapfilePacket};

/// What the reader keeps between two calls on a capture that comes in pieces. Its bytes are in the caller's room, which the caller passes
/// to each call. In C: `pcapfile_push`.
#[repr(C)]
#[derive(Clone, Copy)]
pub struct PcapfilePush {
    /// The capture's header. Its magic number is 0 until a call reads it.
    pub header: PcapfileHeader,
    /// Where the held bytes begin in the room: those that came and haven't been read yet.
    pub begin: usize,
    /// Where the held bytes end in the room. The caller puts more bytes there.
    pub end: usize,
}

/// Makes room for `wanted` more bytes after the held ones. If they don't fit, moves the held bytes to the front of the room first. Status
/// 0: they fit. Status 9: they still don't fit, and `error.missing` is how many bytes longer the room must be. Status 10: the held bytes
/// are outside of the room, and nothing changed.
#[unsafe(no_mangle)]
pub extern "C" fn pcapfile_push_space(
    push: &mut PcapfilePush,
    room: &mut [u8],
    wanted: usize,
    error: &mut PcapfileError,
) -> i32
    ensures { MakesSpace wanted (reader push.old room.old error.old) (reader push.new room.new error.new) result }
{
    if !push.lies_within(room.len()) {
        return 10;
    }
    if wanted <= room.len() - push.end {
        return 0;
    }
    push.move_to_front(room);
    let free = room.len() - push.end;
    if wanted <= free {
        return 0;
    }
    *error = PcapfileError {
        rule: 0,
        missing: wanted - free,
    };
    9
}

/// Adds the `count` bytes that the caller put after the held ones to these. Status 0: they are held too. Status 10: they exceed the room,
/// or the held bytes are outside of it, and nothing changed.
#[unsafe(no_mangle)]
pub extern "C" fn pcapfile_push_put(push: &mut PcapfilePush, room: &[u8], count: usize) -> i32
    ensures { Puts push.old push.new room.now count result }
{
    if !push.lies_within(room.len()) || room.len() - push.end < count {
        return 10;
    }
    push.end += count;
    0
}

/// Reads the packet at the front of the held bytes, and the capture's header before it if that wasn't read yet. The packet's bytes are
/// borrowed from the room. Status 0: `packet` is set. Statuses 1 and 3: as for `pcapfile_take_packet`, or for `pcapfile_take_header` if
/// the header is refused. `packet` is then unchanged, and at most a header was read. Status 10: the held bytes are outside of the room,
/// and nothing changed.
#[unsafe(no_mangle)]
pub extern "C" fn pcapfile_push_next<'a>(
    push: &mut PcapfilePush,
    room: &'a [u8],
    packet: &mut PcapfilePacket<'a>,
    error: &mut PcapfileError,
) -> i32
    ensures { TakesNext room.now (reader push.old packet.old error.old) (reader push.new packet.new error.new) result }
{
    let Some(held) = room.get(push.begin..push.end) else {
        return 10;
    };
    let mut left = PcapfileBytes { bytes: held };
    let status = take_front(&mut push.header, &mut left, packet, error);
    push.begin = push.end - left.bytes.len();
    status
}

// Reads the packet at the front of `left`, and the header before it if `header` has none yet.
#[inline(always)]
pub(crate) fn take_front<'a>(
    header: &mut PcapfileHeader,
    left: &mut PcapfileBytes<'a>,
    packet: &mut PcapfilePacket<'a>,
    error: &mut PcapfileError,
) -> i32
    ensures { TakesFront (header_reader header.old left.old.bytes.now packet.old error.old)
        (header_reader header.new left.new.bytes.now packet.new error.new) result }
{
    match header.kind() {
        Some((endianness, resolution)) => {
            next_packet(header, endianness, resolution, left, packet, error)
        }
        None => take_first(header, left, packet, error),
    }
}

// Reads the header at the front of `left`, and the packet after it.
#[cold]
#[inline(never)]
fn take_first<'a>(
    header: &mut PcapfileHeader,
    left: &mut PcapfileBytes<'a>,
    packet: &mut PcapfilePacket<'a>,
    error: &mut PcapfileError,
) -> i32
    requires { is_magic header.old.magic_number ≡ false }
    ensures { TakesFront (header_reader header.old left.old.bytes.now packet.old error.old)
        (header_reader header.new left.new.bytes.now packet.new error.new) result }
{
    let status = pcapfile_take_header(left, header, error);
    if status != 0 {
        return status;
    }
    take_slowly(header, left, packet, error)
}

impl PcapfilePush {
    // Returns whether the held bytes are within a room of this length.
    fn lies_within(&self, len: usize) -> bool
        ensures { IsTrue result ↔ (self.now.begin ≤ self.now.end) × (self.now.end ≤ len) }
    {
        self.begin <= self.end && self.end <= len
    }

    // Moves the held bytes to the front of the room.
    fn move_to_front(&mut self, room: &mut [u8])
        requires { LiesWithin self.old room.old }
        ensures { MovesToFront self.old self.new room.old room.new }
    {
        room.copy_within(self.begin..self.end, 0);
        self.end -= self.begin;
        self.begin = 0;
    }
}
