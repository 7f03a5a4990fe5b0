//! The lines of packets.

ghost use Rattle.std.specs.Prelude.{◌≡◌, ◌+◌, ◌≤◌, ◌++◌, drop};
ghost use Rattle.std.specs.Fmt.{decimal};
ghost use Rattle.capcopy_run.specs.PacketLines.{packet_line};

use pcap_file::pcap::PacketHeader;
use pcap_program::{ROOM, put_byte, put_nine_digits, put_number};

// Puts seconds before the text that begins at `end`. Times since March 1973 have at least nine digits.
#[inline(always)]
fn put_seconds(room: &mut [u8; ROOM], end: usize, seconds: u32) -> usize
    requires { (20 ≤ end) × (end ≤ 126) }
    ensures start { (result ≤ end) × (end ≤ result + 20) }
    ensures text { drop result room.new ≡ decimal seconds ++ drop end room.old }
{
    if seconds < 100_000_000 {
        return put_number(room, end, u64::from(seconds));
    }
    put_nine_digits(room, end, seconds)
}

/// Writes the line of the packet at this index into the end of the buffer, and returns where the line begins.
#[inline(always)]
pub(crate) fn make_line(room: &mut [u8; ROOM], index: u64, header: PacketHeader) -> usize
    ensures within { result ≤ 126 }
    ensures line { drop result room.new ≡ packet_line index header }
{
    let start = put_byte(room, ROOM, b'\n');
    let start = put_number(room, start, u64::from(header.orig_len));
    let start = put_byte(room, start, b'/');
    let start = put_number(room, start, u64::from(header.incl_len));
    let start = put_byte(room, start, b' ');
    let start = put_nine_digits(room, start, header.ts_nsec);
    let start = put_byte(room, start, b'.');
    let start = put_seconds(room, start, header.ts_sec);
    let start = put_byte(room, start, b' ');
    put_number(room, start, index)
}
