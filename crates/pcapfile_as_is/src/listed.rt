//! Lines for packets that are read leniently.

ghost use Rattle.std.specs.Prelude.{◌≡◌, ◌≤◌, ◌+◌, ◌++◌, [], length, drop, if◌then◌else◌};
ghost use Rattle.pcap_tolerant.specs.AsIs.{as_it_is};
ghost use Rattle.pcapfile_as_is.specs.Lists.{as_is_line, marks_text};

use crate::counted::Spot;
use crate::teller::Teller;
use pcap_classic::TsResolution;
use pcap_program::{Exit, ROOM, put_byte, put_line, put_nine_digits, put_number, put_word};
use pcap_tolerant::{Flaws, PacketAsIs};
use std::alloc::Global;
use std::io::Write;

/// A writer of a line for each packet: its number, its time in seconds and nanoseconds, its stored and original length, and then ` !`
/// and the number of each rule that it breaks.
#[derive(Clone, Copy, Debug, Drop)]
pub struct PacketLines;

// Puts the mark of a rule, if it is broken, before the text that begins at `end`, and returns the new beginning.
fn put_mark(room: &mut [u8; ROOM], end: usize, is_broken: bool, mark: &str) -> usize
    requires { (length mark.now ≡ 3) × (3 ≤ end) × (end ≤ 126) }
    ensures start { (result ≤ end) × (end ≤ result + 3) }
    ensures text { drop result room.new ≡ (if is_broken then mark.now else []) ++ drop end room.old }
{
    if is_broken {
        return put_word(room, end, mark);
    }
    end
}

// Writes the end of a line, with marks for the broken rules, and returns where it begins.
fn put_marks(room: &mut [u8; ROOM], flaws: Flaws) -> usize
    ensures start { (113 ≤ result) × (result ≤ 126) }
    ensures text { drop result room.new ≡ marks_text flaws }
{
    let start = put_byte(room, ROOM, b'\n');
    let start = put_mark(room, start, flaws.included_past_original, " !5");
    let start = put_mark(room, start, flaws.original_too_long, " !4");
    let start = put_mark(room, start, flaws.included_too_long, " !3");
    put_mark(room, start, flaws.fraction_too_large, " !2")
}

// Writes the line of the packet with this number into the end of the buffer, and returns where the line begins.
fn make_line(
    room: &mut [u8; ROOM],
    ts_resolution: TsResolution,
    number: u64,
    packet: &PacketAsIs<'_>,
) -> usize
    ensures within { result ≤ 126 }
    ensures line { drop result room.new ≡ as_is_line ts_resolution number (as_it_is packet.now) }
{
    let time = packet.timestamp(ts_resolution);
    let start = put_marks(room, packet.flaws);
    let start = put_number(room, start, u64::from(packet.orig_len));
    let start = put_byte(room, start, b'/');
    let start = put_number(room, start, u64::from(packet.incl_len));
    let start = put_byte(room, start, b' ');
    let start = put_nine_digits(room, start, time.subsec_nanos());
    let start = put_byte(room, start, b'.');
    let start = put_number(room, start, time.as_secs());
    let start = put_byte(room, start, b' ');
    put_number(room, start, number)
}

impl Teller for PacketLines {
    ghost Setting = { Unit {0} };

    ghost setting = { λ lines. tt };

    ghost text = { λ setting r number place packet. as_is_line r number packet };

    fn put<W: Write>(
        &mut self,
        alloc: Global,
        output: &mut W,
        ts_resolution: TsResolution,
        at: Spot,
        packet: &PacketAsIs<'_>,
    ) -> Result<(), Exit> {
        let mut room = [0; ROOM];
        let start = make_line(&mut room, ts_resolution, at.number, packet);
        put_line(output, &room[start..])
    }
}
