//! Whole packets that follow each other in a buffer, and are written directly from it.

ghost use Rattle.std.specs.Prelude.{IsTrue};
ghost use Rattle.pcap_classic.specs.Magic.{is_magic};
ghost use Rattle.pcap_classic.specs.Stretches.{TakesWhole, Sends};
ghost use Rattle.pcap_classic.specs.Written.{written_under};

use crate::pcap::{PcapHeader, packet_under, put_packet};
use pcap_core::PcapError;
use pcap_items::stream::{Torn, put_or_tear};
use std::io::Write;

// The part of a buffer that was written.
pub(crate) struct Went<'a> {
    // The number of whole packets that were written.
    pub(crate) packets: u64,
    // The bytes after them, and after the packet in which a write failed.
    pub(crate) rest: &'a [u8],
    // The error of the write that failed.
    pub(crate) fault: Option<PcapError>,
}

// Writes the whole packets at the front of a buffer, at most `most` of them.
pub(crate) fn put_front<'a, W: Write>(
    writer: &mut W,
    has_failed: &mut bool,
    header: &PcapHeader,
    out: &PcapHeader,
    shown: &'a [u8],
    most: u64,
) -> Went<'a>
    requires read { IsTrue (is_magic header.now.magic_number) }
    requires written { IsTrue (is_magic out.now.magic_number) }
    ensures { Sends header.now (written_under out.now) shown.now result.rest.now
        (W.contents writer.old) (W.contents writer.new) most result.packets has_failed.old has_failed.new result.fault }
{
    if header.magic_number == out.magic_number {
        put_stretch(writer, has_failed, header, shown, most)
    } else {
        put_each(writer, has_failed, header, out, shown, most)
    }
}

// Writes the packets one by one.
fn put_each<'a, W: Write>(
    writer: &mut W,
    has_failed: &mut bool,
    header: &PcapHeader,
    out: &PcapHeader,
    shown: &'a [u8],
    most: u64,
) -> Went<'a>
    requires read { IsTrue (is_magic header.now.magic_number) }
    requires written { IsTrue (is_magic out.now.magic_number) }
    ensures { Sends header.now (written_under out.now) shown.now result.rest.now
        (W.contents writer.old) (W.contents writer.new) most result.packets has_failed.old has_failed.new result.fault }
{
    let mut packets = 0;
    let mut rest = shown;
    while packets < most {
        let Ok((after, packet)) = packet_under(header, rest) else {
            return Went {
                packets,
                rest,
                fault: None,
            };
        };
        rest = after;
        if let Err(error) = put_packet(writer, has_failed, out, &packet) {
            return Went {
                packets,
                rest,
                fault: Some(error),
            };
        }
        packets += 1;
    }
    Went {
        packets,
        rest,
        fault: None,
    }
}

// Writes the packets at once, unchanged.
fn put_stretch<'a, W: Write>(
    writer: &mut W,
    has_failed: &mut bool,
    header: &PcapHeader,
    shown: &'a [u8],
    most: u64,
) -> Went<'a>
    requires read { IsTrue (is_magic header.now.magic_number) }
    ensures { Sends header.now (written_under header.now) shown.now result.rest.now
        (W.contents writer.old) (W.contents writer.new) most result.packets has_failed.old has_failed.new result.fault }
{
    let (packets, rest) = whole_packets(header, shown, most);
    let stretch = &shown[..shown.len() - rest.len()];
    match put_or_tear(writer, has_failed, stretch) {
        Ok(()) => Went {
            packets,
            rest,
            fault: None,
        },
        Err(Torn { gone, error }) => {
            let (packets, begun) = whole_packets(header, &shown[..gone], most);
            let (_, rest) = whole_packets(header, &shown[gone - begun.len()..], 1);
            Went {
                packets,
                rest,
                fault: Some(error),
            }
        }
    }
}

// Returns the number of whole packets at the front of the bytes, at most `most`, and the bytes after them.
#[inline(never)]
fn whole_packets<'a>(header: &PcapHeader, bytes: &'a [u8], most: u64) -> (u64, &'a [u8])
    requires { IsTrue (is_magic header.now.magic_number) }
    ensures { TakesWhole header.now bytes.now result.1.now most result.0 }
{
    let mut packets = 0;
    let mut rest = bytes;
    while packets < most {
        let Ok((after, _)) = packet_under(header, rest) else {
            return (packets, rest);
        };
        rest = after;
        packets += 1;
    }
    (packets, rest)
}
