//! Plausible packets in a row.

ghost use Rattle.std.specs.Prelude.{◌↔◌, IsTrue};
ghost use Rattle.pcap_classic.specs.Parser.{header_of};
ghost use Rattle.pcap_damaged.specs.Plausible.{PlausibleRow};

use crate::heads::is_plausible;
use pcap_classic::pcap::PcapParser;

// Returns whether `k` plausible packets follow each other from the front of the slice, or fewer, at least one, to its end. The
// first is near `time`, or has seconds larger than any length.
pub(crate) fn is_row(parser: &PcapParser, time: Option<u32>, slice: &[u8], k: usize) -> bool
    ensures { IsTrue result ↔ PlausibleRow (header_of parser.now) time k slice.now }
{
    let mut left = slice;
    let mut time_here = time;
    let mut more = k;
    while more > 0 {
        match parser.next_packet(left) {
            Ok((rest, packet)) => {
                if !is_plausible(parser, time_here, &packet) {
                    return false;
                }
                if rest.len() == 0 {
                    return true;
                }
                left = rest;
                time_here = Some(packet.header.ts_sec);
                more -= 1;
            }
            Err(_e) => return false,
        }
    }
    true
}
