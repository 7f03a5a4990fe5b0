//! Resynchronization after corrupt bytes in a classic capture.

ghost use Rattle.std.specs.Prelude.{◌↔◌, IsTrue};
ghost use Rattle.pcap_classic.specs.Parser.{header_of};
ghost use Rattle.pcap_tolerant.specs.Resync.{PacketRow, PacketsResync};

use pcap_classic::pcap::PcapParser;

// Returns whether `k` packets with data follow each other from the front of the slice, or fewer, at least one, to its end.
fn stands(parser: &PcapParser, slice: &[u8], k: usize) -> bool
    ensures { IsTrue result ↔ PacketRow (header_of parser.now) k slice.now }
{
    let mut left = slice;
    let mut more = k;
    while more > 0 {
        match parser.next_packet(left) {
            Ok((rest, packet)) => {
                if packet.header.incl_len == 0 {
                    return false;
                }
                if rest.len() == 0 {
                    return true;
                }
                left = rest;
                more -= 1;
            }
            Err(_e) => return false,
        }
    }
    true
}

/// Returns the first place from which `k` packets with data follow each other and break no rule, or None. Fewer packets, at
/// least one, are enough if they reach the end of the slice. The result is a guess, since corrupt bytes may look like packets.
pub fn resync(parser: &PcapParser, slice: &[u8], k: usize) -> Option<usize>
    ensures { PacketsResync (header_of parser.now) k slice.now result }
{
    let mut at = 0;
    while at < slice.len() {
        if stands(parser, &slice[at..], k) {
            return Some(at);
        }
        at += 1;
    }
    None
}
