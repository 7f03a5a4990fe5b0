//! Finds where classic captures in memory can be cut into parts.

ghost use Rattle.std.specs.Prelude.{◌≡◌, ◌≤◌, ◌-◌, pos, length, max, take, drop};
ghost use Rattle.pcap_classic.specs.PacketText.{packet_limit};
ghost use Rattle.pcap_classic.specs.Packets.{format_under};
ghost use Rattle.pcap_classic.specs.Parser.{header_of};
ghost use Rattle.pcap_parts.specs.declared.parting.Parting.TheVariants as partings;
ghost use Rattle.pcap_parts.specs.Parts.{AreCuts};
ghost use Rattle.pcap_parts.specs.Partings.{AreAskedFor, AsksSome};
ghost use Rattle.pcapfile_c.specs.Cuts.{HasRoom, MayLackPlaces, TellsCuts};
ghost use Rattle.pcapfile_c.specs.Readers.{target};

use pcap_classic::pcap::PcapParser;
use pcap_parts::{Cut, Parting, Passed, skip_packets};
use pcapfile_values::errors::{PcapfileError, tell};
use pcapfile_values::shown::PcapfileBytes;

/// Finds where a classic capture can be cut between packets into parts of about equal length, at most as many as `cuts` has places. The
/// first part begins after the header. Each other one begins at the first packet boundary at or after the end of an equal share, if bytes
/// follow there. `count` is set to the number of cuts. The cuts are `pcapfile_cut` in C.
#[unsafe(no_mangle)]
pub extern "C" fn pcapfile_cut_packets(
    capture: &PcapfileBytes<'_>,
    cuts: &mut [Cut],
    count: &mut usize,
    error: &mut PcapfileError,
) -> i32
    ensures told { TellsCuts (partings.Equal (length cuts.old)) capture.now.bytes.now (target cuts.old error.old)
        (target cuts.new error.new) count.new result }
    ensures lacking { MayLackPlaces (partings.Equal (length cuts.old)) capture.now.bytes.now cuts.old → result ≡ pos 11 }
{
    *count = 0;
    if cuts.is_empty() {
        return 11;
    }
    fill_cuts(capture, Parting::Equal(cuts.len()), cuts, count, error)
}

/// Finds where a classic capture can be cut between packets into parts of at least `at_least` bytes, where 0 counts as 1. Each part but
/// the last would be too short without its last packet. `count` is set to the number of cuts. Status 11: the number of places times that
/// length is at most the length of the capture.
#[unsafe(no_mangle)]
pub extern "C" fn pcapfile_cut_packets_at_least(
    capture: &PcapfileBytes<'_>,
    at_least: usize,
    cuts: &mut [Cut],
    count: &mut usize,
    error: &mut PcapfileError,
) -> i32
    ensures told { TellsCuts (partings.AtLeast (max at_least 1)) capture.now.bytes.now (target cuts.old error.old)
        (target cuts.new error.new) count.new result }
    ensures lacking { MayLackPlaces (partings.AtLeast (max at_least 1)) capture.now.bytes.now cuts.old → result ≡ pos 11 }
{
    *count = 0;
    let wanted = at_least.max(1);
    if cuts.len().saturating_mul(wanted) <= capture.bytes.len() {
        return 11;
    }
    fill_cuts(capture, Parting::AtLeast(wanted), cuts, count, error)
}

// Writes the requested cuts into the first places. `cuts` must have room for every cut.
fn fill_cuts(
    capture: &PcapfileBytes<'_>,
    parting: Parting,
    cuts: &mut [Cut],
    count: &mut usize,
    error: &mut PcapfileError,
) -> i32
    requires none { count.old ≡ 0 }
    requires some { AsksSome parting }
    requires room { HasRoom parting (length capture.now.bytes.now) (length cuts.old) }
    ensures { TellsCuts parting capture.now.bytes.now (target cuts.old error.old) (target cuts.new error.new) count.new result }
{
    match PcapParser::new(capture.bytes) {
        Ok((after, parser)) => {
            *count = cut_packets(&parser, after, capture.bytes.len(), parting, cuts);
            0
        }
        Err(e) => tell(&e, error),
    }
}

// Writes where the parts of the packets after a header begin into the first places, and returns how many they are. The slice ends at byte
// `total` of the capture.
fn cut_packets(
    parser: &PcapParser,
    slice: &[u8],
    total: usize,
    parting: Parting,
    cuts: &mut [Cut],
) -> usize
    requires within { length slice.now ≤ total }
    requires some { AsksSome parting }
    requires room { HasRoom parting total (length cuts.old) }
    ensures cuts { AreCuts (format_under packet_limit (header_of parser.now)) tt slice.now (total - length slice.now) total (take result cuts.new) }
    ensures asked { AreAskedFor (format_under packet_limit (header_of parser.now)) tt slice.now total parting (take result cuts.new) }
    ensures filled { result ≤ length cuts.new }
    ensures others { drop result cuts.new ≡ drop result cuts.old }
{
    cuts[0] = Cut {
        offset: total - slice.len(),
        before: 0,
    };
    let mut count = 1;
    let mut before = 0;
    let mut left = slice;
    while let Some(wanted) = parting.wanted(slice.len() - left.len(), slice.len()) {
        let Passed { items, after, rest } = skip_packets(parser, left, wanted);
        match rest {
            Some(_) => return count,
            None => {
                if after.is_empty() {
                    return count;
                }
                before += items;
                left = after;
                cuts[count] = Cut {
                    offset: total - left.len(),
                    before,
                };
                count += 1;
            }
        }
    }
    count
}
