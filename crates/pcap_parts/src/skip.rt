//! Skips whole packets of a classic capture.

ghost use Rattle.pcap_classic.specs.PacketText.{packet_limit, PacketSays};
ghost use Rattle.pcap_classic.specs.Packets.{format_under, packet_format};
ghost use Rattle.pcap_classic.specs.Parser.{header_of};
ghost use Rattle.pcap_items.specs.Run.{rest_after};
ghost use Rattle.pcap_parts.specs.Parts.{EndsPassing, PassesOne, Passes};
ghost use Rattle.std.specs.Prelude.{◌≡◌, ◌≤◌, ◌+◌, length};

use byteorder::{BigEndian, ByteOrder, LittleEndian};
use pcap_classic::TsResolution;
use pcap_classic::pcap::{PacketHeader, PcapParser};
use pcap_core::{Endianness, PcapError, ResultParsing};
use pcap_items::Rest;

/// The items that a call skipped, and why it skipped no more.
#[derive(Debug, Drop)]
pub struct Passed<'a> {
    /// The number of items.
    pub items: usize,
    /// The bytes behind them.
    pub after: &'a [u8],
    /// The reason why no item follows, if fewer bytes than wanted were skipped. `None` if enough bytes were skipped.
    pub rest: Option<Rest>,
}

// Returns the rest at which the parser returned this error.
fn rest_at(error: PcapError) -> Rest
    ensures { result ≡ rest_after error }
{
    match error {
        PcapError::IncompleteBuffer(n) => Rest::Needs(n),
        error => Rest::Refused(error),
    }
}

// Returns the rest after `at_least` of these bytes were skipped, or all of them if there are fewer.
pub(crate) fn rest_of_all(bytes: usize, at_least: usize) -> Option<Rest>
    ensures { EndsPassing bytes at_least result }
{
    if at_least > bytes {
        Some(Rest::Clean)
    } else {
        None
    }
}

// Returns the bytes behind the packet at the front of a slice.
#[inline(always)]
fn after_packet<'a, B: ByteOrder>(slice: &'a [u8], r: TsResolution) -> ResultParsing<&'a [u8]>
    ensures { PassesOne (PacketSays packet_limit B.number_of r slice.now) result }
{
    let (rest, header) = PacketHeader::from_slice::<B>(slice, r)?;
    let len = header.incl_len as usize;
    if rest.len() < len {
        return Err(PcapError::IncompleteBuffer(len - rest.len()));
    }
    let (bytes, after) = rest.split_at(len);
    Ok(after)
}

// Skips whole packets in this byte order, until at least `at_least` bytes are skipped.
fn skip_in<'a, B: ByteOrder>(r: TsResolution, slice: &'a [u8], at_least: usize) -> Passed<'a>
    ensures passes { Passes (packet_format packet_limit B.number_of r) tt slice.now result.after.now at_least result.items result.rest }
    ensures few { result.items + length result.after.now ≤ length slice.now }
{
    let last = slice.len().saturating_sub(at_least);
    let mut items = 0;
    let mut after = slice;
    while after.len() > last {
        match after_packet::<B>(after, r) {
            Ok(next) => {
                after = next;
                items += 1;
            }
            Err(error) => {
                return Passed {
                    items,
                    after,
                    rest: Some(rest_at(error)),
                };
            }
        }
    }
    Passed {
        items,
        after,
        rest: rest_of_all(slice.len(), at_least),
    }
}

/// Skips whole packets at the front of a slice, up to the first packet boundary at which at least `at_least` bytes are skipped. If
/// the whole packets have fewer bytes, all of them are skipped. The call keeps nothing and returns no error: `rest` says why no packet
/// follows, as the rest of `run::parse_pcap` does.
pub fn skip_packets<'a>(parser: &PcapParser, slice: &'a [u8], at_least: usize) -> Passed<'a>
    ensures passes { Passes (format_under packet_limit (header_of parser.now)) tt slice.now result.after.now at_least result.items result.rest }
    ensures few { result.items + length result.after.now ≤ length slice.now }
{
    let r = parser.header().ts_resolution();
    match parser.header().endianness() {
        Endianness::Big => skip_in::<BigEndian>(r, slice, at_least),
        Endianness::Little => skip_in::<LittleEndian>(r, slice, at_least),
    }
}
