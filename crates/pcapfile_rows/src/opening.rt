//! The header of a capture whose own one is lost.

ghost use Rattle.std.specs.Prelude.{◌≡◌, IsTrue};
ghost use Rattle.pcap_core.specs.Link.{Link};
ghost use Rattle.pcap_classic.specs.Magic.{is_magic, magic_for};
ghost use Rattle.pcap_classic.specs.Parser.{header_of};
ghost use Rattle.pcap_classic.specs.Written.{written_header};
ghost use Rattle.pcap_classic.specs.PacketText.{packet_limit};

use crate::lost::FirstSection;
use crate::packets::HEADER;
use crate::window::Window;
use byteorder::{BigEndian, LittleEndian};
use pcap_altered::is_transferred;
use pcap_damaged::{begins_near, head_at, resync};
use pcap_file::pcap::{PACKET_LIMIT, PcapHeader};
use pcap_file::{DataLink, Endianness, PcapParser, ResultParsing, TsResolution};
use pcap_variants::Variant;
use std::alloc::Global;
use std::io::BufRead;

/// The byte orders and resolutions of classic captures, in the order in which they are tried.
const KINDS: [(Endianness, TsResolution); 4] = [
    (Endianness::Little, TsResolution::MicroSecond),
    (Endianness::Big, TsResolution::MicroSecond),
    (Endianness::Little, TsResolution::NanoSecond),
    (Endianness::Big, TsResolution::NanoSecond),
];

/// The length of a packet's head, in bytes.
const HEAD: usize = 16;

/// The fewest packets in a row that make a guess.
const FEWEST: u64 = 4;

/// The link type that is assumed: Ethernet.
pub(crate) const ETHERNET: u32 = 1;

/// The first bytes of a section header after a text-mode transfer.
const TRANSFERRED_SECTION: [u8; 6] = [0x0D, 0x0A, 0x0D, 0x0D, 0x0D, 0x0A];

/// Where the header of a capture comes from, if it is lost.
#[derive(Clone, Copy)]
pub enum Opening {
    /// From the capture.
    Own,
    /// From the caller, before the first byte of a classic capture. A section header of a PcapNg capture has its byte order, and undescribed
    /// interfaces have its resolution and link type.
    Given(PcapHeader),
    /// From the packets, where the capture has none. The link type may be given. A text-mode transfer is undone.
    Guess(Option<u32>),
}

/// What was found at the beginning of a capture.
#[derive(Clone, Copy)]
pub struct Found {
    /// The header, if it was guessed.
    pub guessed: Option<Guessed>,
    /// Whether a text-mode transfer is undone.
    pub is_undone: bool,
    /// What became of the first section header of a PcapNg capture.
    pub section: FirstSection,
    /// The variant of classic captures, if the capture is of one.
    pub variant: Option<Variant>,
}

/// A run of packets.
#[derive(Clone, Copy)]
pub(crate) struct Run {
    /// The number of its packets.
    pub(crate) packets: u64,
    /// Whether it reaches the end of the capture.
    is_to_end: bool,
}

/// A header that was guessed.
#[derive(Clone, Copy)]
pub struct Guessed {
    /// Its byte order.
    pub order: Endianness,
    /// Its resolution.
    pub resolution: TsResolution,
    /// Its link type.
    pub link: u32,
    /// Whether the link type is assumed.
    pub is_link_assumed: bool,
}

impl Guessed {
    /// Returns the header.
    pub fn header(&self) -> PcapHeader
        ensures valid { IsTrue (is_magic result.magic_number) }
        ensures magic { result.magic_number ≡ magic_for self.now.order self.now.resolution }
        ensures link { Link self.now.link result.datalink }
        ensures snaplen { result.snaplen ≡ packet_limit }
    {
        header_for(self.order, self.resolution, self.link)
    }
}

/// Returns a header with this byte order, resolution and link type. Its snapshot length is the limit of a packet.
pub fn header_for(order: Endianness, resolution: TsResolution, link: u32) -> PcapHeader
    ensures valid { IsTrue (is_magic result.magic_number) }
    ensures magic { result.magic_number ≡ magic_for order resolution }
    ensures link { Link link result.datalink }
    ensures snaplen { result.snaplen ≡ packet_limit }
{
    let mut header = PcapHeader::default();
    header.set_endianness(order);
    header.set_ts_resolution(resolution);
    header.snaplen = PACKET_LIMIT;
    header.datalink = DataLink::from(link);
    header
}

/// Returns the bytes of a parser's header.
pub(crate) fn header_bytes(parser: &PcapParser) -> [u8; HEADER]
    ensures { result ≡ written_header (header_of parser.now) }
{
    let header = parser.header();
    match header.endianness() {
        Endianness::Big => header.to_bytes::<BigEndian>(),
        Endianness::Little => header.to_bytes::<LittleEndian>(),
    }
}

impl Run {
    /// No packets.
    const NONE: Run = Run {
        packets: 0,
        is_to_end: false,
    };

    // Returns whether the run has more packets than another one, or as many, and alone reaches the end of the capture.
    fn is_longer(&self, other: &Run) -> bool {
        self.packets > other.packets
            || self.packets == other.packets && self.is_to_end && !other.is_to_end
    }
}

/// Undoes a text-mode transfer of the capture in the window, if there was one: the capture then begins with a section header, or has a
/// longer run of packets. Returns whether it is undone.
pub(crate) fn undo_transfer<R: BufRead>(
    alloc: Global,
    window: &mut Window<R>,
    link: Option<u32>,
) -> ResultParsing<bool> {
    let sure = window.reach_row()?;
    let bytes = window.shown();
    let is_sure = !bytes.starts_with(&TRANSFERRED_SECTION);
    if is_sure && !is_transferred(bytes) {
        return Ok(false);
    }
    let behind = bytes.len().saturating_sub(sure);
    let own = longest_run(bytes, sure, link)?;
    let undone = window.undone(alloc)?;
    let bound = undone.bytes().len().saturating_sub(behind);
    if is_sure && !longest_run(undone.bytes(), bound, link)?.is_longer(&own) {
        return Ok(false);
    }
    window.put_undone(undone);
    Ok(true)
}

// Returns the longest run of packets in these bytes, under their own header, or under a guessed one if they have none.
fn longest_run(bytes: &[u8], bound: usize, link: Option<u32>) -> ResultParsing<Run> {
    match PcapParser::new(bytes) {
        Ok((rest, parser)) => Ok(run_of(&parser, rest, bound)),
        Err(_) => Ok(guess_in(bytes, bound, link)?.0),
    }
}

/// Returns the longest run of packets in these bytes under one of the headers, and this header, if one has a run.
pub(crate) fn guess_in(
    bytes: &[u8],
    bound: usize,
    link: Option<u32>,
) -> ResultParsing<(Run, Option<Guessed>)> {
    let mut longest = Run::NONE;
    let mut best = None;
    for (order, resolution) in KINDS {
        let guessed = Guessed {
            order,
            resolution,
            link: link.unwrap_or(ETHERNET),
            is_link_assumed: link.is_none(),
        };
        let parser = PcapParser::with_header(guessed.header())?;
        let run = run_of(&parser, bytes, bound);
        if run.packets >= FEWEST && run.packets > longest.packets {
            longest = run;
            best = Some(guessed);
        }
    }
    Ok((longest, best))
}

/// Returns the packets that follow each other from the first place at which packets go on.
pub(crate) fn run_of(parser: &PcapParser, bytes: &[u8], bound: usize) -> Run {
    let Some(mut at) = resync(parser, 0, bytes, bound) else {
        return Run::NONE;
    };
    let mut run = Run::NONE;
    for _ in 0..u64::MAX {
        let left = bytes.get(at..).unwrap_or_default();
        let Some((head, _data)) = head_at(parser, left) else {
            break;
        };
        let end = HEAD.saturating_add(head.included as usize);
        let Some(behind) = left.get(end..) else {
            break;
        };
        run.packets = run.packets.saturating_add(1);
        run.is_to_end = behind.is_empty();
        if !begins_near(parser, head.seconds, behind) {
            break;
        }
        at = at.saturating_add(end);
    }
    run
}
