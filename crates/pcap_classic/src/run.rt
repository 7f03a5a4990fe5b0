//! Functions that read or copy a whole capture in one call.

mod buffered;
mod copy;
mod exact;
mod items;
mod pieces;
mod stretch;

ghost use Rattle.std.specs.Prelude.{◌⊎◌, ⊤, All, IfOk, IfErr, IfSome};
ghost use Rattle.pcap_core.specs.Answer.{Refuses};
ghost use Rattle.pcap_core.specs.Bytes.{IsBorrowed, IsOwned};
ghost use Rattle.pcap_classic.specs.Captures.{TakesCapture, ReadsCapture};
ghost use Rattle.pcap_core.specs.Errors.{IsMemory, IsIo};
ghost use Rattle.pcap_core.specs.Faults.{Shows};
ghost use Rattle.pcap_classic.specs.HeaderText.{LacksHeader, HasHeaderFault, HeaderSays};
ghost use Rattle.pcap_items.specs.Reading.{IsFaultOf};
ghost use Rattle.pcap_classic.specs.Run.{IsRun, HasPacket};

use crate::pcap::{Packet, PcapHeader, PcapParser, PcapReader};
pub use buffered::copy_buffered;
pub use copy::{Copied, PacketsAhead, PutsPacket, Under, copy_pcap, end_copy};
pub use exact::exact_pcap;
use pcap_core::{PcapError, ResultParsing};
pub use pcap_items::Rest;
use pcap_items::run::{parse_items, read_items};
pub use pcap_items::run::{Window, pieces_fit};
pub use pieces::pieces_pcap;
use std::alloc::Global;
use std::io::Read;

/// A capture's header and packets, the number of bytes that they take, and the state of the rest.
#[derive(Debug, Drop)]
pub struct PcapRun<'a> {
    /// The capture's header.
    pub header: PcapHeader,
    /// The packets, in order.
    pub packets: Vec<Packet<'a>>,
    /// The number of bytes that the header and the packets take.
    pub used: usize,
    /// The state of the bytes after the last packet: nothing, a truncated packet record, or a malformed one.
    pub rest: Rest,
}

/// Reads a whole capture from one slice: its header, all packets of its front, and the state of the rest.
///
/// Returns the header's error if the header is truncated or malformed. `OutOfMemory` if the list of packets can't grow.
pub fn parse_pcap<'a>(alloc: Global, bytes: &'a [u8]) -> ResultParsing<PcapRun<'a>>
    ensures front { IfOk result (λ run. IsRun run bytes.now) }
    ensures borrowed { IfOk result (λ run. All (λ packet. IsBorrowed packet.data_) run.packets.items) }
    ensures refused { IfErr result (Refuses ⊤ (LacksHeader bytes.now) (HasHeaderFault bytes.now)) }
    ensures memory { IfErr result (λ e. IsMemory e → HasPacket bytes.now) }
{
    let (after_header, mut parser) = PcapParser::new(bytes)?;
    let run = parse_items(alloc, &mut parser, after_header)?;
    Ok(PcapRun {
        header: *parser.header(),
        packets: run.items,
        used: bytes.len() - after_header.len() + run.used,
        rest: Rest::from(run.ended),
    })
}

/// A capture's header and packets read from a stream, why the packets end, and whether a read failed.
#[derive(Debug, Drop)]
pub struct PcapRead {
    /// The capture's header.
    pub header: PcapHeader,
    /// The packets, in order.
    pub packets: Vec<Packet<'static>>,
    /// The error that ended the packets. None if the stream ended after a packet, or the limit was reached.
    pub fault: Option<PcapError>,
    /// Whether a read of the stream failed.
    pub failed: bool,
}

/// Reads a capture's header and at most `most` packets from a stream, up to the first error or the end of the stream.
///
/// Returns the header's error if the header can't be read: `InvalidField` or `IoError`. A later error ends the packets and
/// is in `fault`. After `most` packets it doesn't read the stream again.
pub fn read_pcap<R: Read + Drop>(alloc: Global, reader: R, most: u64) -> ResultParsing<PcapRead>
    ensures taken { IfOk result (λ read. TakesCapture (R.remaining reader) most read) }
    ensures front { IfOk result (λ read. IfSome (R.remaining reader) (λ bytes. ReadsCapture bytes most read)) }
    ensures owned { IfOk result (λ read. All (λ packet. IsOwned packet.data_) read.packets.items) }
    ensures refused { IfErr result (λ e. IsIo e ⊎ Shows (IsFaultOf HeaderSays (R.remaining reader)) e) }
{
    let mut reader = PcapReader::new(alloc, reader)?;
    let (packets, fault) = read_items(alloc, &mut reader, most);
    Ok(PcapRead {
        header: reader.header,
        packets,
        fault,
        failed: reader.failed(),
    })
}
