//! A reader of packets of either format, and the packet that it holds.

ghost use Rattle.std.specs.Prelude.{◌≡◌, false, IfSome};
ghost use Rattle.pcapfile_merge.specs.Buffered.{is_done};
ghost use Rattle.pcapfile_merge.specs.Holding.{HoldsFewPackets, PacketThere};
ghost use Rattle.pcapfile_merge.specs.Taking.{IsOf, TakesPacket};

use crate::buffered::BufferedPackets;
use crate::buffered_blocks::BufferedBlocks;
use crate::packet::Pending;
use crate::parts::{behind, front};
use crate::stored::{take_blocks, take_there};
use pcap_file::PcapError;
use pcap_file::pcap::PacketHeader;
use pcap_file::pcapng::Timestamp;
use std::alloc::Global;
use std::io::Read;

const BILLION: u32 = 1_000_000_000;

/// A buffered reader of a capture of either format.
#[derive(Drop)]
pub enum Reader<R> {
    /// The reader of a classic capture.
    Packets(BufferedPackets<R>),
    /// The reader of a PcapNg capture.
    Blocks(BufferedBlocks<R>),
}

impl<R: Read + Drop> Reader<R> {
    ghost use Rattle.pcapfile_merge.specs.Holding.{bytes_in};

    // Returns the bytes of the held packet, or the text of its block if that is made.
    #[inline(always)]
    pub(crate) fn data(&self, pending: &Pending) -> &[u8]
        ensures { result.now ≡ bytes_in self.now pending.now }
    {
        match self {
            Reader::Packets(reader) => reader.data(),
            Reader::Blocks(reader) => front(behind(reader.body(), pending.start), pending.len),
        }
    }
}

/// What a reader took: a packet, an error, or nothing at the end.
#[derive(Drop)]
pub(crate) struct Taken {
    pub(crate) next: Option<Pending>,
    pub(crate) fault: Option<PcapError>,
}

impl<R: Read + Drop> Reader<R> {
    ghost use Rattle.pcapfile_merge.specs.Holding.{IsReady, IsReadyIf, IsWhole, HoldsFew, TakesNext, TakesThere};

    // Takes the next packet if it is whole in the buffer. In the output, the interface of a classic capture has the number `base`, and
    // those of a PcapNg capture have `numbers`. Otherwise the call returns None and only removes the lent packet.
    #[inline(always)]
    pub(crate) fn next_there(&mut self, base: u32, numbers: &[u64]) -> Option<Pending>
        requires { IsReady self.old }
        ensures there { TakesThere R.remaining base numbers.now self.old self.new result }
        ensures few { HoldsFew self.new result }
        ensures all { IfSome result (λ pending. pending.left_out ≡ 0) }
        ensures ready { IsReady self.new }
    {
        match self {
            Reader::Packets(packets) => take_packet_there(packets, base),
            Reader::Blocks(blocks) => take_there(blocks, numbers),
        }
    }

    // Takes the next packet. In the output, the interface of a classic capture has the number `base`, and those of a PcapNg capture have
    // `numbers`.
    pub(crate) fn take_next(&mut self, alloc: Global, base: u32, numbers: &[u64]) -> Taken
        requires { IsReady self.old }
        ensures takes { TakesNext R.remaining base numbers.now self.old self.new result }
        ensures few { HoldsFew self.new result.next }
        ensures ready { IsReadyIf self.new result.next }
        ensures whole { IsWhole result }
    {
        match self {
            Reader::Packets(reader) => take_packet(reader, base),
            Reader::Blocks(reader) => take_blocks(alloc, reader, numbers),
        }
    }
}

// Takes the next packet of a classic capture if it is whole in the buffer. Otherwise it returns None and lends nothing.
#[inline(always)]
fn take_packet_there<R: Read + Drop>(
    reader: &mut BufferedPackets<R>,
    number: u32,
) -> Option<Pending>
    requires { is_done reader.old ≡ false }
    ensures few { HoldsFewPackets reader.new result }
    ensures all { IfSome result (λ pending. pending.left_out ≡ 0) }
    ensures ready { is_done reader.new ≡ false }
    ensures there { PacketThere R.remaining number reader.old reader.new result }
{
    let header = reader.next_there()?;
    Some(pending_of_header(header, number))
}

// Takes the next packet of a classic capture, whose interface has the number `number`.
fn take_packet<R: Read + Drop>(reader: &mut BufferedPackets<R>, number: u32) -> Taken
    requires { is_done reader.old ≡ false }
    ensures { TakesPacket R.remaining number reader.old reader.new result }
{
    match reader.next_header() {
        None => Taken {
            next: None,
            fault: None,
        },
        Some(Ok(header)) => Taken {
            next: Some(pending_of_header(header, number)),
            fault: None,
        },
        Some(Err(error)) => Taken {
            next: None,
            fault: Some(error),
        },
    }
}

// Returns the facts about the packet with this header.
#[inline(always)]
fn pending_of_header(header: PacketHeader, number: u32) -> Pending
    ensures is { IsOf number header result }
    ensures all { result.left_out ≡ 0 }
{
    let PacketHeader {
        ts_sec,
        ts_nsec,
        incl_len,
        orig_len,
    } = header;
    let seconds = u64::from(ts_sec) + u64::from(ts_nsec / BILLION);
    Pending {
        number,
        time: Some(Timestamp {
            seconds: i128::from(seconds),
            nanoseconds: ts_nsec % BILLION,
        }),
        units: u64::from(ts_sec) * 1_000_000_000 + u64::from(ts_nsec),
        original_len: orig_len,
        start: 0,
        len: incl_len as usize,
        is_made: false,
        is_interface: false,
        left_out: 0,
    }
}
