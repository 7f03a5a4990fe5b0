//! Copies of captures, from a reader to a writer.

ghost use Rattle.std.specs.Prelude.{◌≡◌, ◌≤◌, ◌<◌, ◌+◌, ◌↔◌, ℕ, List, [], true, false, IsTrue, IfSome};
ghost use Rattle.pcap_items.specs.Copying.{NothingCopied};
ghost use Rattle.pcap_items.specs.Writing.{WritesAll};
ghost use Rattle.std.specs.Result.{result_err};
ghost use Rattle.pcap_core.specs.Answer.{whole};
ghost use Rattle.pcap_classic.specs.StatedPackets.{IsHeld};
ghost use Rattle.pcap_classic.specs.Copies.{BeginsCopy, CanBeUnder, CopiesBehind, copied_of, CopyRun, CopyFront, WritesHeld, header_under};
ghost use Rattle.pcap_classic.specs.Magic.{is_magic};
ghost use Rattle.pcap_classic.specs.Packets.{reader_format};
ghost use Rattle.pcap_classic.specs.PacketText.{Captured, packet_limit};
ghost use Rattle.pcap_classic.specs.Written.{written_under};

use crate::common::TsResolution;
use crate::pcap::{HeldPacket, PacketsUnder, PcapHeader, put_header, put_packet, read_header};
use crate::run::stretch::{Went, put_front};
use pcap_core::rules::Rule;
use pcap_core::{Endianness, PcapError, ResultParsing};
use pcap_items::stream::{Ahead, AheadShown, Held, Sent, Tally, copy_items, fill_item, put};
use std::alloc::Global;
use std::io::{Read, Write};

/// The header under which a copy is written.
#[derive(Clone, Copy, Debug, PartialEq, Eq)]
pub enum Under {
    /// The header that was read.
    Same,
    /// The given header.
    Header(PcapHeader),
    /// The header that was read, with the magic number of this byte order and timestamp resolution.
    Order(Endianness, TsResolution),
}

/// How a copy ended.
#[derive(Debug, Drop)]
pub struct Copied {
    /// The number of packets that were written whole.
    pub packets: u64,
    /// Why the copy ended before the end of the capture and before the requested number of packets.
    pub fault: Option<PcapError>,
    /// Whether a read failed.
    pub read_failed: bool,
    /// Whether a write failed.
    pub write_failed: bool,
}

/// Returns the result of a copy with this tally and this fault, or none.
pub fn end_copy(tally: &Tally, fault: Option<PcapError>) -> Copied
    ensures { result ≡ copied_of tally.now fault }
{
    Copied {
        packets: tally.items,
        fault,
        read_failed: tally.read_failed,
        write_failed: tally.write_failed,
    }
}

impl Under {
    // Returns whether the given header, if there is one, has one of the four magic numbers.
    fn is_writable(&self) -> bool
        ensures { IsTrue result ↔ CanBeUnder self.now }
    {
        match self {
            Under::Header(header) => header.has_valid_magic(),
            Under::Same | Under::Order(_, _) => true,
        }
    }

    // Returns the header under which the program writes the copy of a capture with this header.
    fn header(self, read: PcapHeader) -> PcapHeader
        requires writable { CanBeUnder self }
        requires valid { IsTrue (is_magic read.magic_number) }
        ensures header { result ≡ header_under self read }
        ensures valid { IsTrue (is_magic result.magic_number) }
    {
        match self {
            Under::Same => read,
            Under::Header(header) => header,
            Under::Order(endianness, ts_resolution) => {
                let mut header = read;
                header.set_endianness(endianness);
                header.set_ts_resolution(ts_resolution);
                header
            }
        }
    }
}

/// Copies a capture from a reader to a writer: its header, as `under` demands, and then at most `most` packets. Each packet
/// is written before the next one is read. Without a fault, the reader has given exactly the header and these packets.
/// A copy in microseconds loses the last three digits of the nanoseconds.
///
/// `InvalidField` if the magic number of the given header is none of the four; then nothing is read or written. If the
/// capture's header can't be read, the fault is that of `PcapHeader::from_reader`, and nothing is written. If a later
/// packet can't be read, the fault is that of `PcapReader`. Then the header and all packets before it are written, and no
/// more bytes were taken than were missing. `IoError` also if a write failed: then a beginning of the next text was
/// written, and that packet was taken. `OutOfMemory` if the memory for a packet runs out.
pub fn copy_pcap<R: Read, W: Write>(
    alloc: Global,
    reader: &mut R,
    writer: &mut W,
    under: Under,
    most: u64,
) -> Copied
    ensures most { result.packets ≤ most }
    ensures run { CopyRun under (R.remaining reader.old) (R.remaining reader.new) (W.contents writer.old) (W.contents writer.new) most result }
    ensures front { IfSome (R.remaining reader.old) (λ bytes. CopyFront under bytes (R.remaining reader.new)
        (W.contents writer.old) (W.contents writer.new) most result) }
{
    let tally = &mut Tally::none();
    let result = match begin_copy(reader, writer, under, tally) {
        Ok(packets) => packets.copy(alloc, reader, writer, most, tally),
        Err(e) => Err(e),
    };
    end_copy(tally, result.err())
}

// Copies the header, and returns the state for copying the packets after it.
pub(crate) fn begin_copy<R: Read, W: Write>(
    reader: &mut R,
    writer: &mut W,
    under: Under,
    tally: &mut Tally,
) -> ResultParsing<PacketsAhead<UnderHeader>>
    requires { NothingCopied tally.old }
    ensures { BeginsCopy under (R.remaining reader.old) (R.remaining reader.new) (W.contents writer.old) (W.contents writer.new) tally.new result }
{
    if !under.is_writable() {
        return Err(PcapError::from(Rule::CaptureMagic));
    }
    let header = read_header(reader, &mut tally.read_failed)?;
    let out = under.header(header);
    put_header(writer, &mut tally.write_failed, &out)?;
    let puts = UnderHeader { out };
    Ok(PacketsAhead { header, puts })
}

/// A way to write packets from the bytes that hold them.
pub trait PutsPacket {
    ghost stands: { Self → Type 0 };

    ghost text: { Self → Captured → List ℕ };

    /// Writes the text of the packet. It fails only if a write fails.
    fn put_held<W: Write>(&self, writer: &mut W, held: HeldPacket<'_>) -> ResultParsing<()>
        requires stands { stands self.now }
        requires held { IsHeld held }
        ensures { WritesHeld ((reader_format packet_limit held.entry.from.now).says tt) (text self.now) held.entry.bytes.now
            (W.contents writer.old) (W.contents writer.new) result };
}

/// The packets that are still to be copied.
#[derive(Drop)]
pub struct PacketsAhead<P> {
    /// The header under which the packets are read.
    pub header: PcapHeader,
    /// Writes the packets.
    pub puts: P,
}

impl<P: PutsPacket> PacketsAhead<P> {
    /// Copies the packets after the header, at most `most` of them, each before the next one is read, and counts them.
    ///
    /// If a packet can't be read, the error is that of `PcapReader`. `IoError` also if a write failed. `OutOfMemory` if the
    /// memory for a packet runs out.
    pub fn copy<R: Read, W: Write>(
        &self,
        alloc: Global,
        reader: &mut R,
        writer: &mut W,
        most: u64,
        tally: &mut Tally,
    ) -> ResultParsing<()>
        requires valid { IsTrue (is_magic self.now.header.magic_number) }
        requires stands { P.stands self.now.puts }
        requires new { NothingCopied tally.old }
        ensures { CopiesBehind (P.text self.now.puts) self.now.header (R.remaining reader.old) (R.remaining reader.new)
            (W.contents writer.old) (W.contents writer.new) most (copied_of tally.new (result_err result)) }
    {
        let mut held = Held::new(alloc);
        copy_items(alloc, self, &mut (), reader, writer, most, tally, &mut held)
    }
}

impl<P: PutsPacket> Ahead for PacketsAhead<P> {
    ghost use Rattle.pcap_items.specs.Copying.{each_written};
    ghost use Rattle.pcap_classic.specs.Packets.{format_under};
    ghost use Rattle.pcap_classic.specs.PacketText.{Captured};

    type Place = ();

    ghost State = { Unit {0} };

    ghost Value = { Captured };

    ghost stands = { λ ahead. IsTrue (is_magic ahead.header.magic_number) × P.stands ahead.puts };

    ghost format = { λ ahead. format_under packet_limit ahead.header };

    ghost written = { λ ahead. each_written (P.text ahead.puts) };

    ghost state = { λ place. tt };

    #[inline(always)]
    fn copy_next<R: Read, W: Write>(
        &self,
        _alloc: Global,
        _place: &mut (),
        reader: &mut R,
        writer: &mut W,
        tally: &mut Tally,
        held: &mut Held,
    ) -> ResultParsing<bool> {
        let packets = PacketsUnder {
            header: &self.header,
        };
        let Some(head) = fill_item(&packets, reader, &mut tally.read_failed, held)? else {
            return Ok(false);
        };
        let packet = HeldPacket {
            from: &self.header,
            head,
            bytes: held.as_slice(),
        };
        if let Err(e) = self.puts.put_held(writer, packet) {
            tally.write_failed = true;
            return Err(e);
        }
        held.clear();
        tally.items += 1;
        Ok(true)
    }
}

// Writes packets under this header.
#[derive(Drop)]
pub(crate) struct UnderHeader {
    pub(crate) out: PcapHeader,
}

impl AheadShown for PacketsAhead<UnderHeader> {
    fn put_shown<W: Write>(
        &self,
        _place: &(),
        writer: &mut W,
        has_failed: &mut bool,
        shown: &[u8],
        most: u64,
    ) -> Sent {
        let out = &self.puts.out;
        let Went {
            packets,
            rest,
            fault,
        } = put_front(writer, has_failed, &self.header, out, shown, most);
        let used = shown.len() - rest.len();
        Sent {
            items: packets,
            used,
            fault,
        }
    }
}

// The bytes go out unchanged if the magic numbers are equal. Otherwise the packet is lent from its bytes and written anew.
impl PutsPacket for UnderHeader {
    ghost stands = { λ under. IsTrue (is_magic under.out.magic_number) };

    ghost text = { λ under. written_under under.out };

    #[inline(always)]
    fn put_held<W: Write>(&self, writer: &mut W, held: HeldPacket<'_>) -> ResultParsing<()> {
        let out = &self.out;
        if held.from.magic_number == out.magic_number {
            put_text(writer, held.from, held.bytes)
        } else {
            put_packet(writer, &mut false, out, &held.packet())
        }
    }
}

// Writes bytes that are a packet of the capture with this header: they are its text.
#[inline(always)]
fn put_text<W: Write>(writer: &mut W, header: &PcapHeader, bytes: &[u8]) -> ResultParsing<()>
    ensures { (packet : Captured) → (reader_format packet_limit header.now).says tt bytes.now (whole packet [])
        → WritesAll (W.contents writer.old) (W.contents writer.new) (written_under header.now packet) result }
{
    put(writer, &mut false, bytes)
}
