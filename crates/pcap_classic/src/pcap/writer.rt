//! A writer of captures.

ghost use Rattle.std.specs.Prelude.{◌≡◌, ◌<◌, ◌^◌, length, true, IsTrue, MatchResult};
ghost use Rattle.std.specs.Borrow.{sem, Lends};
ghost use Rattle.pcap_classic.specs.contracts.pcap.writer.PcapWriter.{the_row as writer-row};
ghost use Rattle.pcap_classic.specs.Defaults.{little_header};
ghost use Rattle.pcap_classic.specs.LentStreams.{writer_with};
ghost use Rattle.pcap_classic.specs.Magic.{is_magic, order_of, resolution_of};
ghost use Rattle.pcap_classic.specs.PacketText.{content_of};
ghost use Rattle.pcap_classic.specs.Writing.{stream_of, has_failed, OpensWriter, WritesPacket};
ghost use Rattle.pcap_core.specs.Codec.{number_bytes};
ghost use Rattle.pcap_items.specs.Writing.{WritesAll};
ghost use Rattle.pcap_classic.specs.Written.{written_header, written_under, packet_header_bytes};

use crate::pcap::{Packet, PacketHeader, PcapHeader};
use byteorder::{BigEndian, LittleEndian};
use pcap_core::rules::Rule;
use pcap_core::{Endianness, PcapError, ResultParsing};
use pcap_items::stream::put;
use std::io::Write;

/// Writes a capture to a wrapped writer: first its header, and then packets one by one.
#[derive(Debug, Drop)]
pub struct PcapWriter<W> {
    /// The header of the capture. Each packet is written in the byte order and resolution of its current magic number.
    pub header: PcapHeader,
    inner: W,
    has_failed: bool,
}

impl<W> PcapWriter<W> {
    /// Returns the wrapped writer.
    pub fn into_writer(self) -> W
        ensures { result ≡ stream_of self }
    {
        self.inner
    }

    /// Lends the wrapped writer.
    pub fn get_ref(&self) -> &W
        ensures { result.now ≡ stream_of self.now }
    {
        &self.inner
    }

    /// Lends the wrapped writer, mutably. Bytes that the caller writes to it directly are no part of this writer's capture.
    pub fn get_mut(&mut self) -> &mut W
        ensures value { result.now ≡ stream_of self.old }
        ensures* writes_back { sem 𝓛 (Lends (writer-row W.row) W.row self.entry result (writer_with self.old)) }
    {
        &mut self.inner
    }

    /// Returns whether a write failed. After a failure the writer refuses every packet.
    pub fn failed(&self) -> bool
        ensures { result ≡ has_failed self.now }
    {
        self.has_failed
    }
}

impl<W: Write + Drop> PcapWriter<W> {
    /// Makes a writer, and writes the default header with little-endian numbers.
    ///
    /// `IoError` if a write failed; then a beginning of the header's 24 bytes was written.
    pub fn new(writer: W) -> ResultParsing<PcapWriter<W>>
        ensures { OpensWriter W.contents little_header writer result }
    {
        let mut header = PcapHeader::default();
        header.set_endianness(Endianness::Little);
        PcapWriter::with_header(header, writer)
    }

    /// Makes a writer, and writes this header in the byte order of its magic number.
    ///
    /// `InvalidField` if the magic number is none of the four; then nothing is written. `IoError` if a write failed; then a
    /// beginning of the header's 24 bytes was written.
    pub fn with_header(header: PcapHeader, mut writer: W) -> ResultParsing<PcapWriter<W>>
        ensures { OpensWriter W.contents header writer result }
    {
        if !header.has_valid_magic() {
            return Err(PcapError::from(Rule::CaptureMagic));
        }
        let mut has_failed = false;
        put_header(&mut writer, &mut has_failed, &header)?;
        Ok(PcapWriter {
            header,
            inner: writer,
            has_failed,
        })
    }
}

impl<W: Write> PcapWriter<W> {
    /// Writes a packet from seconds, nanoseconds, its bytes, and its original length in bytes. The packet must have fewer
    /// than 2^32 bytes. It fails as `write_packet` does.
    pub fn write(
        &mut self,
        ts_sec: u32,
        ts_nsec: u32,
        bytes: &[u8],
        orig_len: u32,
    ) -> ResultParsing<()>
        requires { length bytes.now < 2 ^ 32 }
        ensures header { self.new.header ≡ self.old.header }
        ensures packet { let header : PacketHeader =
            record { ts_sec = ts_sec; ts_nsec = ts_nsec; incl_len = length bytes.now; orig_len = orig_len } in
            WritesPacket W.contents self.old self.new (record { header = header; bytes = bytes.now }) result }
    {
        self.write_packet(&Packet::new(ts_sec, ts_nsec, bytes, orig_len))
    }

    /// Writes a packet: the 16 bytes of its header, and then its data. The stored length is written as it is in the
    /// packet's header, whatever the number of bytes is.
    ///
    /// `WriterFailed` if an earlier write failed, and else `InvalidField` if the magic number of `header` is none of the
    /// four; in both cases nothing is written. `IoError` if a write failed; then a beginning of the packet was written.
    pub fn write_packet(&mut self, packet: &Packet<'_>) -> ResultParsing<()>
        ensures header { self.new.header ≡ self.old.header }
        ensures packet { WritesPacket W.contents self.old self.new (content_of packet.now) result }
    {
        if self.has_failed {
            return Err(PcapError::WriterFailed);
        }
        if !self.header.has_valid_magic() {
            return Err(PcapError::from(Rule::CaptureMagic));
        }
        put_packet(&mut self.inner, &mut self.has_failed, &self.header, packet)
    }
}

// Writes a capture's header in its own byte order.
pub(crate) fn put_header<W: Write>(
    writer: &mut W,
    has_failed: &mut bool,
    header: &PcapHeader,
) -> ResultParsing<()>
    requires { IsTrue (is_magic header.now.magic_number) }
    ensures out { WritesAll (W.contents writer.old) (W.contents writer.new) (written_header header.now) result }
    ensures told { MatchResult result (λ _. has_failed.new ≡ has_failed.old) (λ _. has_failed.new ≡ true) }
{
    match header.endianness() {
        Endianness::Big => put(writer, has_failed, &header.to_bytes::<BigEndian>()),
        Endianness::Little => put(writer, has_failed, &header.to_bytes::<LittleEndian>()),
    }
}

// Writes a packet under a capture's header.
pub(crate) fn put_packet<W: Write>(
    writer: &mut W,
    has_failed: &mut bool,
    header: &PcapHeader,
    packet: &Packet<'_>,
) -> ResultParsing<()>
    requires { IsTrue (is_magic header.now.magic_number) }
    ensures out { WritesAll (W.contents writer.old) (W.contents writer.new) (written_under header.now (content_of packet.now)) result }
    ensures told { MatchResult result (λ _. has_failed.new ≡ has_failed.old) (λ _. has_failed.new ≡ true) }
{
    put(writer, has_failed, &bytes_under(header, &packet.header))?;
    put(writer, has_failed, packet.data_.as_slice())
}

// Returns the 16 bytes of a packet's header under a capture's header.
fn bytes_under(header: &PcapHeader, packet: &PacketHeader) -> [u8; 16]
    requires { IsTrue (is_magic header.now.magic_number) }
    ensures { let magic = header.now.magic_number in
        result ≡ packet_header_bytes (number_bytes (order_of magic)) (resolution_of magic) packet.now }
{
    let ts_resolution = header.ts_resolution();
    match header.endianness() {
        Endianness::Big => packet.to_bytes::<BigEndian>(ts_resolution),
        Endianness::Little => packet.to_bytes::<LittleEndian>(ts_resolution),
    }
}
