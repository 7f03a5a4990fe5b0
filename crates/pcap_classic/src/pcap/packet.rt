//! Packets and their headers.

ghost use Rattle.std.specs.Prelude.{⊤, ◌≡◌, ◌<◌, ◌*◌, ◌+◌, ◌^◌, length, IsOk, IfOk, IfErr, MatchResult, IsTrue};
ghost use Rattle.std.specs.Duration.{as_nanos};
ghost use Rattle.pcap_core.specs.Answer.{Tells, number_in};
ghost use Rattle.pcap_core.specs.Faults.{Invalid};
ghost use Rattle.pcap_classic.specs.Magic.{is_magic, order_of, resolution_of};
ghost use Rattle.pcap_core.specs.Bytes.{IsBorrowed, IsOwned};
ghost use Rattle.pcap_core.specs.Errors.{IsMemory};
ghost use Rattle.pcap_items.specs.Reading.{Reads, ReadsWhere};
ghost use Rattle.pcap_items.specs.Writing.{WritesAll};
ghost use Rattle.pcap_classic.specs.Written.{fraction_of, packet_header_bytes};
ghost use Rattle.pcap_classic.specs.PacketText.{packet_limit, Head, IsGood, IsHeadFault, spelled_header, content_of, PacketHeaderSays, PacketSays};

use crate::common::TsResolution;
use crate::pcap::PcapHeader;
use byteorder::{BigEndian, ByteOrder, LittleEndian};
use pcap_core::fields::split_u32;
use pcap_core::rules::Rule;
use pcap_core::{CowBytes, Endianness, PcapError, ResultParsing};
use pcap_items::stream::{fill_array, put, take_bytes};
use std::alloc::Global;
use std::io::{Read, Write};
use std::time::Duration;

/// The highest valid value of a packet's stored or original length, in bytes.
pub const PACKET_LIMIT: u32 = 262144;

/// The header of a packet, 16 bytes in a capture.
#[derive(Clone, Copy, Debug, Default, PartialEq, Eq)]
pub struct PacketHeader {
    /// The timestamp's seconds.
    pub ts_sec: u32,
    /// The timestamp's nanoseconds. They may exceed one second.
    pub ts_nsec: u32,
    /// The number of bytes of the packet that are stored.
    pub incl_len: u32,
    /// The number of bytes that the packet had on the wire.
    pub orig_len: u32,
}

// Returns the header of these four numbers, or the first rule that they break.
#[inline(always)]
fn header_of(
    ts_resolution: TsResolution,
    ts_sec: u32,
    fraction: u32,
    incl_len: u32,
    orig_len: u32,
) -> Result<PacketHeader, Rule>
    ensures { let head : Head = record { seconds = ts_sec; fraction = fraction; included = incl_len; original = orig_len } in
        MatchResult result
        (λ header. IsGood packet_limit ts_resolution head × (header ≡ spelled_header ts_resolution head))
        (λ rule. IsHeadFault packet_limit ts_resolution head (Invalid rule)) }
{
    let ts_nsec = match ts_resolution {
        TsResolution::NanoSecond => fraction,
        TsResolution::MicroSecond => {
            if fraction > u32::MAX / 1000 {
                return Err(Rule::FractionTooLarge);
            }
            1000 * fraction
        }
    };
    if incl_len > PACKET_LIMIT {
        return Err(Rule::IncludedTooLong);
    }
    if orig_len > PACKET_LIMIT {
        return Err(Rule::OriginalTooLong);
    }
    if incl_len > orig_len {
        return Err(Rule::IncludedPastOriginal);
    }
    Ok(PacketHeader::new(ts_sec, ts_nsec, incl_len, orig_len))
}

impl PacketHeader {
    /// Returns the header of these fields: seconds, nanoseconds, stored and original length in bytes.
    pub fn new(ts_sec: u32, ts_nsec: u32, incl_len: u32, orig_len: u32) -> PacketHeader
        ensures { result ≡ record { ts_sec = ts_sec; ts_nsec = ts_nsec; incl_len = incl_len; orig_len = orig_len } }
    {
        PacketHeader {
            ts_sec,
            ts_nsec,
            incl_len,
            orig_len,
        }
    }

    /// Reads a header from a stream, and takes exactly its 16 bytes.
    ///
    /// `InvalidField` for the first rule that the header breaks. `IoError` if a read failed, or the stream ended early.
    pub fn from_reader<R: Read, B: ByteOrder>(
        reader: &mut R,
        ts_resolution: TsResolution,
    ) -> ResultParsing<PacketHeader>
        ensures { Reads (PacketHeaderSays packet_limit B.number_of ts_resolution) (λ header. header) (R.remaining reader.old) (R.remaining reader.new) result }
    {
        let mut bytes = [0; 16];
        fill_array(reader, &mut false, &mut bytes)?;
        let (_, header) = PacketHeader::from_slice::<B>(&bytes, ts_resolution)?;
        Ok(header)
    }

    /// Returns the header at the front of a slice, and the bytes after it.
    ///
    /// `IncompleteBuffer` for fewer than 16 bytes, and `InvalidField` for the first rule that the header breaks.
    pub fn from_slice<B: ByteOrder>(
        slice: &[u8],
        ts_resolution: TsResolution,
    ) -> ResultParsing<(&[u8], PacketHeader)>
        ensures tells { Tells (PacketHeaderSays packet_limit B.number_of ts_resolution slice.now) (λ header. header) result }
    {
        if slice.len() < 16 {
            return Err(PcapError::IncompleteBuffer(16 - slice.len()));
        }
        let (ts_sec, rest) = split_u32::<B>(slice);
        let (fraction, rest) = split_u32::<B>(rest);
        let (incl_len, rest) = split_u32::<B>(rest);
        let (orig_len, rest) = split_u32::<B>(rest);
        let header = header_of(ts_resolution, ts_sec, fraction, incl_len, orig_len)?;
        Ok((rest, header))
    }

    /// Returns the packet's timestamp: its seconds plus its nanoseconds, which may exceed one second.
    pub fn timestamp(&self) -> Duration
        ensures { as_nanos result ≡ self.now.ts_sec * 1_000_000_000 + self.now.ts_nsec }
    {
        Duration::new(self.ts_sec.into(), self.ts_nsec)
    }

    /// Writes the 16 bytes of the header in the order of `B`. In microseconds the last three digits of the nanoseconds are
    /// lost. No field is tested.
    ///
    /// `IoError` if a write failed; then a beginning of the bytes was written.
    pub fn write_to<W: Write, B: ByteOrder>(
        &self,
        writer: &mut W,
        ts_resolution: TsResolution,
    ) -> ResultParsing<()>
        ensures { WritesAll (W.contents writer.old) (W.contents writer.new) (packet_header_bytes B.bytes_of ts_resolution self.now) result }
    {
        put(writer, &mut false, &self.to_bytes::<B>(ts_resolution))
    }

    // Returns the nanoseconds as the fraction that is written.
    fn fraction(&self, ts_resolution: TsResolution) -> u32
        ensures { result ≡ fraction_of ts_resolution self.now.ts_nsec }
    {
        match ts_resolution {
            TsResolution::MicroSecond => self.ts_nsec / 1000,
            TsResolution::NanoSecond => self.ts_nsec,
        }
    }

    /// Returns the 16 bytes that `write_to` writes.
    pub fn to_bytes<B: ByteOrder>(&self, ts_resolution: TsResolution) -> [u8; 16]
        ensures { result ≡ packet_header_bytes B.bytes_of ts_resolution self.now }
    {
        let mut bytes = [0; 16];
        B::write_u32(&mut bytes, self.ts_sec);
        B::write_u32(&mut bytes[4..], self.fraction(ts_resolution));
        B::write_u32(&mut bytes[8..], self.incl_len);
        B::write_u32(&mut bytes[12..], self.orig_len);
        bytes
    }
}

/// A packet: its header and its data, borrowed or owned.
#[derive(Clone, Debug, Drop)]
pub struct Packet<'a> {
    /// The packet's header.
    pub header: PacketHeader,
    /// The bytes that are stored of the packet.
    pub data_: CowBytes<'a>,
}

impl<'a> Packet<'a> {
    /// Reads a packet from a stream, and takes exactly its bytes.
    ///
    /// `InvalidField` for the first rule that the packet's header breaks. `IoError` if a read failed, or the stream ended
    /// early. `OutOfMemory` if the memory for the data runs out; the buffer grows as bytes arrive.
    pub fn from_reader<R: Read, B: ByteOrder>(
        alloc: Global,
        reader: &mut R,
        ts_resolution: TsResolution,
    ) -> ResultParsing<Packet<'static>>
        ensures packet { ReadsWhere ⊤ (PacketSays packet_limit B.number_of ts_resolution) content_of (R.remaining reader.old) (R.remaining reader.new) result }
        ensures owned { IfOk result (λ packet. IsOwned packet.data_) }
    {
        let header = PacketHeader::from_reader::<R, B>(reader, ts_resolution)?;
        let bytes = take_bytes(alloc, reader, &mut false, header.incl_len as usize)?;
        Ok(Packet {
            header,
            data_: CowBytes::Owned(bytes),
        })
    }

    /// Returns the packet at the front of a slice, and the bytes after it. The packet's data is borrowed from the slice.
    ///
    /// `IncompleteBuffer` if bytes of the header or of the data are missing, and `InvalidField` for the first rule that the
    /// header breaks.
    pub fn from_slice<B: ByteOrder>(
        slice: &'a [u8],
        ts_resolution: TsResolution,
    ) -> ResultParsing<(&'a [u8], Packet<'a>)>
        ensures tells { Tells (PacketSays packet_limit B.number_of ts_resolution slice.now) content_of result }
        ensures borrowed { IfOk result (λ x. IsBorrowed x.1.data_) }
    {
        let (rest, header) = PacketHeader::from_slice::<B>(slice, ts_resolution)?;
        let len = header.incl_len as usize;
        if rest.len() < len {
            return Err(PcapError::IncompleteBuffer(len - rest.len()));
        }
        let (bytes, rest) = rest.split_at(len);
        let packet = Packet {
            header,
            data_: CowBytes::Borrowed(bytes),
        };
        Ok((rest, packet))
    }

    /// Makes a packet of borrowed data from seconds, nanoseconds, the data, and the original length in bytes. The stored
    /// length is the number of bytes, which must be below 2^32.
    pub fn new(ts_sec: u32, ts_nsec: u32, bytes: &'a [u8], orig_len: u32) -> Packet<'a>
        requires { length bytes.now < 2 ^ 32 }
        ensures packet { let header : PacketHeader =
            record { ts_sec = ts_sec; ts_nsec = ts_nsec; incl_len = length bytes.now; orig_len = orig_len } in
            content_of result ≡ record { header = header; bytes = bytes.now } }
        ensures borrowed { IsBorrowed result.data_ }
    {
        let header = PacketHeader::new(ts_sec, ts_nsec, bytes.len() as u32, orig_len);
        let data_ = CowBytes::Borrowed(bytes);
        Packet { header, data_ }
    }

    /// Makes a packet of owned data from seconds, nanoseconds, the data, and the original length in bytes. The stored
    /// length is the number of bytes, which must be below 2^32.
    pub fn new_owned(ts_sec: u32, ts_nsec: u32, bytes: Vec<u8>, orig_len: u32) -> Packet<'static>
        requires { length bytes.items < 2 ^ 32 }
        ensures packet { let header : PacketHeader =
            record { ts_sec = ts_sec; ts_nsec = ts_nsec; incl_len = length bytes.items; orig_len = orig_len } in
            content_of result ≡ record { header = header; bytes = bytes.items } }
        ensures owned { IsOwned result.data_ }
    {
        let header = PacketHeader::new(ts_sec, ts_nsec, bytes.len() as u32, orig_len);
        let data_ = CowBytes::Owned(bytes);
        Packet { header, data_ }
    }

    /// Returns the same packet with a copy of its data. `OutOfMemory` if there is no memory for the copy.
    pub fn to_owned(&self, alloc: Global) -> ResultParsing<Packet<'static>>
        ensures packet { IfOk result (λ own. content_of own ≡ content_of self.now) }
        ensures owned { IfOk result (λ own. IsOwned own.data_) }
        ensures memory { IfErr result IsMemory }
    {
        let bytes = Vec::from_slice(alloc, self.data_.as_slice())?;
        Ok(Packet {
            header: self.header,
            data_: CowBytes::Owned(bytes),
        })
    }

    /// Returns the same packet with its data owned. `OutOfMemory` if there is no memory to copy borrowed data; owned data
    /// is never copied.
    pub fn into_owned(self, alloc: Global) -> ResultParsing<Packet<'static>>
        ensures packet { IfOk result (λ own. content_of own ≡ content_of self.entry) }
        ensures owned { IfOk result (λ own. IsOwned own.data_) }
        ensures memory { IfErr result IsMemory }
        ensures kept { IsOwned self.entry.data_ → IsOk result }
    {
        Ok(Packet {
            header: self.header,
            data_: self.data_.into_owned(alloc)?,
        })
    }
}

// Returns the packet at the front of a slice under this header, and the bytes after it.
#[inline(always)]
pub(crate) fn packet_under<'a>(
    header: &PcapHeader,
    slice: &'a [u8],
) -> ResultParsing<(&'a [u8], Packet<'a>)>
    requires { IsTrue (is_magic header.now.magic_number) }
    ensures tells { let magic = header.now.magic_number in
        Tells (PacketSays packet_limit (number_in (order_of magic)) (resolution_of magic) slice.now) content_of result }
    ensures borrowed { IfOk result (λ x. IsBorrowed x.1.data_) }
{
    let ts_resolution = header.ts_resolution();
    match header.endianness() {
        Endianness::Big => Packet::from_slice::<BigEndian>(slice, ts_resolution),
        Endianness::Little => Packet::from_slice::<LittleEndian>(slice, ts_resolution),
    }
}
