//! The header of a capture.

ghost use Rattle.std.specs.Prelude.{◌≡◌, ◌≤◌, ◌↔◌, Some, false, length, IsTrue, IfOk, IfErr};
ghost use Rattle.pcap_core.specs.Answer.{Tells};
ghost use Rattle.pcap_classic.specs.Magic.{kind_of, is_magic, order_of, resolution_of, magic_for};
ghost use Rattle.pcap_classic.specs.HeaderText.{FieldsText, HeaderSays};
ghost use Rattle.pcap_classic.specs.Defaults.{default_header};
ghost use Rattle.pcap_core.specs.Errors.{IsMemory};
ghost use Rattle.pcap_items.specs.Reading.{Reads, ReadsTold};
ghost use Rattle.pcap_items.specs.Writing.{WritesAll};
ghost use Rattle.pcap_classic.specs.Written.{header_bytes};

use crate::common::TsResolution;
use byteorder::{BigEndian, ByteOrder, LittleEndian};
use pcap_core::fields::{split_u16, split_u32};
use pcap_core::rules::Rule;
use pcap_core::{DataLink, Endianness, PcapError, ResultParsing};
use pcap_items::stream::{fill_array, put};
use std::alloc::Global;
use std::io::{Read, Write};

/// The header at the front of a capture, 24 bytes.
#[derive(Clone, Copy, Debug, PartialEq, Eq)]
pub struct PcapHeader {
    /// Magic number, read high byte first. It defines the byte order of all other numbers and the timestamp resolution.
    pub magic_number: u32,
    /// Major version number, usually 2.
    pub version_major: u16,
    /// Minor version number, usually 4.
    pub version_minor: u16,
    /// Seconds from local time to GMT, usually 0.
    pub ts_correction: i32,
    /// Accuracy of the timestamps, usually 0.
    pub ts_accuracy: u32,
    /// The snapshot length: the most bytes that are stored of a packet.
    pub snaplen: u32,
    /// The link type: the protocol of the packets' first layer.
    pub datalink: DataLink,
}

// Returns the header with this magic number and the other fields from the front of the bytes, and the bytes after them.
fn split_fields<B: ByteOrder>(magic_number: u32, bytes: &[u8]) -> (&[u8], PcapHeader)
    requires { 20 ≤ length bytes.now }
    ensures magic { result.1.magic_number ≡ magic_number }
    ensures text { FieldsText B.number_of result.1 bytes.now result.0.now }
{
    let (version_major, rest) = split_u16::<B>(bytes);
    let (version_minor, rest) = split_u16::<B>(rest);
    let (ts_correction, rest) = split_u32::<B>(rest);
    let (ts_accuracy, rest) = split_u32::<B>(rest);
    let (snaplen, rest) = split_u32::<B>(rest);
    let (link, rest) = split_u32::<B>(rest);
    let header = PcapHeader {
        magic_number,
        version_major,
        version_minor,
        ts_correction: ts_correction.cast_signed(),
        ts_accuracy,
        snaplen,
        datalink: DataLink::from(link),
    };
    (rest, header)
}

impl PcapHeader {
    /// Reads a header from a stream, and takes exactly its 24 bytes.
    ///
    /// `InvalidField` if the magic number is none of the four. `IoError` if a read failed, or the stream ended early.
    pub fn from_reader<R: Read>(reader: &mut R) -> ResultParsing<PcapHeader>
        ensures { Reads HeaderSays (λ header. header) (R.remaining reader.old) (R.remaining reader.new) result }
    {
        read_header(reader, &mut false)
    }

    /// Returns the header at the front of a slice, and the bytes after it.
    ///
    /// `IncompleteBuffer` for fewer than 24 bytes, and `InvalidField` if the magic number is none of the four.
    #[tactic(auto, unfolding(crate::specs::Magic::kind_of, crate::specs::Magic::is_magic, crate::specs::Magic::order_of))]
    pub fn from_slice(slice: &[u8]) -> ResultParsing<(&[u8], PcapHeader)>
        ensures tells { Tells (HeaderSays slice.now) (λ header. header) result }
    {
        if slice.len() < 24 {
            return Err(PcapError::IncompleteBuffer(24 - slice.len()));
        }
        let (magic_number, rest) = split_u32::<BigEndian>(slice);
        match magic_number {
            0xa1b2c3d4 | 0xa1b23c4d => Ok(split_fields::<BigEndian>(magic_number, rest)),
            0xd4c3b2a1 | 0x4d3cb2a1 => Ok(split_fields::<LittleEndian>(magic_number, rest)),
            _ => Err(PcapError::from(Rule::CaptureMagic)),
        }
    }

    /// Returns whether the magic number is one of the four.
    #[tactic(auto, unfolding(crate::specs::Magic::kind_of, crate::specs::Magic::is_magic))]
    pub fn has_valid_magic(&self) -> bool
        ensures { IsTrue result ↔ IsTrue (is_magic self.now.magic_number) }
    {
        matches!(
            self.magic_number,
            0xa1b2c3d4 | 0xa1b23c4d | 0xd4c3b2a1 | 0x4d3cb2a1
        )
    }

    // Returns the byte order and the timestamp resolution that a valid magic number defines.
    #[inline(always)]
    #[tactic(auto, unfolding(crate::specs::Magic::kind_of))]
    pub(crate) fn kind(&self) -> Option<(Endianness, TsResolution)>
        ensures { result ≡ kind_of self.now.magic_number }
    {
        match self.magic_number {
            0xa1b2c3d4 => Some((Endianness::Big, TsResolution::MicroSecond)),
            0xa1b23c4d => Some((Endianness::Big, TsResolution::NanoSecond)),
            0xd4c3b2a1 => Some((Endianness::Little, TsResolution::MicroSecond)),
            0x4d3cb2a1 => Some((Endianness::Little, TsResolution::NanoSecond)),
            _ => None,
        }
    }

    /// Returns the byte order of the capture. The magic number must be valid.
    #[tactic(auto, unfolding(crate::specs::Magic::kind_of, crate::specs::Magic::is_magic, crate::specs::Magic::order_of))]
    pub fn endianness(&self) -> Endianness
        requires { IsTrue (is_magic self.now.magic_number) }
        ensures { result ≡ order_of self.now.magic_number }
    {
        match self.magic_number {
            0xa1b2c3d4 | 0xa1b23c4d => Endianness::Big,
            _ => Endianness::Little,
        }
    }

    /// Returns the timestamp resolution of the capture. The magic number must be valid.
    #[tactic(auto, unfolding(crate::specs::Magic::kind_of, crate::specs::Magic::is_magic, crate::specs::Magic::resolution_of))]
    pub fn ts_resolution(&self) -> TsResolution
        requires { IsTrue (is_magic self.now.magic_number) }
        ensures { result ≡ resolution_of self.now.magic_number }
    {
        match self.magic_number {
            0xa1b2c3d4 | 0xd4c3b2a1 => TsResolution::MicroSecond,
            _ => TsResolution::NanoSecond,
        }
    }

    /// Changes the byte order of the capture, and keeps its timestamp resolution. The magic number must be valid.
    #[tactic(auto, unfolding(crate::specs::Magic::is_magic, crate::specs::Magic::order_of, crate::specs::Magic::resolution_of))]
    pub fn set_endianness(&mut self, endianness: Endianness)
        requires { IsTrue (is_magic self.old.magic_number) }
        ensures header { self.new ≡ record self.old { magic_number = magic_for endianness (resolution_of self.old.magic_number) } }
        ensures valid { IsTrue (is_magic self.new.magic_number) }
        ensures order { order_of self.new.magic_number ≡ endianness }
        ensures resolution { resolution_of self.new.magic_number ≡ resolution_of self.old.magic_number }
    {
        self.magic_number = magic_of(endianness, self.ts_resolution());
    }

    /// Changes the timestamp resolution of the capture, and keeps its byte order. The magic number must be valid.
    #[tactic(auto, unfolding(crate::specs::Magic::is_magic, crate::specs::Magic::order_of, crate::specs::Magic::resolution_of))]
    pub fn set_ts_resolution(&mut self, ts_resolution: TsResolution)
        requires { IsTrue (is_magic self.old.magic_number) }
        ensures header { self.new ≡ record self.old { magic_number = magic_for (order_of self.old.magic_number) ts_resolution } }
        ensures valid { IsTrue (is_magic self.new.magic_number) }
        ensures order { order_of self.new.magic_number ≡ order_of self.old.magic_number }
        ensures resolution { resolution_of self.new.magic_number ≡ ts_resolution }
    {
        self.magic_number = magic_of(self.endianness(), ts_resolution);
    }

    /// Writes the 24 bytes of the header: the magic number high byte first, and all other numbers in the order of `B`. The
    /// magic number isn't tested.
    ///
    /// `IoError` if a write failed; then a beginning of the bytes was written.
    pub fn write_to<W: Write, B: ByteOrder>(&self, writer: &mut W) -> ResultParsing<()>
        ensures { WritesAll (W.contents writer.old) (W.contents writer.new) (header_bytes B.bytes_of self.now) result }
    {
        put(writer, &mut false, &self.to_bytes::<B>())
    }

    /// Returns the 24 bytes that `write_to` writes. `OutOfMemory` if there is no memory for them.
    #[deprecated(since = "1.0.0", note = "`write_to` takes no memory")]
    pub fn to_array<B: ByteOrder>(&self, alloc: Global) -> ResultParsing<Vec<u8>>
        ensures bytes { IfOk result (λ bytes. bytes.items ≡ header_bytes B.bytes_of self.now) }
        ensures memory { IfErr result IsMemory }
    {
        Ok(Vec::from_slice(alloc, &self.to_bytes::<B>())?)
    }

    /// Returns the default header with this link type.
    #[deprecated(since = "1.0.0", note = "change `datalink` of `PcapHeader::default()`")]
    pub fn with_datalink(datalink: DataLink) -> PcapHeader
        ensures { result ≡ record default_header { datalink = datalink } }
    {
        PcapHeader {
            datalink,
            ..PcapHeader::default()
        }
    }

    /// Returns the 24 bytes that `write_to` writes.
    pub fn to_bytes<B: ByteOrder>(&self) -> [u8; 24]
        ensures { result ≡ header_bytes B.bytes_of self.now }
    {
        let mut bytes = [0; 24];
        BigEndian::write_u32(&mut bytes, self.magic_number);
        B::write_u16(&mut bytes[4..], self.version_major);
        B::write_u16(&mut bytes[6..], self.version_minor);
        B::write_u32(&mut bytes[8..], self.ts_correction.cast_unsigned());
        B::write_u32(&mut bytes[12..], self.ts_accuracy);
        B::write_u32(&mut bytes[16..], self.snaplen);
        B::write_u32(&mut bytes[20..], self.datalink.into());
        bytes
    }
}

impl Default for PcapHeader {
    ghost is_default = { λ header. (header ≡ default_header) × IsTrue (is_magic header.magic_number) };

    #[tactic(auto, unfolding(crate::specs::Magic::kind_of, crate::specs::Magic::is_magic))]
    fn default() -> PcapHeader {
        PcapHeader {
            magic_number: 0xa1b2c3d4,
            version_major: 2,
            version_minor: 4,
            ts_correction: 0,
            ts_accuracy: 0,
            snaplen: 65535,
            datalink: DataLink::ETHERNET,
        }
    }
}

// Returns the magic number of this byte order and timestamp resolution.
#[tactic(auto, unfolding(crate::specs::Magic::kind_of))]
fn magic_of(endianness: Endianness, ts_resolution: TsResolution) -> u32
    ensures magic { result ≡ magic_for endianness ts_resolution }
    ensures kind { kind_of result ≡ Some (endianness, ts_resolution) }
{
    match (endianness, ts_resolution) {
        (Endianness::Big, TsResolution::MicroSecond) => 0xa1b2c3d4,
        (Endianness::Big, TsResolution::NanoSecond) => 0xa1b23c4d,
        (Endianness::Little, TsResolution::MicroSecond) => 0xd4c3b2a1,
        (Endianness::Little, TsResolution::NanoSecond) => 0x4d3cb2a1,
    }
}

/// Reads a header from a stream that has not failed before, and reports in `has_failed` whether it failed now. The errors
/// are those of `PcapHeader::from_reader`.
pub fn read_header<R: Read>(reader: &mut R, has_failed: &mut bool) -> ResultParsing<PcapHeader>
    requires { has_failed.old ≡ false }
    ensures { ReadsTold HeaderSays (λ header. header) (R.remaining reader.old) (R.remaining reader.new) has_failed.new result }
{
    let mut bytes = [0; 24];
    fill_array(reader, has_failed, &mut bytes)?;
    let (_, header) = PcapHeader::from_slice(&bytes)?;
    Ok(header)
}
