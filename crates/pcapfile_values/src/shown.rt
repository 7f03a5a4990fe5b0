//! The structs in which a program in C sees bytes, headers and packets.

ghost use Rattle.std.specs.Prelude.{◌≡◌, false, length, IsTrue};
ghost use Rattle.std.specs.Option.{MatchOption};
ghost use Rattle.pcap_core.specs.Bytes.{IsBorrowed};
ghost use Rattle.pcap_core.specs.Link.{Link};
ghost use Rattle.pcap_classic.specs.Magic.{is_magic, order_of, resolution_of};
ghost use Rattle.pcap_classic.specs.PacketText.{content_of};
ghost use Rattle.pcapfile_values.specs.Shown.{shown_header, captured};

use pcap_classic::TsResolution;
use pcap_classic::pcap::{Packet, PcapHeader};
use pcap_core::{CowBytes, DataLink, Endianness};

/// Borrowed bytes. In C: `pcapfile_bytes`, a pointer and a length.
#[repr(C)]
#[derive(Drop)]
pub struct PcapfileBytes<'a> {
    pub bytes: &'a [u8],
}

/// The header of a classic capture. In C: `pcapfile_header`.
#[repr(C)]
#[derive(Clone, Copy)]
pub struct PcapfileHeader {
    pub magic_number: u32,
    pub version_major: u16,
    pub version_minor: u16,
    pub ts_correction: i32,
    pub ts_accuracy: u32,
    pub snaplen: u32,
    pub link: u32,
}

/// A packet of a classic capture: its time, its original length, and its bytes, borrowed from the capture. In C: `pcapfile_packet`.
#[repr(C)]
#[derive(Clone, Copy)]
pub struct PcapfilePacket<'a> {
    pub ts_sec: u32,
    pub ts_nsec: u32,
    pub orig_len: u32,
    pub bytes: &'a [u8],
}

impl PcapfileHeader {
    /// Returns the struct for a header.
    pub fn new(header: &PcapHeader) -> PcapfileHeader
        ensures { result ≡ shown_header header.now }
    {
        PcapfileHeader {
            magic_number: header.magic_number,
            version_major: header.version_major,
            version_minor: header.version_minor,
            ts_correction: header.ts_correction,
            ts_accuracy: header.ts_accuracy,
            snaplen: header.snaplen,
            link: u32::from(header.datalink),
        }
    }

    /// Returns the byte order and the timestamp resolution that the magic number names, or None if it names none.
    #[inline(always)]
    pub fn kind(&self) -> Option<(Endianness, TsResolution)>
        ensures { let magic = self.now.magic_number in
            MatchOption result (is_magic magic ≡ false) (λ kind. IsTrue (is_magic magic) × (order_of magic ≡ kind.0) × (resolution_of magic ≡ kind.1)) }
    {
        let header = PcapHeader {
            magic_number: self.magic_number,
            ..PcapHeader::default()
        };
        if !header.has_valid_magic() {
            return None;
        }
        Some((header.endianness(), header.ts_resolution()))
    }

    /// Returns the header that the struct shows.
    pub fn header(&self) -> PcapHeader
        ensures shown { shown_header result ≡ self.now }
        ensures link { Link self.now.link result.datalink }
    {
        PcapHeader {
            magic_number: self.magic_number,
            version_major: self.version_major,
            version_minor: self.version_minor,
            ts_correction: self.ts_correction,
            ts_accuracy: self.ts_accuracy,
            snaplen: self.snaplen,
            datalink: DataLink::from(self.link),
        }
    }
}

impl<'a> PcapfilePacket<'a> {
    /// Returns the struct for a packet whose bytes are borrowed from a capture.
    pub fn new(packet: Packet<'a>) -> PcapfilePacket<'a>
        requires borrowed { IsBorrowed packet.data_ }
        requires whole { length (content_of packet).bytes ≡ packet.header.incl_len }
        ensures { captured result ≡ content_of packet.entry }
    {
        let CowBytes::Borrowed(bytes) = packet.data_ else {
            unreachable!()
        };
        PcapfilePacket {
            ts_sec: packet.header.ts_sec,
            ts_nsec: packet.header.ts_nsec,
            orig_len: packet.header.orig_len,
            bytes,
        }
    }
}
