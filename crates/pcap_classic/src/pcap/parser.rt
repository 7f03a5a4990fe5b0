//! A parser of a capture that comes in slices.

ghost use Rattle.std.specs.Prelude.{◌≡◌, IfOk, IsTrue};
ghost use Rattle.pcap_core.specs.Answer.{Tells, number_in};
ghost use Rattle.pcap_classic.specs.Magic.{is_magic, order_of, resolution_of};

use crate::pcap::packet::packet_under;
use crate::pcap::{Packet, PcapHeader};
use pcap_core::rules::Rule;
use pcap_core::{PcapError, ResultParsing};

/// A parser of a classic capture. It holds the header, and returns a packet for each slice that begins with one.
#[derive(Debug, Drop)]
pub struct PcapParser {
    header: PcapHeader,
    pub ghost valid: { IsTrue (is_magic header.magic_number) },
}

impl PcapParser {
    ghost use Rattle.pcap_core.specs.Bytes.{IsBorrowed};
    ghost use Rattle.pcap_classic.specs.PacketText.{packet_limit, content_of, PacketSays};
    ghost use Rattle.pcap_classic.specs.HeaderText.{HeaderSays};
    ghost use Rattle.pcap_classic.specs.Parser.{header_of, OpensParser};

    /// Reads the header at the front of a slice, and returns a parser for its packets and the bytes after the header.
    ///
    /// `IncompleteBuffer` for fewer than 24 bytes, and `InvalidField` if the magic number is none of the four.
    pub fn new(slice: &[u8]) -> ResultParsing<(&[u8], PcapParser)>
        ensures tells { Tells (HeaderSays slice.now) header_of result }
    {
        let (rest, header) = PcapHeader::from_slice(slice)?;
        Ok((rest, PcapParser { header }))
    }

    /// Makes a parser of the packets after this header.
    ///
    /// `InvalidField` if the magic number is none of the four.
    pub fn with_header(header: PcapHeader) -> ResultParsing<PcapParser>
        ensures { OpensParser header result }
    {
        if !header.has_valid_magic() {
            return Err(PcapError::from(Rule::CaptureMagic));
        }
        Ok(PcapParser { header })
    }

    /// Returns the header of the capture.
    pub fn header(&self) -> &PcapHeader
        ensures { result.now ≡ header_of self.now }
    {
        &self.header
    }

    /// Returns the packet at the front of a slice, and the bytes after it. The packet's data is borrowed from the slice.
    ///
    /// `IncompleteBuffer` if bytes are missing, 16 for the empty slice. `InvalidField` for the first rule that the packet's
    /// header breaks. The parser doesn't change.
    #[inline(always)]
    pub fn next_packet<'a>(&self, slice: &'a [u8]) -> ResultParsing<(&'a [u8], Packet<'a>)>
        ensures tells { let magic = (header_of self.now).magic_number in
            Tells (PacketSays packet_limit (number_in (order_of magic)) (resolution_of magic) slice.now) content_of result }
        ensures borrowed { IfOk result (λ x. IsBorrowed x.1.data_) }
    {
        packet_under(&self.header, slice)
    }
}
