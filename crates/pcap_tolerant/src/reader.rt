//! A lenient reader of the packets of a stream.

ghost use Rattle.std.specs.Io.KnownBytes.{Consumes};
ghost use Rattle.std.specs.Prelude.{◌≡◌, false, [], IfOk, IfNone, OnErr};
ghost use Rattle.pcap_items.specs.Fill.{held_of as held_in, stream_of as source_of, has_failed as source_failed};
ghost use Rattle.pcap_items.specs.Lent.{HoldsText};
ghost use Rattle.pcap_items.specs.Reading.{NextGives, Pulls};
ghost use Rattle.pcap_classic.specs.Magic.{order_of, resolution_of};
ghost use Rattle.pcap_classic.specs.Parser.{header_of};
ghost use Rattle.pcap_tolerant.specs.AsIs.{as_it_is};
ghost use Rattle.pcap_tolerant.specs.KnownHeads.{held_as_is};
ghost use Rattle.pcap_tolerant.specs.Run.{as_is_under};

use crate::as_is::{HeadAsIs, PacketAsIs};
use crate::stated::PacketsAsIs;
use pcap_classic::TsResolution;
use pcap_classic::pcap::{PcapHeader, PcapParser};
use pcap_core::{Endianness, ResultParsing};
use pcap_items::stream::{Fill, Told};
use std::alloc::Global;
use std::io::Read;

/// A reader that reads the packets of a stream leniently, one for each call of `next_header`, and leaves none out for its
/// flaws. It lends the packet's data until the next call, so a packet needs no memory of its own.
///
/// The reader refuses only a packet whose stored length is above the limit, in bytes, since the end of such a packet can't be
/// trusted. A limit below 262144 counts as 262144.
///
/// `next_header` returns None if the stream ends between packets, and the next call reads the stream again. After its first
/// error it always returns None. Between packets the reader has taken exactly the bytes of the header and of the packets. A
/// call that returns an error has taken no more than was missing.
#[derive(Debug, Drop)]
pub struct ReaderAsIs<T> {
    parser: PcapParser,
    limit: u32,
    fill: Fill<T>,
    is_done: bool,
    ghost unfailed: { is_done ≡ false → source_failed fill ≡ false },
}

// Holds the next packet with its head. Nothing is held before the call, nor after a `None`.
#[inline(always)]
fn hold<T: Read>(
    parser: &PcapParser,
    limit: u32,
    fill: &mut Fill<T>,
) -> ResultParsing<Option<HeadAsIs>>
    requires between { held_in fill.old ≡ [] }
    requires unfailed { source_failed fill.old ≡ false }
    ensures pulls { Pulls ((as_is_under limit (header_of parser.now)).says tt) (held_as_is (held_in fill.new))
        (T.remaining (source_of fill.old)) (T.remaining (source_of fill.new)) (source_failed fill.new) result }
    ensures none { IfOk result (λ head. IfNone head (held_in fill.new ≡ [])) }
    ensures text { HoldsText ((as_is_under limit (header_of parser.now)).says tt) (held_as_is (held_in fill.new))
        (T.remaining (source_of fill.old)) (T.remaining (source_of fill.new)) (held_in fill.new) result }
    ensures refused { OnErr result (Consumes (T.remaining (source_of fill.old)) (T.remaining (source_of fill.new)) (held_in fill.new)) }
{
    fill.item(&PacketsAsIs { parser, limit })
}

impl<T: Read + Drop> ReaderAsIs<T> {
    ghost use Rattle.pcap_tolerant.specs.ReaderAsIs.{stream_of, header_read, limit_of, has_failed, is_done, held_of};
    ghost use Rattle.pcap_tolerant.specs.ReaderAsIs.{data_of, lent_packet, HoldsGiven, OpensAsIs};

    /// Reads the header of a capture from a stream, and returns a reader of the packets behind it. A call that fails drops the
    /// stream.
    ///
    /// Returns `InvalidField` if the magic number is none of the four. Returns `IoError` if a read fails, or if the stream ends
    /// early.
    pub fn new(alloc: Global, mut stream: T, limit: u32) -> ResultParsing<ReaderAsIs<T>>
        ensures { OpensAsIs T.remaining limit stream result }
    {
        let header = PcapHeader::from_reader(&mut stream)?;
        let parser = PcapParser::with_header(header)?;
        Ok(ReaderAsIs::with_parser(alloc, parser, stream, limit))
    }

    /// Reads the next packet and returns its head. The reader lends the packet's data (`data`, `packet`) until the next call.
    ///
    /// Returns `InvalidField` by V3 if the stored length is above the limit. Returns `IoError` if a read fails, or if the
    /// stream ends inside the packet. Returns `OutOfMemory` if the packet can't be held. The buffer grows with the bytes that
    /// come, and keeps its size.
    pub fn next_header(&mut self) -> Option<ResultParsing<HeadAsIs>>
        ensures header { header_read self.new ≡ header_read self.old }
        ensures limit { limit_of self.new ≡ limit_of self.old }
        ensures next { NextGives ((as_is_under (limit_of self.old) (header_read self.old)).says tt) (lent_packet self.new)
            (T.remaining (stream_of self.old)) (T.remaining (stream_of self.new)) (is_done self.old) (is_done self.new)
            (has_failed self.old) (has_failed self.new) result }
        ensures let_go { IfNone result (data_of self.new ≡ []) }
        ensures text { HoldsGiven ((as_is_under (limit_of self.old) (header_read self.old)).says tt) (lent_packet self.new)
            (T.remaining (stream_of self.old)) (T.remaining (stream_of self.new)) (held_of self.new) result }
    {
        self.fill.clear();
        if self.is_done {
            return None;
        }
        let head = hold(&self.parser, self.limit, &mut self.fill);
        self.is_done = head.is_err();
        head.transpose()
    }
}

impl<T> ReaderAsIs<T> {
    ghost use Rattle.pcap_tolerant.specs.ReaderAsIs.{stream_of, header_read, limit_of, has_failed, is_done, held_of, data_of, lent_packet};

    /// Returns a reader of the packets of a parser's capture. The stream must be after the 24 bytes of the header, or elsewhere
    /// at the start of a packet.
    pub fn with_parser(alloc: Global, parser: PcapParser, stream: T, limit: u32) -> ReaderAsIs<T>
        ensures header { header_read result ≡ header_of parser }
        ensures limit { limit_of result ≡ limit }
        ensures stream { stream_of result ≡ stream }
        ensures unfailed { has_failed result ≡ false }
        ensures ready { is_done result ≡ false }
        ensures nothing_held { held_of result ≡ [] }
    {
        ReaderAsIs {
            parser,
            limit,
            fill: Fill::new(alloc, Told::new(stream)),
            is_done: false,
        }
    }

    /// Returns the header of the capture.
    pub fn header(&self) -> &PcapHeader
        ensures { result.now ≡ header_read self.now }
    {
        self.parser.header()
    }

    /// Returns the byte order of the capture.
    pub fn endianness(&self) -> Endianness
        ensures { result ≡ order_of (header_read self.now).magic_number }
    {
        self.parser.header().endianness()
    }

    /// Returns the timestamp resolution of the capture.
    pub fn ts_resolution(&self) -> TsResolution
        ensures { result ≡ resolution_of (header_read self.now).magic_number }
    {
        self.parser.header().ts_resolution()
    }

    /// Returns the held bytes: the head and data of the last packet that `next_header` returned. After an error they are the
    /// bytes of the refused packet that were read.
    pub fn held(&self) -> &[u8]
        ensures { result.now ≡ held_of self.now }
    {
        self.fill.held()
    }

    /// Returns the data of the last packet whose head `next_header` returned. It is empty after the end of the stream.
    pub fn data(&self) -> &[u8]
        ensures { result.now ≡ data_of self.now }
    {
        let bytes = self.held();
        if bytes.len() < 16 {
            return &[];
        }
        let (_head, data) = bytes.split_at(16);
        data
    }

    /// Returns the packet with this head, which `next_header` returned last. The reader lends the packet's data.
    pub fn packet(&self, head: HeadAsIs) -> PacketAsIs<'_>
        ensures { as_it_is result ≡ lent_packet self.now head }
    {
        head.packet(self.data())
    }

    /// Returns whether a read of the wrapped stream failed.
    pub fn failed(&self) -> bool
        ensures { result ≡ has_failed self.now }
    {
        self.fill.failed()
    }

    /// Returns the wrapped stream by reference.
    pub fn get_ref(&self) -> &T
        ensures { result.now ≡ stream_of self.now }
    {
        self.fill.get_ref()
    }

    /// Returns the wrapped stream, and drops the held bytes.
    pub fn into_reader(self) -> T
        ensures { result ≡ stream_of self }
    {
        self.fill.into_inner()
    }
}
