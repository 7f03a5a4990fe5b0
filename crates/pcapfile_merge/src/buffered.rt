//! Packets of a classic capture, lent from the reader's buffer without a copy.

ghost use Rattle.std.specs.Prelude.{◌≡◌, false, None, Some, Ok, IfSome, MatchOption};
ghost use Rattle.std.specs.Io.Buffered.{reader_buffer, reader_remaining};
ghost use Rattle.pcap_items.specs.Reading.{NextGives};
ghost use Rattle.pcap_classic.specs.Packets.{reader_format};
ghost use Rattle.pcap_classic.specs.PacketText.{packet_limit};
ghost use Rattle.pcap_classic.specs.Reader as classic;
ghost use Rattle.pcapfile_merge.specs.Buffered.{LiesWhole, StaysAt, data_of, has_failed, header_of, is_done, left_of, lent_packet};

use crate::parts::{behind, front};
use pcap_file::pcap::{PacketHeader, PacketsUnder, PcapHeader};
use pcap_file::{PcapReader, ResultParsing};
use pcap_items::stream::HasHead;
use std::io::{BufRead, BufReader, Read};

/// The size of the header of a packet record, in bytes.
const HEAD: usize = 16;

/// A reader of the packets of a classic capture, with a buffer. It lends a packet that is whole in the buffer from there, without a copy.
/// It holds a packet that ends outside the buffer.
pub struct BufferedPackets<R> {
    reader: PcapReader<BufReader<R>>,
    shown: Option<usize>,
}

// It is written out, so that crates above this one call it and prove no drop of the fields.
impl<R: Drop> Drop for BufferedPackets<R> {
    fn drop(self) {
        let BufferedPackets {
            reader: _,
            shown: _,
        } = self;
    }
}

impl<R> BufferedPackets<R> {
    /// Returns the header of the capture.
    pub fn header(&self) -> &PcapHeader
        ensures { result.now ≡ header_of self.now }
    {
        &self.reader.header
    }
}

impl<R: Read + Drop> BufferedPackets<R> {
    /// Makes a reader of the packets after those that `reader` took.
    pub fn new(reader: PcapReader<BufReader<R>>) -> BufferedPackets<R>
        ensures header { header_of result ≡ reader.header }
        ensures left { left_of R.remaining result ≡ reader_remaining R.remaining (classic.stream_of reader) }
        ensures done { is_done result ≡ classic.is_done reader }
        ensures failed { has_failed result ≡ classic.has_failed reader }
    {
        BufferedPackets {
            reader,
            shown: None,
        }
    }

    // Returns the header of the next packet. From then on, the reader lends the data of that packet.
    #[inline(always)]
    pub(crate) fn next_header(&mut self) -> Option<ResultParsing<PacketHeader>>
        requires { is_done self.old ≡ false }
        ensures header { header_of self.new ≡ header_of self.old }
        ensures next { NextGives ((reader_format packet_limit (header_of self.old)).says tt) (lent_packet self.new)
            (left_of R.remaining self.old) (left_of R.remaining self.new) (is_done self.old) (is_done self.new)
            (has_failed self.old) (has_failed self.new) result }
    {
        match self.next_there() {
            Some(header) => Some(Ok(header)),
            None => self.reader.next_header(),
        }
    }

    // Returns the header of the next packet if it is whole in the buffer, and lends its data from there. Otherwise it returns None and
    // lends nothing.
    #[inline(always)]
    pub(crate) fn next_there(&mut self) -> Option<PacketHeader>
        requires { is_done self.old ≡ false }
        ensures header { header_of self.new ≡ header_of self.old }
        ensures failed { has_failed self.new ≡ has_failed self.old }
        ensures there { MatchOption result (StaysAt R.remaining self.old self.new)
            (λ header. NextGives ((reader_format packet_limit (header_of self.old)).says tt) (lent_packet self.new)
            (left_of R.remaining self.old) (left_of R.remaining self.new) (is_done self.old) (is_done self.new)
            (has_failed self.old) (has_failed self.new) (Some (Ok header))) }
    {
        self.let_go();
        let (header, used) = self.packet_there()?;
        self.shown = Some(used);
        Some(header)
    }

    // Returns the header of the packet that is whole at the start of the buffer, and its size in bytes with the header.
    #[inline(always)]
    fn packet_there(&self) -> Option<(PacketHeader, usize)>
        ensures { IfSome result (λ found. LiesWhole (header_of self.now) (reader_buffer (classic.stream_of self.now.reader)) found.0 found.1) }
    {
        let reader = &self.reader;
        whole_packet(&reader.header, reader.get_ref().buffer())
    }

    // Removes the lent packet from the buffer.
    #[inline(always)]
    fn let_go(&mut self)
        ensures header { header_of self.new ≡ header_of self.old }
        ensures left { left_of R.remaining self.new ≡ left_of R.remaining self.old }
        ensures done { is_done self.new ≡ is_done self.old }
        ensures failed { has_failed self.new ≡ has_failed self.old }
        ensures nothing { self.new.shown ≡ None }
    {
        if let Some(used) = self.shown {
            self.reader.get_mut().consume(used);
        }
        self.shown = None;
    }

    // Returns the data of the packet whose header came last.
    #[inline(always)]
    pub(crate) fn data(&self) -> &[u8]
        ensures { result.now ≡ data_of self.now }
    {
        match self.shown {
            None => self.reader.data(),
            Some(used) => behind(front(self.reader.get_ref().buffer(), used), HEAD),
        }
    }
}

// Returns the header of the packet that is whole at the start of the bytes, and its size in bytes with the header.
#[inline(always)]
fn whole_packet(header: &PcapHeader, shown: &[u8]) -> Option<(PacketHeader, usize)>
    ensures { IfSome result (λ found. LiesWhole header.now shown.now found.0 found.1) }
{
    let packets = PacketsUnder { header };
    let head = packets.head();
    if shown.len() < head {
        return None;
    }
    let (before, after) = shown.split_at(head);
    let Ok((found, len)) = packets.stated(before) else {
        return None;
    };
    if after.len() < len {
        return None;
    }
    Some((found, head + len))
}
