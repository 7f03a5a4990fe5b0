//! Packets of a stream.

ghost use Rattle.std.specs.Prelude.{◌≡◌, ◌≤◌, max, false, [], OnOk, IfOk, IfNone, IfSome};
ghost use Rattle.pcap_core.specs.Bytes.{IsBorrowed, IsOwned};
ghost use Rattle.std.specs.Borrow.{sem, Lends};
ghost use Rattle.pcap_items.specs.Held.{held_bytes, room_of};
ghost use Rattle.pcap_items.specs.Fill.{held_of, stream_of as source_of, has_failed as source_failed};
ghost use Rattle.pcap_classic.specs.Packets.{reader_format};
ghost use Rattle.pcap_classic.specs.PacketText.{packet_limit, content_of};
ghost use Rattle.pcap_classic.specs.StatedPackets.{held_packet};
ghost use Rattle.pcap_items.specs.Reading.{NextGives, Pulls};

use crate::pcap::stated::PacketsUnder;
use crate::pcap::{Packet, PacketHeader, PcapHeader};
use pcap_core::{CowBytes, ResultParsing};
use pcap_items::stream::{Fill, Held, Told};
use std::alloc::Global;
use std::io::Read;

/// Reads the packets of a capture from a stream, one per call of `next` or `next_header`. `next_header` takes no memory per packet.
///
/// Both return None if the stream ends between packets; the next call reads the stream again. After the first error they always
/// return None. Between packets the reader has taken exactly the bytes of the header and of the packets. A failed call has taken
/// no more bytes than were missing.
///
/// A stream may never end, so a loop needs a bound to be proved: `for packet in reader.take(usize::MAX)`, or for lent packets:
///
/// ```
/// for _ in 0..u64::MAX {
///     let Some(header) = reader.next_header() else {
///         break;
///     };
///     let packet = reader.packet(header?);
/// }
/// ```
#[derive(Debug, Drop)]
pub struct PcapReader<T> {
    /// The header of the capture. Each packet is read under its current fields.
    pub header: PcapHeader,
    alloc: Global,
    // the bytes that `next_header` lends
    fill: Fill<T>,
    // the head of the packet that `next` takes
    head: Held,
    is_done: bool,
    ghost between: { is_done ≡ false → held_bytes head ≡ [] },
    ghost unfailed: { is_done ≡ false → source_failed fill ≡ false },
    ghost room: { room_of head ≤ 16 },
}

// Takes the next packet. No head is held before the call, nor after an `Ok`. Lent bytes stay.
fn pull<T: Read>(
    alloc: Global,
    header: &PcapHeader,
    fill: &mut Fill<T>,
    head: &mut Held,
) -> ResultParsing<Option<Packet<'static>>>
    requires between { held_bytes head.old ≡ [] }
    requires unfailed { source_failed fill.old ≡ false }
    ensures pulls { Pulls ((reader_format packet_limit header.now).says tt) content_of (T.remaining (source_of fill.old)) (T.remaining (source_of fill.new))
        (source_failed fill.new) result }
    ensures owned { IfOk result (λ found. IfSome found (λ packet. IsOwned packet.data_)) }
    ensures between { OnOk result (held_bytes head.new ≡ []) }
    ensures room { room_of head.new ≤ max (room_of head.old) 16 }
    ensures lent { held_of fill.new ≡ held_of fill.old }
{
    let packets = PacketsUnder { header };
    let Some((header, bytes)) = fill.take(alloc, &packets, head)? else {
        return Ok(None);
    };
    let data_ = CowBytes::Owned(bytes);
    Ok(Some(Packet { header, data_ }))
}

// Holds the next packet, with its header. Nothing is held before the call, nor after a `None`.
#[inline(always)]
fn hold<T: Read>(header: &PcapHeader, fill: &mut Fill<T>) -> ResultParsing<Option<PacketHeader>>
    requires between { held_of fill.old ≡ [] }
    requires unfailed { source_failed fill.old ≡ false }
    ensures pulls { Pulls ((reader_format packet_limit header.now).says tt) (held_packet (held_of fill.new))
        (T.remaining (source_of fill.old)) (T.remaining (source_of fill.new)) (source_failed fill.new) result }
    ensures none { IfOk result (λ head. IfNone head (held_of fill.new ≡ [])) }
{
    fill.item(&PacketsUnder { header })
}

impl<T: Read + Drop> PcapReader<T> {
    ghost use Rattle.pcap_classic.specs.Reader.{stream_of, has_failed, is_done, data_of, lent_packet, LetsGo, OpensReader};

    /// Reads the header of a capture from a stream, and makes a reader of the packets after it. A failed call drops the
    /// stream.
    ///
    /// `InvalidField` if the magic number is none of the four. `IoError` if a read failed, or the stream ended early.
    pub fn new(alloc: Global, mut reader: T) -> ResultParsing<PcapReader<T>>
        ensures { OpensReader T.remaining reader result }
    {
        let header = PcapHeader::from_reader(&mut reader)?;
        Ok(PcapReader::with_header(alloc, header, reader))
    }

    /// Returns the header of the next packet. The reader lends the packet's data (`data`, `packet`) until its next call, so
    /// a packet takes no memory of its own. It returns None and errors as `next` does.
    ///
    /// `InvalidField` for the first rule that the packet's header breaks. `IoError` if a read failed, or the stream ended
    /// inside the packet. `OutOfMemory` if the memory for its bytes runs out; the buffer grows as bytes arrive, and stays.
    pub fn next_header(&mut self) -> Option<ResultParsing<PacketHeader>>
        ensures header { self.new.header ≡ self.old.header }
        ensures next { NextGives ((reader_format packet_limit self.old.header).says tt) (lent_packet self.new) (T.remaining (stream_of self.old))
            (T.remaining (stream_of self.new)) (is_done self.old) (is_done self.new) (has_failed self.old) (has_failed self.new) result }
        ensures let_go { LetsGo result (data_of self.new) }
    {
        self.fill.clear();
        if self.is_done {
            return None;
        }
        let head = hold(&self.header, &mut self.fill);
        self.is_done = head.is_err();
        if self.is_done {
            self.fill.clear();
        }
        head.transpose()
    }
}

impl<T> PcapReader<T> {
    ghost use Rattle.pcap_classic.specs.contracts.pcap.reader.PcapReader.{the_row as reader-row};
    ghost use Rattle.pcap_classic.specs.LentStreams.{reader_with};
    ghost use Rattle.pcap_classic.specs.Reader.{stream_of, has_failed, is_done, data_of, lent_packet};

    /// Returns the data of the packet whose header `next_header` returned last. It is empty if `next_header` returned none.
    pub fn data(&self) -> &[u8]
        ensures { result.now ≡ data_of self.now }
    {
        let bytes = self.fill.held();
        if bytes.len() < 16 {
            return &[];
        }
        let (_head, data) = bytes.split_at(16);
        data
    }

    /// Returns the packet whose header `next_header` returned last, with its data lent by the reader.
    pub fn packet(&self, header: PacketHeader) -> Packet<'_>
        ensures packet { content_of result ≡ lent_packet self.now header }
        ensures borrowed { IsBorrowed result.data_ }
    {
        Packet {
            header,
            data_: CowBytes::Borrowed(self.data()),
        }
    }

    /// Makes a reader of the packets of a stream whose 24 bytes of header were already read.
    pub fn with_header(alloc: Global, header: PcapHeader, stream: T) -> PcapReader<T>
        ensures header { result.header ≡ header }
        ensures stream { stream_of result ≡ stream }
        ensures unfailed { has_failed result ≡ false }
        ensures ready { is_done result ≡ false }
        ensures nothing_lent { data_of result ≡ [] }
    {
        PcapReader {
            header,
            alloc,
            fill: Fill::new(alloc, Told::new(stream)),
            head: Held::new(alloc),
            is_done: false,
        }
    }

    /// Returns the wrapped stream.
    pub fn into_reader(self) -> T
        ensures { result ≡ stream_of self }
    {
        self.fill.into_inner()
    }

    /// Lends the wrapped stream.
    pub fn get_ref(&self) -> &T
        ensures { result.now ≡ stream_of self.now }
    {
        self.fill.get_ref()
    }

    /// Lends the wrapped stream, mutably. Bytes that the caller reads from it directly are in no packet of this reader.
    pub fn get_mut(&mut self) -> &mut T
        ensures value { result.now ≡ stream_of self.old }
        ensures* writes_back { sem 𝓛 (Lends (reader-row T.row) T.row self.entry result (reader_with self.old)) }
    {
        self.fill.get_mut()
    }

    /// Returns whether a read of the wrapped stream failed.
    pub fn failed(&self) -> bool
        ensures { result ≡ has_failed self.now }
    {
        self.fill.failed()
    }
}

impl<T: Read + Drop> Iterator for PcapReader<T> {
    ghost use Rattle.pcap_classic.specs.Reader.{stream_of, has_failed, is_done, data_of};

    type Item = ResultParsing<Packet<'static>>;

    ghost next_gives = { λ s r t. (t.header ≡ s.header)
        × NextGives ((reader_format packet_limit s.header).says tt) content_of
        (T.remaining (stream_of s)) (T.remaining (stream_of t)) (is_done s) (is_done t) (has_failed s) (has_failed t) r
        × IfSome r (λ given. IfOk given (λ packet. IsOwned packet.data_))
        × (data_of t ≡ data_of s) };

    fn next(&mut self) -> Option<ResultParsing<Packet<'static>>> {
        if self.is_done {
            return None;
        }
        let taken = pull(self.alloc, &self.header, &mut self.fill, &mut self.head);
        match taken {
            Ok(None) => None,
            Ok(Some(packet)) => Some(Ok(packet)),
            Err(e) => {
                self.is_done = true;
                Some(Err(e))
            }
        }
    }
}
