//! Laws of the grammar and of `==`. Each contract is the law. Only the functions about `==`, clones and defaults call
//! anything.

ghost use Rattle.std.specs.Prelude.{IfOk, IsOk, ◌≡◌, ◌≤◌, ◌+◌, ◌++◌, ◌↔◌, ℕ, List, [], ◌∷◌, length, map, All, IsTrue, Option, false};
ghost use Rattle.std.specs.Io.KnownBytes.{Appends};
ghost use Rattle.pcap_classic.specs.declared.pcap.header.PcapHeader.{PcapHeader};
ghost use Rattle.pcap_classic.specs.declared.run.copy.Copied.{Copied};
ghost use Rattle.pcap_classic.specs.declared.run.copy.Under.{Under};
ghost use Rattle.pcap_classic.specs.declared.run.copy.Under.TheVariants.{Same};
ghost use Rattle.pcap_core.specs.Answer.{Order, number_in, whole, lacks};
ghost use Rattle.pcap_core.specs.Bytes.{IsBytes};
ghost use Rattle.pcap_core.specs.Codec.{number_bytes};
ghost use Rattle.pcap_classic.specs.Copies.{CanBeUnder, CopyFront, CopiesAll, NothingFailed, header_under};
ghost use Rattle.pcap_items.specs.Format.{Front, Asks, IsLawful};
ghost use Rattle.pcap_classic.specs.Front.{CaptureFront};
ghost use Rattle.pcap_classic.specs.HeaderText.{HeaderSays, HeaderText};
ghost use Rattle.pcap_core.specs.Laws.{ExactlyOne, IsStable};
ghost use Rattle.pcap_core.specs.Link.{Link, IsPlain, link_number};
ghost use Rattle.pcap_classic.specs.Magic.{is_magic, resolution_of};
ghost use Rattle.pcap_classic.specs.Packets.{packet_format, reader_format};
ghost use Rattle.pcap_classic.specs.PacketText.{packet_limit, PacketSays, PacketHeaderSays, Captured, PacketText};
ghost use Rattle.pcap_classic.specs.Pieces.{HoldsPackets};
ghost use Rattle.pcap_items.specs.Reading.{TakesAsked, TakesAtMost};
ghost use Rattle.pcap_items.specs.Requested.{HeadThenRest, RequestsAt, RunRequests};
ghost use Rattle.pcap_classic.specs.Written.{IsWhole, IsWholeHeader, capture, cut, record_bytes};

use crate::common::{DataLink, Endianness, TsResolution};
use crate::pcap::{PacketHeader, PcapHeader};
use std::alloc::AllocError;

/// For each slice, exactly one of three is true: a capture's header begins it, a certain number of bytes of the header is
/// missing, or it has a certain fault.
pub fn header_is_one()
    ensures { (s : List ℕ) → ExactlyOne (HeaderSays s) }
{}

/// For each slice, exactly one is true of a packet's header: it begins the slice, lacks a number of bytes, or has one
/// fault.
pub fn packet_header_is_one()
    ensures { (limit : ℕ) (order : Order) (r : TsResolution) (s : List ℕ) → ExactlyOne (PacketHeaderSays limit order r s) }
{}

/// For each slice, exactly one is true of a packet: it begins the slice, lacks a number of bytes, or has one fault.
pub fn packet_is_one()
    ensures { (limit : ℕ) (order : Order) (r : TsResolution) (s : List ℕ) → ExactlyOne (PacketSays limit order r s) }
{}

/// More bytes change neither a capture's header nor its fault, and reduce a request by their number.
pub fn header_is_stable()
    ensures { IsStable HeaderSays }
{}

/// More bytes change neither a packet's header nor its fault, and reduce a request by their number.
pub fn packet_header_is_stable()
    ensures { (limit : ℕ) (order : Order) (r : TsResolution) → IsStable (PacketHeaderSays limit order r) }
{}

/// More bytes change neither a packet nor its fault, and reduce a request by their number.
pub fn packet_is_stable()
    ensures { (limit : ℕ) (order : Order) (r : TsResolution) → IsStable (PacketSays limit order r) }
{}

/// Packets are a lawful format: all bytes have exactly one verdict, more bytes change neither a packet nor a fault, and a
/// packet's text alone is that packet. A request is for the missing bytes of the header, or it is the last request.
pub fn packets_are_lawful()
    ensures { (limit : ℕ) (order : Order) (r : TsResolution) → IsLawful (packet_format limit order r) }
{}

/// If the caller adds exactly the bytes requested, the parser asks at most twice for a packet, and no bytes follow the
/// packet.
pub fn packets_are_asked_for_twice()
    ensures { (limit : ℕ) (order : Order) (r : TsResolution) (n : ℕ) (ns s t : List ℕ) →
        Asks (packet_format limit order r) tt (n ∷ ns) s t →
        (length (n ∷ ns) ≤ 2) × ((packet : Captured) (rest : List ℕ) → PacketText limit order r packet t rest → rest ≡ []) }
{}

/// If the caller adds exactly the bytes requested, the parser asks only once for a capture's header, and no bytes follow
/// it.
pub fn header_is_asked_for_once()
    ensures { (n : ℕ) (s more : List ℕ) → HeaderSays s (lacks n) → length more ≡ n →
        ((m : ℕ) → HeaderSays (s ++ more) (lacks m) → ⊥) × ((header : PcapHeader) (rest : List ℕ) → HeaderSays (s ++ more) (whole header rest) → rest ≡ []) }
{}

/// If the caller adds exactly the bytes requested, the parser asks only once for a packet's header, and no bytes follow it.
pub fn packet_header_is_asked_for_once()
    ensures { (limit : ℕ) (order : Order) (r : TsResolution) (n : ℕ) (s more : List ℕ) → PacketHeaderSays limit order r s (lacks n) → length more ≡ n →
        ((m : ℕ) → PacketHeaderSays limit order r (s ++ more) (lacks m) → ⊥)
        × ((header : PacketHeader) (rest : List ℕ) → PacketHeaderSays limit order r (s ++ more) (whole header rest) → rest ≡ []) }
{}

/// If the magic number is none of the four, a failed call of `PcapReader::next` has taken at most one byte.
pub fn invalid_magic_takes_one_byte()
    ensures { (limit : ℕ) (header : PcapHeader) (before after : Option (List ℕ)) → is_magic header.magic_number ≡ false →
        TakesAsked ((reader_format limit header).says tt) before after → TakesAtMost 1 before after }
{}

/// All bytes have exactly one front of packets.
pub fn packets_have_one_front()
    ensures { (limit : ℕ) (order : Order) (r : TsResolution) (s : List ℕ) →
        ExactlyOne (λ (p : List Captured × List ℕ). Front (packet_format limit order r) tt p.0 s p.1) }
{}

/// Bytes that begin with a capture's header have exactly one front as a capture.
pub fn capture_has_one_front()
    ensures { (limit : ℕ) (header : PcapHeader) (s after : List ℕ) → HeaderText header s after →
        ExactlyOne (λ (p : PcapHeader × List Captured × List ℕ). CaptureFront limit p.0 p.1 s p.2) }
{}

/// The packets of the front under a limit are a beginning of the packets under a larger limit.
pub fn larger_limit_keeps_packets()
    ensures { (limit larger : ℕ) (h k : PcapHeader) (ps qs : List Captured) (s a b : List ℕ) → limit ≤ larger →
        CaptureFront limit h ps s a → CaptureFront larger k qs s b → (h ≡ k) × (more : List Captured) × (qs ≡ ps ++ more) }
{}

/// The front of a capture has the same bytes as its header and packets when they are written.
pub fn front_is_written()
    ensures { (limit : ℕ) (header : PcapHeader) (packets : List Captured) (s rest : List ℕ) → IsBytes s →
        CaptureFront limit header packets s rest → s ≡ capture header packets ++ rest }
{}

/// A packet with valid lengths is read again after it is written, with its nanoseconds cut to the timestamp resolution.
pub fn written_packet_is_read()
    ensures { (e : Endianness) (r : TsResolution) (packet : Captured) (rest : List ℕ) → IsWhole packet →
        PacketText packet_limit (number_in e) r (cut r packet) (record_bytes (number_bytes e) r packet ++ rest) rest }
{}

/// Each number belongs to exactly one link type.
pub fn link_keeps_its_number()
    ensures { (n : ℕ) → ExactlyOne (λ (link : DataLink). Link n link) }
{}

/// The number of a link type leads back to that link type, unless it is an unknown link type with a number of the table.
pub fn number_keeps_its_link()
    ensures { (link again : DataLink) → IsPlain link → Link (link_number link) again → again ≡ link }
{}

/// Two link types are equal exactly if they are the same variant and, for unknown ones, have the same number.
pub fn links_are_equal(left: DataLink, right: DataLink) -> bool
    ensures { IsTrue result ↔ (left ≡ right) }
{
    left == right
}

/// Two capture headers are equal exactly if all their fields are equal.
pub fn headers_are_equal(left: &PcapHeader, right: &PcapHeader) -> bool
    ensures { IsTrue result ↔ (left.now ≡ right.now) }
{
    left == right
}

/// Two packet headers are equal exactly if all their fields are equal.
pub fn packet_headers_are_equal(left: &PacketHeader, right: &PacketHeader) -> bool
    ensures { IsTrue result ↔ (left.now ≡ right.now) }
{
    left == right
}

/// Two byte orders are equal exactly if they are the same.
pub fn orders_are_equal(left: Endianness, right: Endianness) -> bool
    ensures { IsTrue result ↔ (left ≡ right) }
{
    left == right
}

/// Two timestamp resolutions are equal exactly if they are the same.
pub fn resolutions_are_equal(left: TsResolution, right: TsResolution) -> bool
    ensures { IsTrue result ↔ (left ≡ right) }
{
    left == right
}

/// A clone of a link type equals it, and cloning takes no memory.
pub fn link_is_cloned(link: &DataLink) -> Result<DataLink, AllocError>
    ensures clone { IfOk result (λ clone. clone ≡ link.now) }
    ensures succeeds { IsOk result }
{
    link.clone()
}

/// A clone of a byte order equals it, and cloning takes no memory.
pub fn order_is_cloned(order: &Endianness) -> Result<Endianness, AllocError>
    ensures clone { IfOk result (λ clone. clone ≡ order.now) }
    ensures succeeds { IsOk result }
{
    order.clone()
}

/// A clone of a timestamp resolution equals it, and cloning takes no memory.
pub fn resolution_is_cloned(resolution: &TsResolution) -> Result<TsResolution, AllocError>
    ensures clone { IfOk result (λ clone. clone ≡ resolution.now) }
    ensures succeeds { IsOk result }
{
    resolution.clone()
}

/// A clone of a capture's header equals it, and cloning takes no memory.
pub fn header_is_cloned(header: &PcapHeader) -> Result<PcapHeader, AllocError>
    ensures clone { IfOk result (λ clone. clone ≡ header.now) }
    ensures succeeds { IsOk result }
{
    header.clone()
}

/// A clone of a packet's header equals it, and cloning takes no memory.
pub fn packet_header_is_cloned(header: &PacketHeader) -> Result<PacketHeader, AllocError>
    ensures clone { IfOk result (λ clone. clone ≡ header.now) }
    ensures succeeds { IsOk result }
{
    header.clone()
}

/// The default packet header has 0 in all of its fields.
pub fn default_packet_header() -> PacketHeader
    ensures { result ≡ record { ts_sec = 0; ts_nsec = 0; incl_len = 0; orig_len = 0 } }
{
    PacketHeader::default()
}

/// The front of a written capture with a valid header and valid packets is that header and those packets, with nanoseconds
/// cut to the timestamp resolution. Nothing follows them.
pub fn written_capture_is_read()
    ensures { (header : PcapHeader) (packets : List Captured) → IsWholeHeader header → All IsWhole packets →
        CaptureFront packet_limit header (map (cut (resolution_of header.magic_number)) packets) (capture header packets) [] }
{}

/// A capture with an empty rest is copied whole if nothing fails, and if `under` and `most` allow it: its header as `under`
/// demands, and all its packets.
pub fn accepted_capture_is_copied()
    ensures { (under : Under) (header : PcapHeader) (packets : List Captured)
        (bytes : List ℕ) (now out_before out_now : Option (List ℕ)) (most : ℕ) (copied : Copied) →
        CaptureFront packet_limit header packets bytes [] → length packets ≤ most → NothingFailed copied → CanBeUnder under →
        CopyFront under bytes now out_before out_now most copied → CopiesAll (header_under under header) packets out_before out_now copied }
{}

/// If nothing fails and `most` allows it, the copy of a capture with an empty rest under its own header has the same bytes.
pub fn copy_is_the_capture()
    ensures { (header : PcapHeader) (packets : List Captured) (bytes : List ℕ) (now out_before out_now : Option (List ℕ)) (most : ℕ) (copied : Copied) →
        IsBytes bytes → CaptureFront packet_limit header packets bytes [] → length packets ≤ most → NothingFailed copied →
        CopyFront Same bytes now out_before out_now most copied → Appends out_before out_now bytes }
{}

/// The front of a copy under another valid header is that header and the packets that were read, and nothing follows them.
/// Nanoseconds are cut to the timestamp resolution of the new header.
pub fn copy_is_read_under_its_header()
    ensures { (header under : PcapHeader) (packets : List Captured) (s rest : List ℕ) → IsBytes s →
        CaptureFront packet_limit header packets s rest → IsWholeHeader under →
        CaptureFront packet_limit under (map (cut (resolution_of under.magic_number)) packets) (capture under packets) [] }
{}

/// The requests of a run over packets are uniquely determined.
pub fn requests_are_one()
    ensures { (limit : ℕ) (order : Order) (r : TsResolution) (packets : List Captured) (s rest ns others : List ℕ) →
        RunRequests (packet_format limit order r) tt packets s rest ns → RunRequests (packet_format limit order r) tt packets s rest others → ns ≡ others }
{}

/// For a packet, the requests are the 16 bytes of its header, and then the bytes of its data if it has any.
pub fn packet_requests_are()
    ensures { (limit : ℕ) (order : Order) (r : TsResolution) (packet : Captured) (s rest ns : List ℕ) →
        PacketText limit order r packet s rest → RequestsAt (packet_format limit order r) tt s ns → HeadThenRest 16 (16 + length packet.bytes) ns }
{}

/// If the caller meets each request for a packet exactly, it has the packet's text and no more.
pub fn packet_requests_are_asked()
    ensures { (limit : ℕ) (order : Order) (r : TsResolution) (packet : Captured) (s rest ns : List ℕ) →
        PacketText limit order r packet s rest → RequestsAt (packet_format limit order r) tt s ns →
        (t : List ℕ) × (s ≡ t ++ rest) × Asks (packet_format limit order r) tt ns [] t }
{}

/// The number of packets that bytes hold is uniquely determined.
pub fn packets_held_are_one()
    ensures { (s : List ℕ) (n m : ℕ) → HoldsPackets s n → HoldsPackets s m → n ≡ m }
{}
