//! Laws of both formats. The contract of each function is the law.

ghost use Rattle.std.specs.Prelude.{◌≡◌, ◌⊎◌, ◌≤◌, ◌<◌, ◌^◌, ℕ, List, [], ◌∷◌, ◌++◌, length, map, All, Option, Some, Ok, false};
ghost use Rattle.pcap_core.specs.declared.common.Endianness.TheVariants.{Little};
ghost use Rattle.pcap_core.specs.Link.{IsPlain, link_number};
ghost use Rattle.pcap_ng.specs.Blocks.{Item};
ghost use Rattle.pcap_blocks.specs.InterfaceTimes.{IsTimeAt};
ghost use Rattle.pcap_classic.specs.declared.pcap.header.PcapHeader.{PcapHeader};
ghost use Rattle.pcap_classic.specs.declared.run.copy.Copied.{Copied};
ghost use Rattle.pcap_classic.specs.PacketText.{Captured, packet_limit};
ghost use Rattle.pcap_core.specs.Bytes.{IsBytes};
ghost use Rattle.pcap_file.specs.Conversion.{BeginsConverted, ConvertsEach, IsConversion, exact_time};
ghost use Rattle.pcap_classic.specs.Front.{CaptureFront};
ghost use Rattle.pcap_classic.specs.Magic.{resolution_of};
ghost use Rattle.pcap_classic.specs.Written.{IsWhole, IsWholeHeader, capture, cut, written_under};
ghost use Rattle.pcap_file.specs.Converted.{converted, interface_for, little_texts, opening_blocks, packet_block, time_of};
ghost use Rattle.pcap_file.specs.Converts.{ConvertRun, ConvertsPackets};
ghost use Rattle.pcap_classic.specs.Copies as classic_runs;
ghost use Rattle.pcap_file.specs.declared.run.placing.IfUnplaced.{IfUnplaced};
ghost use Rattle.pcap_file.specs.declared.run.placing.NgConverted.{NgConverted};
ghost use Rattle.std.specs.Io.KnownBytes.{Appends};
ghost use Rattle.pcap_file.specs.Placed.{Becomes, PlacesBody, Turn, carried, packets_of};
ghost use Rattle.pcap_file.specs.Placing.{PlacesRun, Sink, Source, source_of};
ghost use Rattle.pcap_ng.specs.Reader.{OpensReader};
ghost use Rattle.pcap_ng.specs.declared.pcapng.reader.PcapNgReader.{PcapNgReader};
ghost use Rattle.pcap_file.specs.RoundTrip.{AreReady, BeginsPlaced, BlocksBecome, CanPlace, ComeBack, GoesNoFurther, HasSecondsInside};
ghost use Rattle.pcap_file.specs.RoundTrip.{IsOpened, PlacesEach, PlacesRow, packets_read};
ghost use Rattle.pcap_file.specs.RoundTrip as whole_runs;
ghost use Rattle.std.specs.List.{AllZip, flat_map};
ghost use Rattle.pcap_written.specs.Writing.{IsFitIn};

pub use pcap_ng::laws::{
    accepted_capture_is_copied, block_is_one, block_is_stable, block_requests_are,
    blocks_are_asked_for_twice, blocks_are_lawful, blocks_have_one_front, blocks_held_are_one,
    blocks_leave_their_section_in_force, capture_has_one_front, copy_is_a_beginning,
    first_block_is_one, first_block_is_stable, frame_is_one, made_block_is_read,
    mixed_capture_is_read, read_block_is_written, requests_are_one, unmarked_lists_keep_blocks,
    written_capture_has_its_marks, written_capture_is_read, written_raw_block_is_read,
};

/// If no write failed, a conversion to PcapNg that reached the packets wrote a PcapNg capture. Its blocks are the section, the
/// interface and those of the packets, in order, and nothing follows them. These packets are a beginning of the capture's front:
/// all of it if nothing was refused and `most` was not reached. If the rest is refused, they are the packets before it.
pub fn conversion_is_read()
    ensures { (bytes : List ℕ) (now out out_now : Option (List ℕ)) (most : ℕ) (copied : Copied) → IsBytes bytes → copied.write_failed ≡ false →
        ConvertsPackets (Some bytes) now out out_now most copied → IsConversion bytes out out_now most copied }
{}

/// Whatever is refused or fails, a conversion to PcapNg has written nothing, or a beginning of the conversion of the capture's
/// front. That whole conversion is the section, the interface, and the block of each packet.
pub fn conversion_is_a_beginning()
    ensures { (bytes : List ℕ) (now out out_now : Option (List ℕ)) (most : ℕ) (copied : Copied) → ConvertRun (Some bytes) now out out_now most copied →
        (gone : List ℕ) × Appends out out_now gone × ((gone ≡ []) ⊎ BeginsConverted bytes gone) }
{}

/// If nothing fails, an accepted classic capture is converted whole: the output is the section, the interface and the block of
/// each packet. The number of the link type must fit into two bytes, and there must not be more packets than `most`.
pub fn accepted_capture_is_converted()
    ensures { (header : PcapHeader) (packets : List Captured) (bytes : List ℕ) (now out out_now : Option (List ℕ)) (most : ℕ) (copied : Copied) →
        IsWholeHeader header → link_number header.datalink < 2 ^ 16 → CaptureFront packet_limit header packets bytes [] → length packets ≤ most →
        classic_runs.NothingFailed copied → ConvertRun (Some bytes) now out out_now most copied → ConvertsEach header packets out out_now copied }
{}

/// The clock of a converted capture's interface maps the units of a packet's block to exactly the time of the packet.
pub fn converted_packet_keeps_its_time()
    ensures { (header : PcapHeader) (packet : Captured) → IsTimeAt (interface_for header) (time_of packet) (exact_time packet) }
{}

/// The packets that blocks become fit into a classic capture. Their capture, as it is written, is read as its header and these
/// packets, with nothing behind them. The nanoseconds of each packet are cut as the timestamp resolution demands.
pub fn placed_capture_is_read()
    ensures { (header : PcapHeader) (items : List Item) (turns : List Turn) → IsWholeHeader header → AllZip (Becomes header.datalink) items turns →
        CaptureFront packet_limit header (map (cut (resolution_of header.magic_number)) (packets_of turns)) (capture header (packets_of turns)) [] }
{}

/// The block of a packet that was converted to PcapNg becomes that packet again, with the same time, original length and bytes. Whole
/// seconds among its nanoseconds move to its seconds, which must fit into 32 bits.
pub fn converted_packet_converts_back()
    ensures { (header : PcapHeader) (packet : Captured) → IsWhole packet → (carried packet).header.ts_sec < 2 ^ 32 →
        PlacesBody (interface_for header ∷ []) header.datalink (packet_block packet) (carried packet) }
{}

/// A classic capture that was converted to PcapNg becomes itself again, if the seconds of each packet fit into 32 bits. Its blocks
/// become exactly its packets, in order, each with its time, its original length and its bytes, under the link type of its header.
/// A packet whose nanoseconds are less than a second becomes identical to itself. In any other packet, the whole seconds among the
/// nanoseconds move to the seconds. The blocks before the packets can be written if the number of the link type fits into two bytes.
pub fn converted_capture_converts_back()
    ensures packets { (header : PcapHeader) (packets : List Captured) →
        All (IsFitIn Little) (opening_blocks header) → All IsWhole packets → All HasSecondsInside packets →
        BlocksBecome header.datalink (map carried packets) (little_texts (converted header packets)) }
    ensures same { (packet : Captured) → packet.header.ts_nsec < 10 ^ 9 → carried packet ≡ packet }
    ensures begins { (header : PcapHeader) → IsPlain header.datalink
        → link_number header.datalink < 2 ^ 16 → header.snaplen < 2 ^ 32 → All (IsFitIn Little) (opening_blocks header) }
{}

/// If no write failed, the output of a conversion to PcapNg becomes the packets that the conversion read. These are all packets of
/// the capture's front, or the first `most`, or those before an error.
pub fn conversion_converts_back()
    ensures { (bytes : List ℕ) (out out_now : Option (List ℕ)) (most : ℕ) (copied : Copied) → IsBytes bytes → (c : IsConversion bytes out out_now most copied) →
        All HasSecondsInside c.packets → BlocksBecome c.header.datalink (map carried c.packets) (little_texts (converted c.header c.packets)) }
{}

/// The packets that blocks become in a classic capture, as they are read there with their times cut, become themselves again after
/// that capture is converted to PcapNg. The number of its link type must fit into two bytes.
pub fn placed_capture_converts_back()
    ensures { (header : PcapHeader) (items : List Item) (turns : List Turn) → IsWholeHeader header → link_number header.datalink < 2 ^ 16 →
        AllZip (Becomes header.datalink) items turns →
        BlocksBecome header.datalink (packets_read header turns) (little_texts (converted header (packets_read header turns))) }
{}

/// If nothing fails, a capture of whole blocks is converted whole. Exactly the packets that have a place in a classic capture are
/// written, and all others are left out if the caller chose that. All blocks are taken, if there are not more than `most`.
pub fn accepted_capture_is_placed()
    ensures { (header : PcapHeader) (choice : IfUnplaced) (turns : List Turn) (a b : Source) (c d : Sink) (most : ℕ) (converted : NgConverted) →
        CanPlace header choice a turns → AreReady header a c → length turns ≤ most → whole_runs.NothingFailed b d converted →
        PlacesRun header choice a b c d most converted → PlacesEach header turns c d converted }
{}

/// Whatever is refused or fails, a conversion to a classic capture has written a beginning of the packets of some blocks. These
/// blocks are at the front of what was left of the stream. Each becomes a packet that has a place, a packet that may be left out, or
/// no packet. So the output is a beginning of what the whole conversion writes: the packets of all blocks up to the first that
/// becomes none of these.
pub fn placing_is_a_beginning()
    ensures begins { (header : PcapHeader) (choice : IfUnplaced) (bytes : List ℕ) (a b : Source) (c d : Sink) (most : ℕ) (converted : NgConverted) →
        a.left ≡ Some bytes → PlacesRun header choice a b c d most converted →
        (gone : List ℕ) × Appends c.out d.out gone × BeginsPlaced header choice a.state bytes gone }
    ensures whole { (header : PcapHeader) (choice : IfUnplaced)
        (turns : List Turn) (bytes : List ℕ) (a b : Source) (c d : Sink) (most : ℕ) (converted : NgConverted) →
        a.left ≡ Some bytes → (row : PlacesRow header choice a.state bytes turns) →
        GoesNoFurther header choice row.others → PlacesRun header choice a b c d most converted →
        (gone rest : List ℕ) × (flat_map (written_under header) (packets_of turns) ≡ gone ++ rest) × Appends c.out d.out gone }
{}

/// A reader that was made of a stream with known bytes is behind their first block, and has refused nothing.
pub fn opened_reader_is_ready<T>()
    ensures { (remaining : T → Option (List ℕ)) (stream : T) (reader : PcapNgReader T) (bytes : List ℕ) → remaining stream ≡ Some bytes →
        OpensReader remaining stream (Ok reader) → IsOpened bytes (source_of remaining reader) × ((source_of remaining reader).done ≡ false) }
{}

/// If nothing fails, a capture whose blocks become these packets is converted to exactly these packets. So a classic capture that
/// was converted to PcapNg and back has the packets that it had.
pub fn converted_capture_comes_back()
    ensures { (header : PcapHeader) (choice : IfUnplaced) (packets : List Captured)
        (bytes : List ℕ) (a b : Source) (c d : Sink) (most : ℕ) (converted : NgConverted) →
        (held : BlocksBecome header.datalink packets bytes) → length held.items ≤ most →
        IsOpened bytes a → AreReady header a c → whole_runs.NothingFailed b d converted →
        PlacesRun header choice a b c d most converted → ComeBack header packets c d converted }
{}
