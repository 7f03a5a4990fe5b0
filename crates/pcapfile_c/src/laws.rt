//! Laws about sequences of calls.

ghost use Rattle.std.specs.Prelude.{◌≡◌, ◌⊎◌, ℕ, ℤ, List, [], ◌∷◌, filter};
ghost use Rattle.std.specs.List.{AllZip};
ghost use Rattle.pcap_items.specs.Format.{Front, state_after};
ghost use Rattle.pcap_classic.specs.declared.pcap.header.PcapHeader.{PcapHeader};
ghost use Rattle.pcap_classic.specs.Front.{CaptureFront};
ghost use Rattle.pcap_classic.specs.PacketText.{Captured, packet_limit};
ghost use Rattle.pcap_ng.specs.Blocks.{Item, block_format};
ghost use Rattle.pcap_ng.specs.State.{opening};
ghost use Rattle.pcapfile_values.specs.declared.blocks.PcapfileBlock.{PcapfileBlock};
ghost use Rattle.pcapfile_values.specs.declared.blocks.PcapfileSection.{PcapfileSection};
ghost use Rattle.pcapfile_values.specs.declared.errors.PcapfileError.{PcapfileError};
ghost use Rattle.pcapfile_values.specs.declared.any_packets.PcapfileAnyPacket.{PcapfileAnyPacket};
ghost use Rattle.pcapfile_values.specs.Blocks.{ShowsState, ShowsBlock};
ghost use Rattle.pcapfile_values.specs.Shown.{shown_header};
ghost use Rattle.pcapfile_c.specs.declared.push.PcapfilePush.{PcapfilePush};
ghost use Rattle.pcapfile_c.specs.AnyCalls.{AnyCall, AnyCalls, CameToEnd, FrontTaken, IsFresh, Kept, NgFrontTaken};
ghost use Rattle.pcapfile_c.specs.AnyCalls.{NgPacketsTaken, NoHeader, NothingTaken, PacketsTaken};
ghost use Rattle.pcapfile_c.specs.AnyCaptures.{IsNg};
ghost use Rattle.pcapfile_c.specs.BlockPushes.{BlocksHaveEnded};
ghost use Rattle.pcapfile_c.specs.PacketPushes.{PacketsHaveEnded};
ghost use Rattle.pcapfile_c.specs.Push.{held_in};
ghost use Rattle.pcapfile_c.specs.Pushes.{HaveEnded};
ghost use Rattle.pcapfile_c.specs.Putting.{Given, a_section};
ghost use Rattle.pcapfile_c.specs.PutsAgain.{ArePut, IsReadAs};
ghost use Rattle.pcapfile_c.specs.RoomCalls.{all_given, all_put};
ghost use Rattle.pcapfile_c.specs.ReadBlocks.{ShowsThere, each_under, is_packet_there, read_format};

/// Once a call reports that no packet follows, the packets returned from a classic capture in pieces are those of the front of its bytes,
/// and the held bytes are the rest. This holds for any pieces, any calls in any order, and any rooms in which the caller keeps the held
/// bytes.
#[tactic(auto, using(crate::proofs::Pushes::pushes_front))]
pub fn pushes_give_the_front()
    ensures { (calls : List (List ℕ × List Captured)) (push : PcapfilePush) (room : List ℕ) → HaveEnded calls push room →
        (header : PcapHeader) × (push.header ≡ shown_header header) × CaptureFront packet_limit header (all_given calls) (all_put calls) (held_in push room) }
{}

/// Once a call reports that no block follows, the blocks returned from a PcapNg capture in pieces are those of the front of its bytes.
/// The held bytes are the rest, and the struct shows the state after the front.
#[tactic(auto, using(crate::proofs::BlockLaws::pushed_blocks))]
pub fn pushed_blocks_give_the_front()
    ensures { (calls : List (List ℕ × List PcapfileBlock)) (push : PcapfilePush) (section : PcapfileSection) (room : List ℕ)
        → BlocksHaveEnded calls push section room →
        (items : List Item) × Front block_format opening items (all_put calls) (held_in push room) × ShowsState section (state_after block_format opening items)
        × AllZip (λ (item : Item) (block : PcapfileBlock). ShowsBlock item.block block) items (all_given calls) }
{}

/// Once a call reports that no packet follows, the packets returned from a PcapNg capture in pieces are those of the front of its bytes,
/// in order. In this front the body of each packet is read too, and each packet is shown with its interface. The caller may pass a longer
/// array of interfaces at each call.
#[tactic(auto, using(crate::proofs::PacketLaws::pushed_packets))]
pub fn pushed_packets_give_the_front()
    ensures { (calls : List (List ℕ × List PcapfileAnyPacket)) (push : PcapfilePush) (room : List ℕ) → PacketsHaveEnded calls push room →
        (items : List Item) × Front read_format opening items (all_put calls) (held_in push room)
        × AllZip ShowsThere (filter is_packet_there (each_under opening items)) (all_given calls) }
{}

/// The blocks that calls write one after the other, beginning with a section header, are a capture without a rest. A reader reads each
/// block as the struct that the caller passed for it. A block with options of the caller, and a block of bytes, is read with its type and
/// its body. This holds if the options of each section header and each interface can be read.
pub fn puts_are_read()
    ensures { (first : PcapfileSection) (others : List Given) (section : PcapfileSection) (bytes : List ℕ) → ArePut section (a_section first ∷ others) bytes →
        (items : List Item) × Front block_format opening items bytes [] × AllZip IsReadAs items (a_section first ∷ others) }
{}

/// The packets that calls of `pcapfile_take_any` return from a capture are its first packets, in order, and what is left follows them. In
/// a classic capture, the header and these packets precede what is left, or nothing was read. In a PcapNg capture, blocks precede it
/// whose packets these are, and the state is the one after these blocks.
pub fn taken_packets_stand_in_order()
    ensures packets { (start next : Kept) (s rest : List ℕ) (given : List PcapfileAnyPacket) → IsFresh start.0 → (IsNg start.0 s → ⊥)
        → AnyCalls start s next rest given →
        PacketsTaken next.0.header s rest given ⊎ NothingTaken next.0.header s rest given }
    ensures blocks { (start next : Kept) (s rest : List ℕ) (given : List PcapfileAnyPacket) → IsFresh start.0 → IsNg start.0 s
        → AnyCalls start s next rest given →
        NgPacketsTaken next s rest given }
{}

/// Once a call of `pcapfile_take_any` returns no packet, the packets returned before are those of the front. The call reports what
/// follows: the end of the capture, missing bytes, or the first fault. Calls that are out of memory or places are excepted.
pub fn taken_packets_are_the_front()
    ensures packets { (start kept next : Kept) (s left rest : List ℕ) (given : List PcapfileAnyPacket) (shown : PcapfileAnyPacket)
        (told : PcapfileError) (status : ℤ) →
        IsFresh start.0 → (IsNg start.0 s → ⊥) → AnyCalls start s kept left given → AnyCall kept next left rest shown told status → CameToEnd status →
        FrontTaken s rest given told status ⊎ NoHeader s rest given told status }
    ensures blocks { (start kept next : Kept) (s left rest : List ℕ) (given : List PcapfileAnyPacket) (shown : PcapfileAnyPacket)
        (told : PcapfileError) (status : ℤ) →
        IsFresh start.0 → IsNg start.0 s → AnyCalls start s kept left given → AnyCall kept next left rest shown told status → CameToEnd status →
        NgFrontTaken s rest given told status }
{}
