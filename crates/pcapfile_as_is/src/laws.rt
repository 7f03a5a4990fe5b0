//! Laws of repaired packets and mended blocks. The contract of each function is the law.

ghost use Rattle.std.specs.Prelude.{◌≡◌, ◌<◌, ◌^◌, ℕ, List, [], map, All, false};
ghost use Rattle.pcap_core.specs.Answer.{Order};
ghost use Rattle.pcap_core.specs.Bytes.{IsBytes};
ghost use Rattle.pcap_items.specs.Format.{Front};
ghost use Rattle.pcap_classic.specs.declared.common.TsResolution.{TsResolution};
ghost use Rattle.pcap_classic.specs.declared.pcap.header.PcapHeader.{PcapHeader};
ghost use Rattle.pcap_classic.specs.Front.{CaptureFront};
ghost use Rattle.pcap_classic.specs.Magic.{resolution_of};
ghost use Rattle.pcap_classic.specs.PacketText.{packet_limit};
ghost use Rattle.pcap_classic.specs.Written.{IsWhole, IsWholeHeader, capture, cut};
ghost use Rattle.pcap_tolerant.specs.AsIs.{AsIs, AsIsText, breaks_one, strict_of};
ghost use Rattle.pcap_tolerant_captures.specs.Blocks.{Item, as_is_format};
ghost use Rattle.pcap_tolerant_captures.specs.State.{opening};
ghost use Rattle.pcapfile_mended.specs.Mended.{Becomes};
ghost use Rattle.pcapfile_as_is.specs.MendedCaptures.{AreRead, IsMendedSo, block_of};
ghost use Rattle.pcapfile_as_is.specs.Repaired.{repaired_of};

/// A repaired packet breaks no rule.
pub fn repaired_packets_are_whole()
    ensures { (r : TsResolution) (packet : AsIs) → packet.head.seconds < 2 ^ 32 → IsWhole (repaired_of r packet) }
{}

/// Repairing a packet that breaks no rule leaves it unchanged.
pub fn sound_packets_stay()
    ensures { (limit : ℕ) (order : Order) (r : TsResolution) (packet : AsIs) (s rest : List ℕ) → AsIsText limit order r packet s rest
        → breaks_one packet.flaws ≡ false → repaired_of r packet ≡ strict_of r packet }
{}

/// Strict reading accepts a repaired capture whole: a header that can be written and read again, and the repaired packets after it.
/// It refuses no packet.
pub fn repaired_captures_are_read()
    ensures { (header : PcapHeader) (packets : List AsIs) → IsWholeHeader header → All (λ packet. packet.head.seconds < 2 ^ 32) packets →
        CaptureFront packet_limit header (map (cut (resolution_of header.magic_number)) (map (repaired_of (resolution_of header.magic_number)) packets))
        (capture header (map (repaired_of (resolution_of header.magic_number)) packets)) [] }
{}

/// Strict reading accepts the mended blocks of a capture, written one after the other, as a whole capture. It returns exactly the blocks
/// that are left, each with its type, its byte order and its mended body, and refuses no block.
pub fn mended_captures_are_read()
    ensures { (mended : List (Item × Becomes)) (s left : List ℕ) → IsBytes s → Front as_is_format opening (map block_of mended) s left → All IsMendedSo mended →
        AreRead mended }
{}
