//! Laws of captures that are cut and joined. The contract of each function says what is proved of it.

ghost use Rattle.std.specs.Prelude.{◌≡◌, ◌≤◌, ◌<◌, ◌+◌, ◌*◌, ◌/◌, ◌^◌, ◌++◌, ℕ, List, ◌∷◌, length, false, true, Option, None, Some, IsTrue, []};
ghost use Rattle.pcap_blocks.specs.EnhancedPacket.{Enhanced, EnhancedText};
ghost use Rattle.pcap_core.specs.declared.common.Endianness.{Endianness};
ghost use Rattle.pcap_core.specs.Answer.{number_in};
ghost use Rattle.pcap_core.specs.Bytes.{IsBytes};
ghost use Rattle.pcap_core.specs.Codec.{number_bytes};
ghost use Rattle.pcap_classic.specs.declared.common.TsResolution.{TsResolution};
ghost use Rattle.pcap_classic.specs.declared.pcap.header.PcapHeader.{PcapHeader};
ghost use Rattle.pcap_classic.specs.declared.pcap.packet.PacketHeader.{PacketHeader};
ghost use Rattle.pcap_classic.specs.declared.common.TsResolution.TheVariants.{MicroSecond, NanoSecond};
ghost use Rattle.pcap_classic.specs.HeaderText.{HeaderText};
ghost use Rattle.pcap_classic.specs.Magic.{is_magic, resolution_of};
ghost use Rattle.pcap_classic.specs.PacketText.{Captured};
ghost use Rattle.pcap_classic.specs.Written.{written_under};
ghost use Rattle.pcapfile_cut.specs.declared.changing.Changes.{Changes};
ghost use Rattle.pcapfile_cut.specs.declared.cutting.Outcome.{Outcome};
ghost use Rattle.pcapfile_cut.specs.declared.moving.Shift.TheVariants.{Later, Earlier};
ghost use Rattle.pcapfile_cut.specs.declared.opening.Opening.{Opening};
ghost use Rattle.pcapfile_cut.specs.declared.wanted.Wanted.{Wanted};
ghost use Rattle.pcapfile_cut.specs.declared.wanted.Wanted.TheVariants.{All, Numbers, Selected};
ghost use Rattle.pcapfile_cut.specs.BlockCuts.{Place};
ghost use Rattle.pcapfile_cut.specs.BlockParts.{CutsEach, HasPacketNext, HoldsBlocks};
ghost use Rattle.pcapfile_cut.specs.Changes.{changed, header_after, no_changes, rounded, shortened, text_after};
ghost use Rattle.pcapfile_cut.specs.Choice.{Stored, WantsMore, chosen};
ghost use Rattle.pcapfile_cut.specs.Cuts.{CutsBehind, IsStored, OpensPart};
ghost use Rattle.pcapfile_cut.specs.Duplicates.{message_with};
ghost use Rattle.pcapfile_cut.specs.Fronts.{CutsFront, CutsInto, HoldsPackets, JoinsOthers};
ghost use Rattle.pcapfile_cut.specs.Moves.{moved};
ghost use Rattle.pcapfile_cut.specs.Openings.{bytes_in, bytes_of, header_in, header_of};
ghost use Rattle.pcapfile_cut.specs.Repeating.{HasNoHeader, Typed, about_packets, is_header, opening_behind, texts_of};
ghost use Rattle.pcapfile_cut.specs.Selections.{goes_behind, time_of};
ghost use Rattle.pcapfile_cut.specs.ShortBlocks.{Parted, PartedText, first_bytes, short_body};

/// A cut of known bytes writes the bytes of the first wanted packets of their front, and of all of these if it ended without an
/// error and would have gone on.
pub fn cut_is_of_the_front()
    ensures { (header : PcapHeader) (wanted : Wanted) (s : List ℕ) (now out out_now : Option (List ℕ)) (outcome : Outcome) →
        CutsBehind header wanted (Some s) now out out_now outcome → CutsFront header wanted s now out out_now outcome }
{}

/// No packet after the last wanted number is wanted.
pub fn numbers_end_at_the_last()
    ensures { (first last : ℕ) (packets more : List Stored) → last ≤ length packets →
        chosen (Numbers first last) (packets ++ more) ≡ chosen (Numbers first last) packets }
{}

/// No packet after the last number of a selection's ranges is wanted.
pub fn selections_end_at_the_last()
    ensures { (selection : _) (packets more : List Stored) → goes_behind selection.now (length packets) ≡ false →
        chosen (Selected selection) (packets ++ more) ≡ chosen (Selected selection) packets }
{}

/// Two packets have the same message only if they had the same length on the wire and have the same data. So unless two different messages
/// have the same SHA-256 digest, a cut leaves out a packet only if it has the length and the data of one of the packets before it.
pub fn messages_tell_packets_apart()
    ensures { (n m : ℕ) (s t : List ℕ) → n < 2 ^ 32 → m < 2 ^ 32 → message_with n s ≡ message_with m t → (n ≡ m) × (s ≡ t) }
{}

/// A packet that is written after changes is read again under the changed header: as it was changed, with its time rounded down.
pub fn changed_packets_are_read()
    ensures { (header : PcapHeader) (changes : Changes) (stored : Stored) → IsBytes stored.text → IsStored header stored →
        IsStored (header_after header changes) (record {
          packet = rounded changes.resolution (changed (resolution_of header.magic_number) changes stored.packet);
          text = written_under (header_after header changes) (changed (resolution_of header.magic_number) changes stored.packet);
        }) }
{}

/// An opening with the magic number of another resolution is read again as the header with that magic number.
pub fn changed_openings_are_read()
    ensures { (resolution : Option TsResolution) (opening : Opening) → HeaderText (header_of opening) (bytes_of opening) [] →
        HeaderText (header_in resolution (header_of opening)) (bytes_in resolution opening) [] }
{}

/// A packet keeps its time in nanoseconds, and has it rounded down in microseconds.
pub fn resolutions_round_down()
    ensures nanoseconds { (packet : Captured) → rounded (Some NanoSecond) packet ≡ packet }
    ensures microseconds { (packet : Captured) → time_of (rounded (Some MicroSecond) packet).header ≡ 1000 * (time_of packet.header / 1000) }
{}

/// A capture that gets the resolution that it has keeps all bytes.
pub fn same_resolutions_stay()
    ensures opening { (opening : Opening) → IsBytes (bytes_of opening) → HeaderText (header_of opening) (bytes_of opening) [] →
        bytes_in (Some (resolution_of (header_of opening).magic_number)) opening ≡ bytes_of opening }
    ensures packets { (header : PcapHeader) (stored : Stored) → IsTrue (is_magic header.magic_number) → IsBytes stored.text → IsStored header stored →
        text_after header (record no_changes { resolution = Some (resolution_of header.magic_number) }) stored ≡ stored.text }
{}

/// A packet whose time is moved is later or earlier by exactly so many nanoseconds.
pub fn moves_are_exact()
    ensures later { (r : TsResolution) (n : ℕ) (head new : PacketHeader) → moved r (Later n) head ≡ Some new → time_of new ≡ time_of head + n }
    ensures earlier { (r : TsResolution) (n : ℕ) (head new : PacketHeader) → moved r (Earlier n) head ≡ Some new → time_of new + n ≡ time_of head }
{}

/// A packet that is written with at most a number of its bytes is read again: with the first ones of its bytes, and with its time and
/// its original length.
pub fn shortened_packets_are_read()
    ensures { (header : PcapHeader) (n : ℕ) (stored : Stored) → IsBytes stored.text → IsStored header stored →
        IsStored header (record { packet = shortened n stored.packet; text = written_under header (shortened n stored.packet) }) }
{}

/// A packet with no more bytes than that is written unchanged.
pub fn short_packets_stay()
    ensures { (header : PcapHeader) (n : ℕ) (stored : Stored) → IsBytes stored.text → IsStored header stored → stored.packet.header.incl_len ≤ n →
        written_under header (shortened n stored.packet) ≡ stored.text }
{}

/// An enhanced packet that is written with the first n of its bytes is read again with these bytes. Its interface, its time, its original
/// length and its options stay.
pub fn shortened_blocks_are_read()
    ensures { (e : Endianness) (n : ℕ) (parts : Parted) (body rest : List ℕ) (enhanced : Enhanced) → PartedText (number_in e) parts body →
        EnhancedText (number_in e) enhanced body rest → n ≤ length parts.bytes → n < 2 ^ 32 →
        EnhancedText (number_in e) (first_bytes n enhanced) (short_body (number_bytes e) n parts) rest }
{}

/// Parts that are cut one after another have, concatenated, the packets from the beginning of the first part to the end of the
/// last.
pub fn parts_hold_the_packets()
    ensures { (opening : Opening) (wants : List Wanted) (parts : List (List ℕ)) (s left : List ℕ) → CutsInto opening wants parts s left →
        HoldsPackets opening parts s left }
{}

/// Joining parts that were cut one after another, without an error, gives the opening and the bytes that were cut.
pub fn parts_join()
    ensures { (opening : Opening) (wanted : Wanted) (wants : List Wanted) (part behind : List ℕ) (parts : List (List ℕ)) (s left first_out out : List ℕ)
        (now : Option (List ℕ)) (outcome : Outcome) →
        CutsInto opening (wanted ∷ wants) (part ∷ parts) s left → part ≡ bytes_of opening ++ behind →
        OpensPart opening All (Some behind) now (Some []) (Some first_out) outcome → outcome.fault ≡ None → WantsMore All outcome.packets outcome.bytes →
        JoinsOthers opening parts first_out out → out ++ left ≡ bytes_of opening ++ s }
{}

/// A part of a PcapNg capture begins with the last section header before its packets, and with all interfaces, names and decryption
/// secrets after that header, in the order of the capture.
pub fn part_begins_with_its_section()
    ensures { (opening : List ℕ) (before after : List Typed) (header : Typed) → is_header header.type_ ≡ true → HasNoHeader after →
        opening_behind opening (before ++ header ∷ after) ≡ header.text ++ texts_of (about_packets after) }
{}

/// Parts of a PcapNg capture that are cut one after another each begin with the blocks in force, and then have their share of the
/// blocks. The shares, concatenated, are the blocks from the beginning of the first part to the end of the last.
pub fn parts_hold_the_blocks()
    ensures { (wants : List Wanted) (parts : List (List ℕ)) (a now : Place) → HasPacketNext a → CutsEach wants parts a now → HoldsBlocks parts a now }
{}
