//! Laws of the format of blocks. Each contract is the law.

ghost use Rattle.std.specs.Prelude.{◌≡◌, ◌≤◌, ℕ, List, [], ◌∷◌, ◌++◌, length, map, All, Option, Some, Ok};
ghost use Rattle.pcap_core.specs.declared.common.Endianness.{Endianness};
ghost use Rattle.pcap_core.specs.Answer.{whole};
ghost use Rattle.pcap_items.specs.Format.{Front, Texts, Asks, IsLawful, state_after};
ghost use Rattle.pcap_core.specs.Laws.{ExactlyOne, IsStable};
ghost use Rattle.pcap_items.specs.Requested.{HeadThenRest, RequestsAt, RunRequests};
ghost use Rattle.pcap_ng.specs.Blocks.{Item, BlockText, BlockSays, block_format};
ghost use Rattle.pcap_core.specs.Bytes.{IsBytes};
ghost use Rattle.pcap_ng.specs.declared.pcapng.copying.NgCopied.{NgCopied};
ghost use Rattle.std.specs.Io.KnownBytes.{Appends};
ghost use Rattle.pcap_ng.specs.Copies.{CopyNgRun, CopiesBytes, NothingFailed};
ghost use Rattle.pcap_ng.specs.Frames.{Framed, FrameSays, FrameText};
ghost use Rattle.pcap_ng.specs.Front.{NgFront};
ghost use Rattle.pcap_ng.specs.MarkedLists.{marked_format};
ghost use Rattle.pcap_ng.specs.Opening.{OpeningSays};
ghost use Rattle.pcap_ng.specs.Pieces.{HoldsBlocks};
ghost use Rattle.pcap_ng.specs.Sections.{Leaves};
ghost use Rattle.pcap_ng.specs.State.{State, opening};
ghost use Rattle.pcap_ng.specs.Bodies.{SaysOfBody};
ghost use Rattle.pcap_ng.specs.RawBlocks.{raw_in};
ghost use Rattle.pcap_ng.specs.Written.{IsBodyOf, IsMadeOf, IsReadable, IsReadAs, StandsAt};
ghost use Rattle.std.specs.List.{AllZip};
ghost use Rattle.pcap_blocks.specs.declared.block_type.BlockType.TheVariants as types;
ghost use Rattle.pcap_blocks.specs.ParsedBlock.{Body, SectionBody};
ghost use Rattle.pcap_blocks.specs.SectionHeader.{Section};
ghost use Rattle.pcap_core.specs.Codec.{number_bytes};
ghost use Rattle.pcap_written.specs.Bodies.{text_of};
ghost use Rattle.pcap_written.specs.Capture.{AreWritten};
ghost use Rattle.pcap_written.specs.Mixed.{GoOut, Written, type_written};
ghost use Rattle.pcap_written.specs.Raw.{Raw, TellsRaw, raw_text};
ghost use Rattle.pcap_written.specs.Fits.{kept_body};
ghost use Rattle.pcap_written.specs.declared.place.Place.{Place};

/// Each slice has exactly one verdict as a block in its frame: a block's text begins the slice, a number of bytes is missing, or
/// there is one fault.
pub fn frame_is_one()
    ensures { (order : Endianness) (s : List ℕ) → ExactlyOne (FrameSays order s) }
{}

/// Each slice has exactly one verdict as a block under a section and its interfaces.
pub fn block_is_one()
    ensures { (q : State) (s : List ℕ) → ExactlyOne (BlockSays q s) }
{}

/// Each slice has exactly one verdict as the first block of a capture.
pub fn first_block_is_one()
    ensures { (s : List ℕ) → ExactlyOne (OpeningSays s) }
{}

/// More bytes change neither a block nor its fault, and reduce the number of missing bytes by their own number.
pub fn block_is_stable()
    ensures { (q : State) → IsStable (BlockSays q) }
{}

/// More bytes change neither a first block nor its fault, and reduce the number of missing bytes by their own number.
pub fn first_block_is_stable()
    ensures { IsStable OpeningSays }
{}

/// Blocks are a lawful format. All bytes have one verdict, more bytes don't change it, a text is a block by itself, and a request
/// is for the head or is the last one.
pub fn blocks_are_lawful()
    ensures { IsLawful block_format }
{}

/// If the caller supplies exactly the bytes requested, the parser asks at most twice for a block, and nothing follows that block.
pub fn blocks_are_asked_for_twice()
    ensures { (q : State) (n : ℕ) (ns s t : List ℕ) → Asks block_format q (n ∷ ns) s t →
        (length (n ∷ ns) ≤ 2) × ((item : Item) (rest : List ℕ) → BlockText q item t rest → rest ≡ []) }
{}

/// All bytes have exactly one front of blocks.
pub fn blocks_have_one_front()
    ensures { (q : State) (s : List ℕ) → ExactlyOne (λ (p : List Item × List ℕ). Front block_format q p.0 s p.1) }
{}

/// Bytes that begin with a first block have exactly one front as a capture.
pub fn capture_has_one_front()
    ensures { (q : State) (s after : List ℕ) → OpeningSays s (whole q after) →
        ExactlyOne (λ (p : State × List Framed × List ℕ). NgFront p.0 p.1 s p.2) }
{}

/// The bodies of blocks determine what is in force after them: the section is that of the last section header, and the interfaces
/// are those described after it.
pub fn blocks_leave_their_section_in_force()
    ensures { (first : Item) (items : List Item) (s rest : List ℕ) → Texts block_format opening (first ∷ items) s rest →
        Leaves (map (λ (item : Item). item.block) (first ∷ items)) (state_after block_format opening (first ∷ items)) }
{}

/// If every list of options must end with its mark, the blocks of the front are a beginning of the blocks of the ordinary front.
pub fn unmarked_lists_keep_blocks()
    ensures { (q : State) (items others : List Item) (s a b : List ℕ) → Front marked_format q items s a → Front block_format q others s b →
        (more : List Item) × (others ≡ items ++ more) }
{}

/// The requests of a run over blocks, including those for the first block, are unique.
pub fn requests_are_one()
    ensures { (q : State) (items : List Item) (s rest ns others : List ℕ) →
        RunRequests block_format q items s rest ns → RunRequests block_format q items s rest others → ns ≡ others }
{}

/// At a block, including the first, the requests are the 12 bytes of its head and then the rest of it. Meeting each request
/// exactly supplies the block's text and no more.
pub fn block_requests_are()
    ensures { (q : State) (item : Item) (s rest ns : List ℕ) → BlockText q item s rest → RequestsAt block_format q s ns →
        (t : List ℕ) × (s ≡ t ++ rest) × HeadThenRest 12 (length t) ns × Asks block_format q ns [] t }
{}

/// The number of blocks in given bytes is unique.
pub fn blocks_held_are_one()
    ensures { (s : List ℕ) (n m : ℕ) → HoldsBlocks s n → HoldsBlocks s m → n ≡ m }
{}

/// If a capture is accepted whole, its blocks are at most `most`, and nothing fails, the copy has all of its bytes and all of its
/// blocks.
pub fn accepted_capture_is_copied()
    ensures { (q : State) (blocks : List Framed) (bytes : List ℕ) (now out out_now : Option (List ℕ)) (most : ℕ) (copied : NgCopied) →
        NgFront q blocks bytes [] → length blocks ≤ most → NothingFailed copied →
        CopyNgRun (Some bytes) now out out_now most copied → CopiesBytes bytes (length blocks) out out_now copied }
{}

/// Whatever is refused or fails, a copy has written a beginning of the capture.
pub fn copy_is_a_beginning()
    ensures { (bytes : List ℕ) (now out out_now : Option (List ℕ)) (most : ℕ) (copied : NgCopied) →
        CopyNgRun (Some bytes) now out out_now most copied → (gone rest : List ℕ) × (bytes ≡ gone ++ rest) × Appends out out_now gone }
{}

/// Blocks that are written one after another, beginning with a section header, are the whole front of their bytes as a capture,
/// with the bodies that were written. If a body's bytes extend to the end of the block, they are read with the padding.
pub fn written_capture_is_read()
    ensures { (at end : Place) (section : Section) (bodies : List Body) (bytes : List ℕ) → AreWritten at (SectionBody section ∷ bodies) bytes end →
        (items : List Item) × Front block_format opening items bytes [] × AllZip IsBodyOf items (map kept_body (SectionBody section ∷ bodies)) }
{}

/// In a capture that is written this way, every nonempty list of options in a section or an interface ends with its mark. So it
/// is also a capture where each list must.
pub fn written_capture_has_its_marks()
    ensures { (at end : Place) (section : Section) (bodies : List Body) (bytes : List ℕ) → AreWritten at (SectionBody section ∷ bodies) bytes end →
        (items : List Item) × Front marked_format opening items bytes [] × AllZip IsBodyOf items (map kept_body (SectionBody section ∷ bodies)) }
{}

/// Blocks of values and blocks of bytes, written one after another in any order, beginning with a section header, are the whole
/// front of their bytes as a capture. Each value is read as it was, and each block of bytes has its type, its byte order and its
/// body, if the blocks of bytes that are section headers or interfaces can be read. The byte order and the number of interfaces
/// in force after them are those that the writer reports.
pub fn mixed_capture_is_read()
    ensures { (at end : Place) (first : Written) (blocks : List Written) (bytes : List ℕ) → type_written first ≡ types.SectionHeader →
        All IsReadable (first ∷ blocks) → GoOut at (first ∷ blocks) bytes end →
        (items : List Item) × Front block_format opening items bytes []
        × AllZip IsReadAs items (first ∷ blocks) × StandsAt end (state_after block_format opening items) }
{}

/// A block that was made from a value is read as it was, with the padding if its bytes extend to the end of the block. Its text
/// is the one that is written for the value.
pub fn made_block_is_read()
    ensures { (order : Endianness) (body : Body) (block : Framed) → IsMadeOf order body block →
        ((rest : List ℕ) × SaysOfBody block (whole (kept_body body) rest)) × (raw_text (raw_in block) ≡ text_of (number_bytes block.endianness) body) }
{}

/// A block of bytes that may be written at a place is read there as a block in its frame, whatever follows it. Its type, its byte
/// order and its body are those that were written.
pub fn written_raw_block_is_read()
    ensures { (at behind : Place) (raw : Raw) (rest : List ℕ) → TellsRaw at raw (Ok behind) →
        (block : Framed) × FrameText at.endianness block (raw_text raw ++ rest) rest × (raw_in block ≡ raw) }
{}

/// The bytes of a block that is read are the text that is written for its type, its byte order and its body.
pub fn read_block_is_written()
    ensures { (order : Endianness) (block : Framed) (s rest : List ℕ) → IsBytes s → FrameText order block s rest → s ≡ raw_text (raw_in block) ++ rest }
{}
