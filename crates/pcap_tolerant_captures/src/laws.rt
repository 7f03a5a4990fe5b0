//! Laws of lenient reading of blocks. Each contract is the law.

ghost use Rattle.std.specs.Prelude.{◌≡◌, ◌≤◌, ◌<◌, ◌++◌, ℕ, List, [], ◌∷◌, length, All, Option};
ghost use Rattle.pcap_core.specs.Answer.{Verdict};
ghost use Rattle.pcap_items.specs.Format.{Asks, Front, IsLawful};
ghost use Rattle.pcap_core.specs.Laws.{ExactlyOne, IsStable};
ghost use Rattle.pcap_core.specs.declared.common.Endianness.TheVariants.{Big};
ghost use Rattle.pcap_blocks.specs.InterfaceDescription.{Interface};
ghost use Rattle.pcap_blocks.specs.SectionHeader.{Section};
ghost use Rattle.pcap_ng.specs.Blocks as strict_blocks;
ghost use Rattle.pcap_ng.specs.State as strict;
ghost use Rattle.pcap_tolerant_captures.specs.Blocks.{Item, AsIsText, AsIsSays, as_is_format};
ghost use Rattle.pcap_tolerant_blocks.specs.Flaws.{Said};
ghost use Rattle.pcap_tolerant_captures.specs.State.{State, opening, within, order_at};
ghost use Rattle.pcap_tolerant_captures.specs.Pieces.{HoldsBlocksAsIs};
ghost use Rattle.pcap_tolerant_captures.specs.Resync.{BlocksStand, HeaderStands, IsGiven};
ghost use Rattle.pcap_tolerant_captures.specs.Strict.{StrictIs, as_it_stands};
ghost use Rattle.pcap_tolerant_captures.specs.StrictRun.{IsSound, StrictFrontIs, StrictEndsAt};

/// The lenient block format is lawful: any bytes have exactly one answer, and more bytes don't change a block or an error. A
/// block's bytes without the rest are that block, and a request is for the head or else is the last.
pub fn blocks_as_they_stand_are_lawful()
    ensures { IsLawful as_is_format }
{}

/// Lenient reading of a block gives exactly one answer for every slice.
pub fn block_as_it_stands_is_one()
    ensures { (q : State) (s : List ℕ) → ExactlyOne (AsIsSays q s) }
{}

/// More bytes change neither a block read leniently, nor its flaws, nor an error, and they lower a request by their number.
pub fn block_as_it_stands_is_stable()
    ensures { (q : State) → IsStable (AsIsSays q) }
{}

/// Any bytes have exactly one front of blocks read leniently.
pub fn blocks_as_they_stand_have_one_front()
    ensures { (q : State) (s : List ℕ) → ExactlyOne (λ (p : List Item × List ℕ). Front as_is_format q p.0 s p.1) }
{}

/// The number of blocks after the first that lenient reading finds in given bytes is unique.
pub fn blocks_held_as_they_stand_are_one()
    ensures { (s : List ℕ) (n m : ℕ) → HoldsBlocksAsIs s n → HoldsBlocksAsIs s m → n ≡ m }
{}

/// If the caller supplies exactly the bytes requested, lenient reading makes at most two requests for a block, and nothing
/// follows the block.
pub fn blocks_as_they_stand_are_asked_for_twice()
    ensures { (q : State) (n : ℕ) (ns s t : List ℕ) → Asks as_is_format q (n ∷ ns) s t →
        (length (n ∷ ns) ≤ 2) × ((item : Item) (rest : List ℕ) → AsIsText q item t rest → rest ≡ []) }
{}

/// Strict reading of the same bytes gives the same block and state if the block has no flaw, and otherwise the error for its
/// first flaw. It gives the same request. It gives the same error, unless the first block is no section header: then the error
/// may name another fault.
pub fn strict_block_is()
    ensures { (q : strict.State) (s : List ℕ) (a : Verdict Item) (v : Verdict strict_blocks.Item) →
        AsIsSays (as_it_stands q) s a → strict_blocks.BlockSays q s v → StrictIs q a v }
{}

/// If no block of a capture has a flaw, its strict front is its lenient front: the same blocks, the same section and interfaces
/// in force after them, and the same rest.
pub fn capture_without_flaws_is_strict()
    ensures { (items : List Item) (s left : List ℕ) → Front as_is_format opening items s left → All IsSound items → StrictFrontIs items s left }
{}

/// If a block has a flaw, the strict front of a capture is the blocks before the first such block. Strict reading refuses that
/// block by its first flaw.
pub fn strict_capture_ends_at_the_first_flaw()
    ensures { (before : List Item) (flawed : Item) (others : List Item) (first : Said) (more : List Said) (s left : List ℕ) →
        Front as_is_format opening (before ++ flawed ∷ others) s left → All IsSound before → flawed.led.flaws ≡ first ∷ more
        → StrictEndsAt before first.fault s }
{}

/// If `resync` with a `k` above 0 finds blocks at a place, the parser returns a block there.
pub fn blocks_that_stand_are_given()
    ensures { (section : Section) (interfaces : List (Option Interface)) (k : ℕ) (s : List ℕ) →
        0 < k → BlocksStand (order_at (within section interfaces)) k s → IsGiven (within section interfaces) s }
{}

/// If `resync_section` finds a section header at a place, a new parser can begin there.
pub fn section_that_stands_is_opened()
    ensures { (s : List ℕ) → HeaderStands Big s → IsGiven opening s }
{}
