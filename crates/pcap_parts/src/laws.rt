//! Laws of captures in parts: the parts, joined, are the whole. The contract of each call states what is proved of it.

ghost use Rattle.pcap_ng.specs.Blocks.{Item, block_format};
ghost use Rattle.pcap_items.specs.Format.{Texts, state_after};
ghost use Rattle.pcap_ng.specs.State.{State, opening};
ghost use Rattle.pcap_ng.specs.Sections.{LeavesInForce};
ghost use Rattle.pcap_blocks.specs.SectionHeader.{Section};
ghost use Rattle.pcap_blocks.specs.InterfaceDescription.{Interface};
ghost use Rattle.pcap_core.specs.declared.errors.PcapError.{PcapError};
ghost use Rattle.pcap_core.specs.Errors.{IsMemory};
ghost use Rattle.pcap_ng.specs.declared.run.NgRun.{NgRun};
ghost use Rattle.pcap_ng.specs.Run.{IsRun as IsNgRun};
ghost use Rattle.pcap_parts.specs.declared.cut_ng.NgCuts.{NgCuts};
ghost use Rattle.pcap_parts.specs.NgParts.{IsNgCut, IsNgRunInParts, bounds_of};
ghost use Rattle.pcap_parts.specs.Resume.{Fed, IsFed, RefusesOne, blocks_in_force};
ghost use Rattle.std.specs.Prelude.{◌≡◌, ℕ, List, ◌∷◌, ◌++◌, length, map};
ghost use Rattle.pcap_items.specs.Format.{Front};
ghost use Rattle.pcap_classic.specs.declared.run.PcapRun.{PcapRun};
ghost use Rattle.pcap_classic.specs.declared.pcap.header.PcapHeader.{PcapHeader};
ghost use Rattle.pcap_classic.specs.Run.{IsRun};
ghost use Rattle.pcap_classic.specs.PacketText.{Captured, packet_limit};
ghost use Rattle.pcap_classic.specs.Packets.{format_under};
ghost use Rattle.pcap_parts.specs.declared.cut.Cut.{Cut};
ghost use Rattle.pcap_parts.specs.Captures.{IsCut, IsRunInParts};
ghost use Rattle.pcap_parts.specs.PartRuns.{AreResumedRuns, IsPartRun, NgPartRunsJoin, PartRunsJoin};
ghost use Rattle.pcap_parts.specs.Parts.{AreCuts, InParts, part_bytes};
ghost use Rattle.std.specs.List.{AllZip};

/// If the bytes behind a header are cut at packet boundaries, their front is the fronts of the parts, joined in order.
pub fn packets_are_in_parts()
    ensures { (header : PcapHeader) (h s rest : List ℕ) (packets : List Captured) (cuts : List Cut) →
        Front (format_under packet_limit header) tt packets s rest → AreCuts (format_under packet_limit header) tt s (length h) (length (h ++ s)) cuts →
        InParts (format_under packet_limit header) tt packets rest (h ++ s) cuts }
{}

/// If bytes are cut at block boundaries, their front is the fronts of the parts, joined in order. The front of each part begins in the
/// state to which the parts before it lead, and the first part may begin in any state.
pub fn blocks_are_in_parts()
    ensures { (q : State) (h s rest : List ℕ) (items : List Item) (cuts : List Cut) →
        Front block_format q items s rest → AreCuts block_format q s (length h) (length (h ++ s)) cuts → InParts block_format q items rest (h ++ s) cuts }
{}

/// The run over a classic capture is the runs over its parts, joined in order, and its rest is the rest of the last part.
pub fn run_is_in_parts()
    ensures { (run : PcapRun) (header : PcapHeader) (cuts : List Cut) (bytes : List ℕ) → IsRun run bytes → IsCut header cuts bytes →
        IsRunInParts run header cuts bytes }
{}

/// The run over a classic capture joins the runs of `parse_part` over its parts. Its packets are theirs, in order, and its rest is that
/// of the last run. Each run but the last takes all bytes of its part.
pub fn part_runs_are_the_run()
    ensures { (run : PcapRun) (header : PcapHeader) (cuts : List Cut) (bytes : List ℕ) (runs : List PcapRun) → IsRun run bytes → IsCut header cuts bytes →
        AllZip (IsPartRun header) (part_bytes bytes cuts) runs → PartRunsJoin run (part_bytes bytes cuts) runs }
{}

/// If a parser is fed with the last section header before a block boundary, and then with the interface descriptions after that
/// header, it has the state to which the blocks before the boundary lead.
pub fn resumed_parser_has_the_same_state()
    ensures { (first : Item) (items : List Item) (s rest : List ℕ) → Texts block_format opening (first ∷ items) s rest →
        (section : Section) (interfaces : List Interface) (x : LeavesInForce (map (λ (item : Item). item.block) (first ∷ items)) section interfaces) →
        (header : Item) (others : List Item) (slices : List (List ℕ)) → Fed block_format opening (header ∷ others) slices →
        map (λ (item : Item). item.block) (header ∷ others) ≡ blocks_in_force (map (λ (item : Item). item.block) (first ∷ items)) section interfaces x →
        state_after block_format opening (header ∷ others) ≡ state_after block_format opening (first ∷ items) }
{}

/// The run over a PcapNg capture is the runs over its parts, each from the state to which the parts before it lead. Its rest is the
/// rest of the last part.
pub fn ng_run_is_in_parts()
    ensures { (run : NgRun) (cuts : NgCuts) (bytes : List ℕ) → IsNgRun run bytes → IsNgCut cuts bytes → IsNgRunInParts run cuts.cuts.items bytes }
{}

/// If a parser can be fed from slices, each slice begins with a whole block, so making the parser again fails only if memory runs out.
/// So `resume` requests no more bytes at the places of a cut.
pub fn resuming_asks_for_no_bytes()
    ensures { (s : List ℕ) (slices : List (List ℕ)) (q : State) (error : PcapError) → IsFed s slices q → RefusesOne s slices error → IsMemory error }
{}

/// The run over a PcapNg capture joins the runs of `parse_ng_part` over its parts, each with a parser that `resume` made at the part's
/// cut. Its blocks are theirs, in order. Each run but the last takes all bytes of its part, and the last one has the final state and
/// the rest.
pub fn ng_part_runs_are_the_run()
    ensures { (run : NgRun) (cuts : NgCuts) (bytes : List ℕ) (runs : List NgRun) → IsNgRun run bytes → IsNgCut cuts bytes →
        AreResumedRuns bytes cuts.interfaces.items cuts.cuts.items (part_bytes bytes (bounds_of cuts.cuts.items)) runs →
        NgPartRunsJoin run (part_bytes bytes (bounds_of cuts.cuts.items)) runs }
{}
