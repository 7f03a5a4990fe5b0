//! Laws of sorted captures: each contract states one.

ghost use Rattle.std.specs.Prelude.{◌≡◌, ◌<◌, ◌^◌, ◌++◌, ◌⊎◌, ◌↔◌, ℕ, List, [], Bool, Option, Some};
ghost use Rattle.pcap_times.specs.declared.clock.Timestamp.{Timestamp};
ghost use Rattle.pcapfile_cut.specs.declared.opening.Opening.{Opening};
ghost use Rattle.pcapfile_cut.specs.Openings.{bytes_of};
ghost use Rattle.pcapfile_sort.specs.declared.sorting.Sorted.TheVariants.{Whole};
ghost use Rattle.pcapfile_run.specs.BlockPackets.{IsBefore};
ghost use Rattle.pcapfile_sort.specs.Blocks.{IsTimeNumber, IsWithinSecond, rank_in};
ghost use Rattle.pcapfile_sort.specs.Order.{IsInOrder};
ghost use Rattle.pcapfile_sort.specs.Packets.{BeginsWith, packet_captures};
ghost use Rattle.pcapfile_sort.specs.Ranked.{Ranked, texts_of};
ghost use Rattle.pcapfile_sort.specs.Sorting.{Sorts};

/// Records have one order of time in which the records of each time keep their order.
pub fn order_is_one()
    ensures { (records a b : List Ranked) → IsInOrder records a → IsInOrder records b → a ≡ b }
{}

/// If a sort wrote all packets of a capture that stayed the same, the output is the capture's header and its packet records in order of time.
pub fn accepted_capture_is_sorted()
    ensures { (opening : Opening) (records sorted : List Ranked) (bytes out : List ℕ) (failed : Bool) → BeginsWith opening records (Some bytes) (Some [])
        → IsInOrder records sorted → Sorts packet_captures (Some bytes) (Some bytes) (Some []) (Some out) failed Whole →
        out ≡ bytes_of opening ++ texts_of sorted }
{}

/// Ranks of blocks are in order of their sections, and within a section in order of their numbers.
pub fn ranks_are_in_order()
    ensures { (a b m n : ℕ) → m < 2 ^ 95 → n < 2 ^ 95 → (rank_in a m < rank_in b n) ↔ ((a < b) ⊎ ((a ≡ b) × (m < n))) }
{}

/// Numbers of times are in order of time, and that of a missing time is before those of all others.
pub fn numbers_are_in_order()
    ensures { (a b : Option Timestamp) (m n : ℕ) → IsWithinSecond a → IsWithinSecond b → IsTimeNumber a m → IsTimeNumber b n → (m < n) ↔ IsBefore a b }
{}
