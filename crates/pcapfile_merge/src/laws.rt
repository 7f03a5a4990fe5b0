//! Laws of merges: each contract states one.

ghost use Rattle.std.specs.Prelude.{◌≡◌, ◌++◌, ℕ, Decides, List, [], map, true, Some};
ghost use Rattle.byteorder.specs.Endian.{big_number, little_number};
ghost use Rattle.pcapfile_merge.specs.declared.choice.PacketOrder.{PacketOrder};
ghost use Rattle.pcapfile_merge.specs.declared.choice.PacketOrder.TheVariants.{ByTime, ByFile};
ghost use Rattle.std.specs.List.{AllByRecursion, slice_index_or};
ghost use Rattle.pcap_options.specs.Options.{OptionList, may_end_with_body};
ghost use Rattle.pcap_options.specs.Values.{Entry, Value};
ghost use Rattle.pcap_file.specs.Placing.{TakesNone};
ghost use Rattle.pcapfile_merge.specs.Fronts.{AreOfAll, AreOfFirst};
ghost use Rattle.pcapfile_merge.specs.Keeping.{Progress};
ghost use Rattle.pcapfile_merge.specs.Little.{are_options, numbered_kind, turned_all};
ghost use Rattle.pcapfile_merge.specs.Merges.{IsSorted, Merges, given_by, in_a_row};
ghost use Rattle.pcapfile_merge.specs.Packets.{Packet, IsEarlier, IsEarlierIn};
ghost use Rattle.pcapfile_merge.specs.SectionOptions.{is_same_value, with_own_length};
ghost use Rattle.pcapfile_merge.specs.Sources.{BlocksGave};

/// A merge takes exactly those bytes for big-endian options that are a list of them. It makes of them the little-endian list of the same
/// options, before the same bytes.
pub fn kept_options_are_the_same()
    ensures kept { (options : List Entry) (s rest : List ℕ) → OptionList may_end_with_body big_number numbered_kind options s rest → are_options s ≡ true }
    ensures same { (options : List Entry) (s rest : List ℕ) → OptionList may_end_with_body big_number numbered_kind options s rest
        → OptionList may_end_with_body little_number numbered_kind options (turned_all s) rest }
    ensures only { (s : List ℕ) → are_options s ≡ true
        → (options : List Entry) × ((rest : List ℕ) × OptionList may_end_with_body big_number numbered_kind options s rest) }
{}

/// The packets that an input gave and those left in it are its packets in order: none is lost, and none is given twice.
pub fn merges_keep_each_input()
    ensures { (order : PacketOrder) (place : ℕ) (inputs : List (List Packet)) (out : List (ℕ × Packet)) (left : List (List Packet))
        → Merges (IsEarlierIn order) inputs out left →
        slice_index_or inputs place [] ≡ given_by place out ++ slice_index_or left place [] }
{}

/// If each input is sorted by time, so is the output of a merge by time.
pub fn merges_of_sorted_inputs_are_sorted()
    ensures { (inputs : List (List Packet)) (out : List (ℕ × Packet)) (left : List (List Packet)) → AllByRecursion (IsSorted IsEarlier) inputs
        → Merges (IsEarlierIn ByTime) inputs out left →
        IsSorted IsEarlier (map (λ (given : ℕ × Packet). given.1) out) }
{}

/// In a merge by file, the packets that the inputs gave and then those left in them are the packets of all inputs, one input after another.
pub fn merges_by_file_are_in_a_row()
    ensures { (inputs : List (List Packet)) (out : List (ℕ × Packet)) (left : List (List Packet)) → Merges (IsEarlierIn ByFile) inputs out left →
        in_a_row inputs ≡ map (λ (given : ℕ × Packet). given.1) out ++ in_a_row left }
{}

/// If the bytes of the stream are known, the packets, interfaces and kept blocks that a source of blocks gave are those of the first
/// blocks of their front.
pub fn blocks_give_their_front()
    ensures { (numbers : List ℕ) (a b : Progress) (given : List Packet) (s : List ℕ) → BlocksGave numbers a b given → a.source.left ≡ Some s
        → AreOfFirst numbers a s given }
{}

/// If a source of blocks reached the end of its stream, its packets, interfaces and kept blocks are those of all blocks of the front, and
/// nothing is left.
pub fn blocks_give_all_at_the_end()
    ensures { (numbers : List ℕ) (a b now : Progress) (given : List Packet) (s : List ℕ) → BlocksGave numbers a b given → TakesNone b.source now.source → a.source.left ≡ Some s
        → AreOfAll numbers a s given }
{}

/// A merge takes two values of options for the same exactly if they are of one kind and have the same numbers, strings and bytes. It
/// ignores the stated length of an unknown value, and compares the bytes.
pub fn same_values_are_equal()
    ensures { (a b : Value) → Decides (is_same_value a b) (with_own_length a ≡ with_own_length b) }
{}
