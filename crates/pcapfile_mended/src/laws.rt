//! Laws of mended blocks. Each contract is the law.

ghost use Rattle.std.specs.Prelude.{◌≡◌, ℕ, List, [], true};
ghost use Rattle.pcap_core.specs.Answer.{Order, number_in};
ghost use Rattle.pcap_blocks.specs.InterfaceDescription.{Interface};
ghost use Rattle.pcap_blocks.specs.InterfaceTimes.{IsClockOf};
ghost use Rattle.pcap_options.specs.Options.{may_end_with_body, OptionList};
ghost use Rattle.pcap_options.specs.Values.{Entry, Kind};
ghost use Rattle.pcap_times.specs.declared.clock.Clock.{Clock};
ghost use Rattle.pcap_tolerant_blocks.specs.SoundOptions.{SoundOptions};
ghost use Rattle.pcap_written.specs.Raw.{Raw};
ghost use Rattle.pcapfile_mended.specs.Described.{IsDescribed};
ghost use Rattle.pcapfile_mended.specs.Mended.{Becomes, IsTaken, IsTakenAfter, Mends, stays, unstated};
ghost use Rattle.pcapfile_mended.specs.declared.described.Described.{Described};

/// The sound options of a body, concatenated, are a strict list of options that ends with the body.
pub fn sound_options_are_a_list()
    ensures { (order : Order) (kind : Kind) (s kept : List ℕ) → SoundOptions order kind s kept → (options : List Entry)
        × OptionList may_end_with_body order kind options kept [] }
{}

/// Strict reading takes the body of each mended block, unless the block is left out.
pub fn mended_blocks_are_taken()
    ensures { (raw : Raw) (becomes : Becomes) → Mends raw becomes → IsTakenAfter raw becomes }
{}

/// Mending a block has one result only.
pub fn mended_blocks_are_one()
    ensures { (raw : Raw) (becomes other : Becomes) → Mends raw becomes → Mends raw other → other ≡ becomes }
{}

/// A block whose body strict reading takes is unchanged, unless it is a section that states its length.
pub fn sound_blocks_stay()
    ensures { (raw : Raw) (becomes : Becomes) → IsTaken (number_in raw.endianness) raw.type_ raw.body true → unstated raw.type_ raw.body ≡ raw.body
        → Mends raw becomes → becomes ≡ stays }
{}

/// Interfaces that are described alike have the same clock, so that packets have the same times by both.
pub fn alike_interfaces_have_one_clock()
    ensures { (like : Described) (given made : Interface) (clock : Clock) → IsDescribed like given → IsDescribed like made → IsClockOf given clock
        → IsClockOf made clock }
{}
