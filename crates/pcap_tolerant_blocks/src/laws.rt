//! Laws of lenient reading of bodies. Each contract is the law.

ghost use Rattle.std.specs.Prelude.{List, ℕ, Option};
ghost use Rattle.pcap_core.specs.Answer.{Order, Verdict};
ghost use Rattle.pcap_core.specs.Laws.{ExactlyOne};
ghost use Rattle.pcap_options.specs.Values.{Entry, Kind};
ghost use Rattle.pcap_options.specs.Options.{may_end_with_body, ListSays};
ghost use Rattle.pcap_blocks.specs.InterfaceDescription.{Interface, InterfaceSays};
ghost use Rattle.pcap_core.specs.Faults.{Fault};
ghost use Rattle.pcap_blocks.specs.EnhancedPacket.{Enhanced, EnhancedSays};
ghost use Rattle.pcap_blocks.specs.InterfaceStatistics.{Statistics, StatisticsSays};
ghost use Rattle.pcap_blocks.specs.NameResolution.{Resolution, ResolutionSays};
ghost use Rattle.pcap_blocks.specs.Packet.{PacketBody, PacketBodySays};
ghost use Rattle.pcap_blocks.specs.SectionHeader.{Section, SectionFault, SectionSays};
ghost use Rattle.pcap_blocks.specs.SimplePacket.{Simple, SimpleSays};
ghost use Rattle.pcap_tolerant_blocks.specs.EnhancedAsIs.{EnhancedText, EnhancedAsIsSays};
ghost use Rattle.pcap_tolerant_blocks.specs.NamesAsIs.{NamesText, NamesAsIsSay};
ghost use Rattle.pcap_tolerant_blocks.specs.PacketBlockAsIs.{PacketBlockText, PacketBlockAsIsSays};
ghost use Rattle.pcap_tolerant_blocks.specs.SimpleAsIs.{SimpleAsIsText, SimpleAsIsSays};
ghost use Rattle.pcap_tolerant_blocks.specs.StatisticsAsIs.{StatisticsAsIsText, StatisticsAsIsSay};
ghost use Rattle.pcap_tolerant_blocks.specs.SectionAsIs.{SectionText, NoSection, SectionAsIsSays};
ghost use Rattle.pcap_tolerant_blocks.specs.Flaws.{Said, StrictIs, StrictIsWhere};
ghost use Rattle.pcap_tolerant_blocks.specs.InterfaceAsIs.{InterfaceText, InterfaceAsIsSays};
ghost use Rattle.pcap_tolerant_blocks.specs.OptionsAsIs.{OptionsAsIs, OptionsAsIsSay};
ghost use Rattle.pcap_tolerant_blocks.specs.SoundOptions.{SoundOptions};

/// Strict reading of the same options gives the same list if it has no flaw, and otherwise the error for its first flaw.
pub fn strict_options_are()
    ensures { (order : Order) (kind : Kind) (options : List Entry) (flaws : List Said) (s rest : List ℕ) (v : Verdict (List Entry)) →
        OptionsAsIs order kind options flaws s rest → ListSays may_end_with_body order kind s v → StrictIs flaws options rest v }
{}

/// Strict reading of the same interface gives that interface if it has no flaw, and otherwise the error for its first flaw.
pub fn strict_interface_is()
    ensures { (order : Order) (interface : Option Interface) (flaws : List Said) (s rest : List ℕ) (v : Verdict Interface) →
        InterfaceText order interface flaws s rest → InterfaceSays order s v → StrictIsWhere flaws interface rest v }
{}

/// Strict reading of the same section gives that section if it has no flaw, and otherwise the error for its first flaw. If no
/// byte order is known, strict reading has the same error.
pub fn strict_section_is()
    ensures read { (section : Section) (flaws : List Said) (s rest : List ℕ) (v : Verdict Section) →
        SectionText section flaws s rest → SectionSays s v → StrictIs flaws section rest v }
    ensures refused { (s : List ℕ) (fault : Fault) → NoSection s fault → SectionFault s fault }
{}

/// Strict reading of the same enhanced packet gives that packet if it has no flaw, and otherwise the error for its first flaw.
pub fn strict_enhanced_is()
    ensures { (order : Order) (enhanced : Option Enhanced) (flaws : List Said) (s rest : List ℕ) (v : Verdict Enhanced) →
        EnhancedText order enhanced flaws s rest → EnhancedSays order s v → StrictIsWhere flaws enhanced rest v }
{}

/// Strict reading of the same obsolete packet gives that packet if it has no flaw, and otherwise the error for its first flaw.
pub fn strict_packet_block_is()
    ensures { (order : Order) (body : Option PacketBody) (flaws : List Said) (s rest : List ℕ) (v : Verdict PacketBody) →
        PacketBlockText order body flaws s rest → PacketBodySays order s v → StrictIsWhere flaws body rest v }
{}

/// Strict reading of the same simple packet gives that packet, which has no flaw, or the error for the flaw that there is no
/// packet.
pub fn strict_simple_is()
    ensures { (order : Order) (simple : Option Simple) (flaws : List Said) (s rest : List ℕ) (v : Verdict Simple) →
        SimpleAsIsText order simple flaws s rest → SimpleSays order s v → StrictIsWhere flaws simple rest v }
{}

/// Strict reading of the same interface statistics gives those statistics if they have no flaw, and otherwise the error for
/// their first flaw.
pub fn strict_statistics_are()
    ensures { (order : Order) (statistics : Option Statistics) (flaws : List Said) (s rest : List ℕ) (v : Verdict Statistics) →
        StatisticsAsIsText order statistics flaws s rest → StatisticsSays order s v → StrictIsWhere flaws statistics rest v }
{}

/// Strict reading of the same names gives those names if they have no flaw, and otherwise the error for their first flaw.
/// Lenient reading always gives names.
pub fn strict_names_are()
    ensures { (order : Order) (names : Resolution) (flaws : List Said) (s rest : List ℕ) (v : Verdict Resolution) →
        NamesText order names flaws s rest → ResolutionSays order s v → StrictIs flaws names rest v }
{}

/// Lenient reading of options gives exactly one answer for any bytes: the options, their flaws, and what follows them.
pub fn options_as_they_stand_are_one()
    ensures { (order : Order) (kind : Kind) (s : List ℕ) → ExactlyOne (OptionsAsIsSay order kind s) }
{}

/// Any bytes have exactly one list of the bytes of their sound options, whose values break no rule.
pub fn sound_options_are_one()
    ensures { (order : Order) (kind : Kind) (s : List ℕ) → ExactlyOne (SoundOptions order kind s) }
{}

/// Lenient reading of an interface gives exactly one answer for any bytes: the interface with its flaws and what follows it, or
/// none and a flaw.
pub fn interface_as_it_stands_is_one()
    ensures { (order : Order) (s : List ℕ) → ExactlyOne (InterfaceAsIsSays order s) }
{}

/// Lenient reading of a section gives exactly one answer for any bytes: the section with its flaws and what follows it, or the
/// reason why no byte order is known.
pub fn section_as_it_stands_is_one()
    ensures { (s : List ℕ) → ExactlyOne (SectionAsIsSays s) }
{}

/// Lenient reading of an enhanced packet gives exactly one answer for any bytes: the packet with its flaws and what follows it,
/// or none and a flaw.
pub fn enhanced_as_it_stands_is_one()
    ensures { (order : Order) (s : List ℕ) → ExactlyOne (EnhancedAsIsSays order s) }
{}

/// Lenient reading of an obsolete packet gives exactly one answer for any bytes: the packet with its flaws and what follows it,
/// or none and a flaw.
pub fn packet_block_as_it_stands_is_one()
    ensures { (order : Order) (s : List ℕ) → ExactlyOne (PacketBlockAsIsSays order s) }
{}

/// Lenient reading of a simple packet gives exactly one answer for any bytes: the packet, or none and a flaw.
pub fn simple_as_it_stands_is_one()
    ensures { (order : Order) (s : List ℕ) → ExactlyOne (SimpleAsIsSays order s) }
{}

/// Lenient reading of statistics gives exactly one answer for any bytes: the statistics with their flaws and what follows them,
/// or none and a flaw.
pub fn statistics_as_they_stand_are_one()
    ensures { (order : Order) (s : List ℕ) → ExactlyOne (StatisticsAsIsSay order s) }
{}

/// Lenient reading of names gives exactly one answer for any bytes: the names, their flaws, and what follows them.
pub fn names_as_they_stand_are_one()
    ensures { (order : Order) (s : List ℕ) → ExactlyOne (NamesAsIsSay order s) }
{}
