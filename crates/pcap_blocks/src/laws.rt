//! Laws of the grammar, of `==` and of `clone`. Each contract is the law. Only the functions for `==` and `clone` call
//! anything.

ghost use Rattle.std.specs.Prelude.{◌≡◌, ◌↔◌, ℕ, List, IsTrue, IsOk, IfOk};
ghost use Rattle.pcap_core.specs.Answer.{Order};
ghost use Rattle.pcap_core.specs.Laws.{ExactlyOne};
ghost use Rattle.pcap_blocks.specs.SectionHeader.{SectionSays};
ghost use Rattle.pcap_blocks.specs.InterfaceDescription.{InterfaceSays};
ghost use Rattle.pcap_blocks.specs.EnhancedPacket.{EnhancedSays};
ghost use Rattle.pcap_blocks.specs.Packet.{PacketBodySays};
ghost use Rattle.pcap_blocks.specs.InterfaceStatistics.{StatisticsSays};
ghost use Rattle.pcap_blocks.specs.NameResolution.{ResolutionSays};
ghost use Rattle.pcap_blocks.specs.declared.block_type.BlockType.{BlockType};
ghost use Rattle.pcap_blocks.specs.ParsedBlock.{BodySays};
ghost use Rattle.pcap_blocks.specs.UnknownBlock.{UnknownSays};
ghost use Rattle.pcap_blocks.specs.SimplePacket.{SimpleSays};
ghost use Rattle.pcap_blocks.specs.SystemdJournalExport.{JournalSays};

use crate::BlockType;
pub use pcap_options::laws::{
    address_is_one, list_is_kept, list_is_one, name_is_one, names_are_one, option_is_one,
    record_is_one, records_are_one, value_is_one,
};
use std::alloc::AllocError;

/// Any bytes have exactly one reading as the body of a section: the section, or one fault.
pub fn section_is_one()
    ensures { (s : List ℕ) → ExactlyOne (SectionSays s) }
{}

/// Any bytes have exactly one reading as the body of an interface: the interface, or one fault.
pub fn interface_is_one()
    ensures { (order : Order) (s : List ℕ) → ExactlyOne (InterfaceSays order s) }
{}

/// Any bytes have exactly one reading as the body of an enhanced packet: the packet, or one fault.
pub fn enhanced_is_one()
    ensures { (order : Order) (s : List ℕ) → ExactlyOne (EnhancedSays order s) }
{}

/// Any bytes have exactly one reading as the body of a packet block: the packet, or one fault.
pub fn packet_body_is_one()
    ensures { (order : Order) (s : List ℕ) → ExactlyOne (PacketBodySays order s) }
{}

/// Any bytes have exactly one reading as the body of interface statistics: the statistics, or one fault.
pub fn statistics_are_one()
    ensures { (order : Order) (s : List ℕ) → ExactlyOne (StatisticsSays order s) }
{}

/// Any bytes have exactly one reading as the body of a simple packet: the packet, or one fault.
pub fn simple_is_one()
    ensures { (order : Order) (s : List ℕ) → ExactlyOne (SimpleSays order s) }
{}

/// Any bytes have exactly one reading as a journal entry.
pub fn journal_is_one()
    ensures { (s : List ℕ) → ExactlyOne (JournalSays s) }
{}

/// Any bytes have exactly one reading as the body of an unknown block: the block, or one fault.
pub fn unknown_is_one()
    ensures { (type : BlockType) (s : List ℕ) → ExactlyOne (UnknownSays type s) }
{}

/// Any bytes have exactly one reading as the body of a name resolution block: the names, or one fault.
pub fn resolution_is_one()
    ensures { (order : Order) (s : List ℕ) → ExactlyOne (ResolutionSays order s) }
{}

/// Any bytes have exactly one reading as the body of a block of any given type: the body, or one fault.
pub fn body_is_one()
    ensures { (order : Order) (type : BlockType) (s : List ℕ) → ExactlyOne (BodySays order type s) }
{}

/// Two block types are equal exactly if they are the same variant and, for unknown types, have the same number.
pub fn types_are_equal(left: BlockType, right: BlockType) -> bool
    ensures { IsTrue result ↔ (left ≡ right) }
{
    left == right
}

/// A clone of a block type is the same type, and cloning never fails.
pub fn type_is_cloned(value: BlockType) -> Result<BlockType, AllocError>
    ensures same { IfOk result (λ clone. clone ≡ value) }
    ensures made { IsOk result }
{
    value.clone()
}
