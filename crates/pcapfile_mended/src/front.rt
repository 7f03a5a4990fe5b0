//! The bytes before the options of a body.

ghost use Rattle.std.specs.Prelude.{◌≡◌, ◌≤◌, ◌<◌, ⊤, length, take, MatchOption};
ghost use Rattle.pcap_core.specs.Answer.{number_in};
ghost use Rattle.pcap_core.specs.declared.common.Endianness.{Endianness};
ghost use Rattle.pcap_tolerant_blocks.specs.declared.sound.OptionsOf.{OptionsOf};
ghost use Rattle.pcap_written.specs.Bodies.{order_under};
ghost use Rattle.pcap_written.specs.Raw.{magic_at, raw_of};
ghost use Rattle.pcapfile_mended.specs.Mended.{OptionsAt, front_length, options_of, packet_front};

use byteorder::{BigEndian, LittleEndian};
use pcap_blocks::BlockType;
use pcap_core::Endianness;
use pcap_core::fields::split_u32;
use pcap_tolerant_blocks::OptionsOf;
use pcap_written::RawBlock;

// The kind of options that end a body, their byte order, and how many bytes precede them.
#[derive(Clone, Copy, Debug)]
pub(crate) struct Front {
    pub(crate) of: OptionsOf,
    pub(crate) order: Endianness,
    pub(crate) len: usize,
}

// Returns the kind of options that end a body of this type, if it may have options.
pub(crate) fn options_in(type_: BlockType) -> Option<OptionsOf>
    ensures { result ≡ options_of type_ }
{
    match type_ {
        BlockType::SectionHeader => Some(OptionsOf::Section),
        BlockType::InterfaceDescription => Some(OptionsOf::Interface),
        BlockType::Packet => Some(OptionsOf::Packet),
        BlockType::InterfaceStatistics => Some(OptionsOf::InterfaceStatistics),
        BlockType::EnhancedPacket => Some(OptionsOf::EnhancedPacket),
        _ => None,
    }
}

// Returns the byte order of a block's options, which a section's magic number names.
#[tactic(auto, unfolding(pcap_blocks::specs::SectionHeader::magic_order))]
fn order_in(block: RawBlock<'_>) -> Option<Endianness>
    requires { 4 ≤ length block.body.now }
    ensures { result ≡ order_under block.entry.endianness (magic_at block.entry.type_ block.entry.body.now) }
{
    match block.type_ {
        BlockType::SectionHeader => {
            let (magic, _after) = split_u32::<BigEndian>(block.body);
            match magic {
                0x1A2B3C4D => Some(Endianness::Big),
                0x4D3C2B1A => Some(Endianness::Little),
                _ => None,
            }
        }
        _ => Some(block.endianness),
    }
}

// Returns the number at the front of a slice, in this byte order.
fn number_at(order: Endianness, slice: &[u8]) -> u32
    requires { 4 ≤ length slice.now }
    ensures { result ≡ number_in order 4 (take 4 slice.now) }
{
    let (number, _after) = match order {
        Endianness::Big => split_u32::<BigEndian>(slice),
        Endianness::Little => split_u32::<LittleEndian>(slice),
    };
    number
}

// Returns the length of a packet's body up to its options.
fn packet_len(order: Endianness, body: &[u8]) -> usize
    requires { 16 ≤ length body.now }
    ensures { result ≡ packet_front (number_in order) body.now }
{
    let captured = number_at(order, &body[12..]) as usize;
    20 + (captured + 3) / 4 * 4
}

// Returns the length of a body up to options of this kind, or `None` if the body is shorter.
fn front_len(of: OptionsOf, order: Endianness, body: &[u8]) -> Option<usize>
    ensures { MatchOption result (length body.now < front_length of (number_in order) body.now)
        (λ n. (n ≡ front_length of (number_in order) body.now) × (n ≤ length body.now)) }
{
    let len = match of {
        OptionsOf::Section => 16,
        OptionsOf::Interface => 8,
        OptionsOf::InterfaceStatistics => 12,
        OptionsOf::EnhancedPacket | OptionsOf::Packet => {
            if body.len() < 20 {
                return None;
            }
            packet_len(order, body)
        }
    };
    if body.len() < len {
        return None;
    }
    Some(len)
}

// Returns where the options of a block's body begin, if the body has room for what precedes them.
pub(crate) fn front_of(block: RawBlock<'_>) -> Option<Front>
    ensures none { MatchOption result ((of : OptionsOf) (order : Endianness) → OptionsAt (raw_of block.entry) of order → ⊥)
        (λ front. OptionsAt (raw_of block.entry) front.of front.order) }
    ensures len { MatchOption result ⊤ (λ front. front.len ≡ front_length front.of (number_in front.order) block.entry.body.now) }
{
    let of = options_in(block.type_)?;
    if block.body.len() < 4 {
        return None;
    }
    let order = order_in(block)?;
    let len = front_len(of, order, block.body)?;
    Some(Front { of, order, len })
}
