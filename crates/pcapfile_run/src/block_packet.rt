//! The packets in blocks.

ghost use Rattle.std.specs.Prelude.{◌≡◌, map, option_map, slice_get};
ghost use Rattle.pcap_blocks.specs.InterfaceDescription.{interface_of};
ghost use Rattle.pcap_blocks.specs.ParsedBlock.{body_of};
ghost use Rattle.pcap_file.specs.Placed.{is_packet};
ghost use Rattle.pcapfile_run.specs.BlockPackets.{in_block, packet_in, snaplen_of};

use pcap_file::pcapng::{BlockType, InterfaceDescriptionBlock, ParsedBlock};

/// A packet in a block.
#[derive(Clone, Copy)]
pub struct BlockPacket<'a> {
    /// The number of its interface in its section. It is 0 for a simple packet, which belongs to the first interface.
    pub interface: u32,
    /// Its timestamp in units of the interface's clock. A simple packet has none.
    pub units: Option<u64>,
    /// Its length on the wire, in bytes.
    pub original_len: u32,
    /// Its stored bytes, without padding.
    pub bytes: &'a [u8],
}

/// Returns whether a block of this type holds a packet.
pub fn holds_packet(type_: BlockType) -> bool
    ensures { result ≡ is_packet type_ }
{
    matches!(
        type_,
        BlockType::EnhancedPacket | BlockType::Packet | BlockType::SimplePacket
    )
}

/// Returns the interface with this number, or `None` past the end of `interfaces`.
pub fn interface_at<'a>(
    interfaces: &'a [InterfaceDescriptionBlock<'static>],
    number: u32,
) -> Option<&'a InterfaceDescriptionBlock<'static>>
    ensures { option_map (λ interface. interface_of interface.now) result ≡ slice_get (map interface_of interfaces.now) number }
{
    interfaces.get(number as usize)
}

// Returns the snapshot length of the first interface in bytes, or 0 if there is no interface.
fn first_snaplen(interfaces: &[InterfaceDescriptionBlock<'static>]) -> u32
    ensures { result ≡ snaplen_of (slice_get (map interface_of interfaces.now) 0) }
{
    match interface_at(interfaces, 0) {
        None => 0,
        Some(interface) => interface.snaplen,
    }
}

/// Returns the packet in the body of a block, where `interfaces` are those of its section. Returns `None` if the body is no packet.
pub fn packet_in_body<'a>(
    interfaces: &[InterfaceDescriptionBlock<'static>],
    parsed: &'a ParsedBlock<'_>,
) -> Option<BlockPacket<'a>>
    ensures { option_map in_block result ≡ packet_in (map interface_of interfaces.now) (body_of parsed.now) }
{
    match parsed {
        ParsedBlock::EnhancedPacket(block) => Some(BlockPacket {
            interface: block.interface_id,
            units: Some(block.timestamp),
            original_len: block.original_len,
            bytes: block.data_.as_slice(),
        }),
        ParsedBlock::Packet(block) => Some(BlockPacket {
            interface: u32::from(block.interface_id),
            units: Some(block.timestamp),
            original_len: block.original_len,
            bytes: block.data_.as_slice(),
        }),
        ParsedBlock::SimplePacket(block) => Some(BlockPacket {
            interface: 0,
            units: None,
            original_len: block.original_len,
            bytes: block.stored(first_snaplen(interfaces)),
        }),
        _ => None,
    }
}
