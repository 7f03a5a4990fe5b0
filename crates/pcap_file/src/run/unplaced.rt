//! Turns packets of PcapNg blocks into packets of a classic capture.

ghost use Rattle.std.specs.Prelude.{◌≡◌, ◌≢◌, ◌<◌, ◌^◌, ℕ, pos, map, option_map, slice_get, MatchOption};
ghost use Rattle.pcap_blocks.specs.InterfaceDescription.{interface_of};
ghost use Rattle.pcap_blocks.specs.ParsedBlock.{body_of};
ghost use Rattle.pcap_file.specs.Placed.{is_packet, unplaced_message, TellsPlaced, TellsPlacedBody};

use pcap_blocks::{BlockType, InterfaceDescriptionBlock, ParsedBlock, Timestamp};
use pcap_classic::pcap::{PACKET_LIMIT, PacketHeader};
use pcap_core::DataLink;
use pcap_core::rules::Rule;

/// A reason why a packet of a block has no place in a classic capture.
#[derive(Clone, Copy, Debug, PartialEq, Eq)]
pub enum Unplaced {
    /// The packet is in a simple packet block, which has no time.
    NoTime,
    /// The packet's interface is not described before it.
    InterfaceMissing,
    /// The packet's interface has another link type than the classic capture.
    OtherLink,
    /// The packet's time is before 1970, or its seconds do not fit into 32 bits.
    SecondsOutside,
    /// The packet's original length is more than 262144 bytes.
    OriginalTooLong,
    /// The block stores more bytes than the packet's original length.
    CapturedPastOriginal,
}

impl Unplaced {
    /// Returns the message of this reason.
    pub fn message(self) -> &'static str
        ensures { result.now ≡ unplaced_message self }
    {
        match self {
            Unplaced::NoTime => "SimplePacketBlock: no time",
            Unplaced::InterfaceMissing => "Block: interface_id is not described",
            Unplaced::OtherLink => "Block: interface of another linktype",
            Unplaced::SecondsOutside => "Block: seconds of no 32 bits",
            Unplaced::OriginalTooLong => Rule::OriginalTooLong.text(),
            Unplaced::CapturedPastOriginal => Rule::IncludedPastOriginal.text(),
        }
    }
}

/// A packet for a classic capture: its header and its bytes.
#[derive(Clone, Copy)]
pub(crate) struct PlacedPacket<'a> {
    pub(crate) header: PacketHeader,
    pub(crate) bytes: &'a [u8],
}

// Returns whether blocks of this type hold a packet.
pub(crate) fn holds_packet(type_: BlockType) -> bool
    ensures { result ≡ is_packet type_ }
{
    matches!(
        type_,
        BlockType::EnhancedPacket | BlockType::Packet | BlockType::SimplePacket
    )
}

// Returns the packet of a body, if it has a place in a capture of this link type.
pub(crate) fn place<'a>(
    parsed: &'a ParsedBlock<'_>,
    interfaces: &[InterfaceDescriptionBlock<'static>],
    link: DataLink,
) -> Result<PlacedPacket<'a>, Unplaced>
    ensures { TellsPlacedBody (map interface_of interfaces.now) link (body_of parsed.now) result }
{
    match parsed {
        ParsedBlock::EnhancedPacket(block) => {
            let interface = interface_at(interfaces, block.interface_id);
            let bytes = block.data_.as_slice();
            placed(interface, link, block.timestamp, bytes, block.original_len)
        }
        ParsedBlock::Packet(block) => {
            let interface = interface_at(interfaces, block.interface_id.into());
            let bytes = block.data_.as_slice();
            placed(interface, link, block.timestamp, bytes, block.original_len)
        }
        _ => Err(Unplaced::NoTime),
    }
}

fn interface_at<'a>(
    interfaces: &'a [InterfaceDescriptionBlock<'static>],
    number: u32,
) -> Option<&'a InterfaceDescriptionBlock<'static>>
    ensures { option_map (λ interface. interface_of interface.now) result ≡ slice_get (map interface_of interfaces.now) number }
{
    interfaces.get(number as usize)
}

// Returns the packet of these bytes, which was captured on this interface. `units` is its time in units of the interface's clock.
fn placed<'a>(
    interface: Option<&InterfaceDescriptionBlock<'static>>,
    link: DataLink,
    units: u64,
    bytes: &'a [u8],
    original_len: u32,
) -> Result<PlacedPacket<'a>, Unplaced>
    ensures { TellsPlaced (option_map (λ i. interface_of i.now) interface.entry) link units original_len bytes.now result }
{
    let Some(interface) = interface else {
        return Err(Unplaced::InterfaceMissing);
    };
    if interface.linktype != link {
        return Err(Unplaced::OtherLink);
    }
    let time = interface.timestamp(units);
    let Some(seconds) = seconds_of(time) else {
        return Err(Unplaced::SecondsOutside);
    };
    if original_len > PACKET_LIMIT {
        return Err(Unplaced::OriginalTooLong);
    }
    if bytes.len() > original_len as usize {
        return Err(Unplaced::CapturedPastOriginal);
    }
    let len = bytes.len() as u32;
    let header = PacketHeader::new(seconds, time.nanoseconds, len, original_len);
    Ok(PlacedPacket { header, bytes })
}

// Returns the seconds of a time, if they fit into 32 bits.
fn seconds_of(time: Timestamp) -> Option<u32>
    ensures { MatchOption result ((s : ℕ) → s < 2 ^ 32 → time.seconds ≢ pos s) (λ s. (s < 2 ^ 32) × (time.seconds ≡ pos s)) }
{
    u32::try_from(time.seconds).ok()
}
