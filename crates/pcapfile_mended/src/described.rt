//! Descriptions of interfaces whose own description is lost.

ghost use Rattle.std.specs.Prelude.{◌≡◌, ◌↔◌, IsTrue, IfOk, map, unwrap_or};
ghost use Rattle.pcap_blocks.specs.InterfaceDescription.{Interface};
ghost use Rattle.pcap_options.specs.Held.{first_under, number_in};
ghost use Rattle.pcap_options.specs.InterfaceOption.{interface_entry};
ghost use Rattle.pcap_tolerant_blocks.specs.Outline.{Outlines};
ghost use Rattle.pcapfile_mended.specs.Described.{Agree, IsDescribed, WritesDescription};

use pcap_blocks::InterfaceDescriptionBlock;
use pcap_core::{DataLink, Endianness};
use pcap_options::InterfaceDescriptionOption;
use pcap_tolerant_blocks::InterfaceOutline;
use pcap_written::{Unput, encode};
use std::alloc::{AllocError, Global};

/// The part of an interface's description that its packets need: the link type, the snapshot length and the clock.
#[derive(Clone, Copy, Debug)]
pub struct Described {
    /// The link type.
    pub link: DataLink,
    /// The snapshot length; 0 is no limit.
    pub snaplen: u32,
    /// The byte of the timestamp resolution, which is 6 for microseconds.
    pub resolution: u8,
    /// The offset of each time in seconds, as the bits of a signed number.
    pub offset: u64,
}

impl Described {
    /// Returns the part of the description with this outline that packets need.
    pub fn of(outline: InterfaceOutline) -> Described
        ensures { (interface : Interface) → Outlines interface outline → IsDescribed result interface }
    {
        Described {
            link: outline.linktype,
            snaplen: outline.snaplen,
            resolution: outline.resolution.unwrap_or(6),
            offset: outline.offset.unwrap_or(0),
        }
    }

    /// Returns whether packets have the same link type and the same times by both descriptions, whose clocks are equal.
    pub fn agrees(self, other: Described) -> bool
        ensures { IsTrue result ↔ Agree self other }
    {
        if self.link != other.link {
            return false;
        }
        has_clock(self, other.resolution, other.offset)
    }
}

// Returns whether the clock of a description has this resolution and this offset.
fn has_clock(described: Described, resolution: u8, offset: u64) -> bool
    ensures { IsTrue result ↔ ((described.resolution ≡ resolution) × (described.offset ≡ offset)) }
{
    described.resolution == resolution && described.offset == offset
}

// Returns the options of a clock: none for microseconds without an offset.
fn options_of(
    alloc: Global,
    resolution: u8,
    offset: u64,
) -> Result<Vec<InterfaceDescriptionOption<'static>>, AllocError>
    ensures resolution { IfOk result (λ options. unwrap_or (first_under 9 number_in (map interface_entry options.items)) 6 ≡ resolution) }
    ensures offset { IfOk result (λ options. unwrap_or (first_under 14 number_in (map interface_entry options.items)) 0 ≡ offset) }
{
    let mut options = Vec::new(alloc);
    match (resolution, offset) {
        (6, 0) => {}
        (_, 0) => options.push(InterfaceDescriptionOption::IfTsResol(resolution))?,
        (6, _) => options.push(InterfaceDescriptionOption::IfTsOffset(offset))?,
        (_, _) => {
            options.push(InterfaceDescriptionOption::IfTsResol(resolution))?;
            options.push(InterfaceDescriptionOption::IfTsOffset(offset))?;
        }
    }
    Ok(options)
}

/// Replaces `text` by an interface description in this byte order, and uses `body` as scratch space. By it, packets have the link type
/// and the times that they have by `like`: it has the same link type, snapshot length and clock, and no other options.
///
/// `Unput` if the link type doesn't fit the block, or memory ran out.
pub fn describe(
    alloc: Global,
    order: Endianness,
    like: Described,
    body: &mut Vec<u8>,
    text: &mut Vec<u8>,
) -> Result<(), Unput>
    ensures { WritesDescription order like text.new.items result }
{
    let block = InterfaceDescriptionBlock {
        linktype: like.link,
        reserved: 0,
        snaplen: like.snaplen,
        options: options_of(alloc, like.resolution, like.offset)?,
    };
    encode(order, body, text, &block)
}
