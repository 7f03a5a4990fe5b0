//! The state of a section after each block: its byte order, and the number of its interfaces.

ghost use Rattle.pcap_written.specs.Writing.{NamesOrder, TellsPlace};

use crate::block::BlockHead;
use crate::unwritable::Unwritable;
use pcap_blocks::BlockType;
use pcap_core::Endianness;
use pcap_core::rules::Rule;

/// The byte order and the number of interfaces of a section, after some blocks of a capture.
#[derive(Clone, Copy, Debug, PartialEq, Eq)]
pub struct Place {
    /// The byte order of the section.
    pub endianness: Endianness,
    /// The number of interfaces that the section has described.
    pub interfaces: u32,
}

impl Place {
    /// Returns the place after a block with this head, or why the block can't be written here.
    pub(crate) fn behind(self, head: BlockHead) -> Result<Place, Unwritable>
        ensures { TellsPlace self head result }
    {
        let endianness = order_under(self.endianness, head.magic)?;
        if let Some(id) = head.interface_id {
            if id >= self.interfaces {
                return Err(Unwritable::InterfaceMissing);
            }
        }
        let interfaces = match head.type_ {
            BlockType::SectionHeader => 0,
            BlockType::InterfaceDescription if self.interfaces == u32::MAX => {
                return Err(Unwritable::InterfacesFull);
            }
            BlockType::InterfaceDescription => self.interfaces + 1,
            _ => self.interfaces,
        };
        Ok(Place {
            endianness,
            interfaces,
        })
    }
}

// Returns the byte order of a block with this magic number, or the current order if the block has none.
#[tactic(auto, unfolding(pcap_blocks::specs::SectionHeader::magic_order))]
pub(crate) fn order_under(current: Endianness, magic: Option<u32>) -> Result<Endianness, Unwritable>
    ensures { NamesOrder current magic result }
{
    match magic {
        None => Ok(current),
        Some(0x1A2B3C4D) => Ok(Endianness::Big),
        Some(0x4D3C2B1A) => Ok(Endianness::Little),
        Some(_) => Err(Unwritable::Breaks(Rule::SectionMagic)),
    }
}
