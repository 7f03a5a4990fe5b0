//! The fields around the body of a block.

ghost use Rattle.std.specs.Prelude.{◌≡◌};
ghost use Rattle.pcap_core.specs.Bytes.{IsBorrowed};
ghost use Rattle.pcap_ng.specs.Frames.{framed_of};
ghost use Rattle.pcap_ng.specs.Lent.{header_of, framed_around};

use crate::pcapng::block::Block;
use pcap_blocks::BlockType;
use pcap_core::{CowBytes, Endianness};

/// The fields around the body of a block.
#[derive(Clone, Copy, Debug, PartialEq, Eq)]
pub struct BlockHeader {
    /// The type of the block, which determines how the body is read.
    pub type_: BlockType,
    /// The length of the whole block in bytes, which is both before and after the body.
    pub initial_len: u32,
    /// The byte order of the block's numbers. A section header names its own; any other block has the order of its section.
    pub endianness: Endianness,
}

impl BlockHeader {
    // Returns the header of this block.
    pub(crate) fn of(block: &Block) -> BlockHeader
        ensures { result ≡ header_of (framed_of block.now) }
    {
        BlockHeader {
            type_: block.type_,
            initial_len: block.initial_len,
            endianness: block.endianness,
        }
    }

    // Returns the block with this header and this body.
    pub(crate) fn around(self, body: &[u8]) -> Block<'_>
        ensures block { framed_of result ≡ framed_around self body.now }
        ensures borrowed { IsBorrowed result.body }
    {
        Block {
            type_: self.type_,
            initial_len: self.initial_len,
            body: CowBytes::Borrowed(body),
            trailer_len: self.initial_len,
            endianness: self.endianness,
        }
    }
}
