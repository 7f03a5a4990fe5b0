//! Blocks in their frames, made from values.

ghost use Rattle.std.specs.Prelude.{IfOk};
ghost use Rattle.pcap_core.specs.Bytes.{IsOwned};
ghost use Rattle.pcap_ng.specs.Written.{MakesBlock};

use crate::pcapng::block::Block;
use pcap_core::{CowBytes, Endianness, ResultParsing};
use pcap_written::{PcapNgBlock, encode_body};
use std::alloc::Global;

/// A value of any body, which can be made into a block in its frame.
pub trait ToBlock: PcapNgBlock {
    /// Makes the block in its frame, with an owned body. A section header has the byte order that its magic number names, and any
    /// other block has `order`. The body is the one that `PcapNgWriter` writes, and `Block::parsed` reads it as it was. The
    /// function doesn't check that the section has described the interface to which the block refers.
    ///
    /// Returns `InvalidField` if the block has no text in that order (see `Unwritable`), or `OutOfMemory`.
    final fn to_block(&self, alloc: Global, order: Endianness) -> ResultParsing<Block<'static>>
        ensures made { MakesBlock order (Self.sees self.now) result }
        ensures owned { IfOk result (λ block. IsOwned block.body) }
    {
        let mut body = Vec::new(alloc);
        let endianness = encode_body(order, &mut body, self)?;
        let len = (body.len() + 12) as u32;
        Ok(Block {
            type_: self.head().type_,
            initial_len: len,
            body: CowBytes::Owned(body),
            trailer_len: len,
            endianness,
        })
    }
}

impl<B: PcapNgBlock> ToBlock for B {}
