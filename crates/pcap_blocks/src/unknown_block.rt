//! Blocks of types that this library doesn't know.

ghost use Rattle.std.specs.Prelude.{◌≡◌, IsOk, IfOk, IfErr};
ghost use Rattle.pcap_blocks.specs.UnknownBlock.{unknown_of, UnknownBlockIsBorrowed, UnknownBlockIsOwned};
ghost use Rattle.pcap_core.specs.Errors.{IsMemory};

use crate::block_type::BlockType;
use pcap_core::{CowBytes, ResultParsing};
use pcap_options::{IntoStatic, kept_fields};
use std::alloc::{AllocError, Global};

/// The body of a block whose type this library doesn't know ('General Block Structure').
#[derive(Clone, Debug, Drop)]
pub struct UnknownBlock<'a> {
    /// The block's type.
    pub type_: BlockType,
    /// The length of the block's value in bytes.
    pub length: u32,
    /// The block's value, which is its whole body.
    pub value: CowBytes<'a>,
}

impl<'a> UnknownBlock<'a> {
    /// Makes a block with this type, length in bytes and value.
    pub fn new(type_: BlockType, len: u32, value: &'a [u8]) -> Self
        ensures block { unknown_of result ≡ record { type_ = type_; len = len; bytes = value.now } }
        ensures borrowed { UnknownBlockIsBorrowed result }
    {
        UnknownBlock {
            type_,
            length: len,
            value: CowBytes::Borrowed(value),
        }
    }

    /// Returns the same block with its own bytes and strings: it copies borrowed ones and keeps owned ones.
    ///
    /// Returns `OutOfMemory` if an allocation fails; the value is then dropped.
    pub fn into_owned(self, alloc: Global) -> ResultParsing<UnknownBlock<'static>>
        ensures same { IfOk result (λ kept. unknown_of kept ≡ unknown_of self.entry) }
        ensures owned { IfOk result UnknownBlockIsOwned }
        ensures memory { IfErr result IsMemory }
        ensures kept { UnknownBlockIsOwned self.entry → IsOk result }
    {
        Ok(self.into_static(alloc)?)
    }
}

impl<'a> IntoStatic for UnknownBlock<'a> {
    type Owned = UnknownBlock<'static>;

    ghost is_same = { λ value kept. unknown_of kept ≡ unknown_of value };

    ghost is_owned = { UnknownBlockIsOwned };

    ghost needs_no_memory = { UnknownBlockIsOwned };

    fn into_static(self, alloc: Global) -> Result<UnknownBlock<'static>, AllocError> {
        kept_fields!(self alloc UnknownBlock { type_ length } held { value })
    }
}
