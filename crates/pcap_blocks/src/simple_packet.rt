//! Simple packets.

ghost use Rattle.std.specs.Prelude.{IsOk, IfOk, ◌≡◌, IfErr};
ghost use Rattle.pcap_core.specs.Answer.{Tells};
ghost use Rattle.pcap_options.specs.Refusal.{Finds};
ghost use Rattle.pcap_blocks.specs.SimplePacket.{SimpleSays, simple_of, SimpleIsBorrowed, SimpleIsOwned};
ghost use Rattle.pcap_core.specs.Errors.{IsMemory};

use byteorder::ByteOrder;
use pcap_core::fields::split_u32;
use pcap_core::rules::Rule;
use pcap_core::{CowBytes, ResultParsing};
use pcap_options::{IntoStatic, Refusal, kept_fields};
use std::alloc::{AllocError, Global};

/// The body of a simple packet ('Simple Packet Block'): a packet of the section's first interface, without a timestamp.
#[derive(Clone, Debug, Drop)]
pub struct SimplePacketBlock<'a> {
    /// The number of bytes that the packet had on the wire.
    pub original_len: u32,
    /// The stored bytes of the packet, with their padding.
    pub data_: CowBytes<'a>,
}

impl<'a> SimplePacketBlock<'a> {
    /// Reads a simple packet from a whole slice, and returns the empty rest and the packet. Its bytes are borrowed from
    /// the slice.
    ///
    /// Returns `InvalidField` for fewer than 4 bytes.
    pub fn from_slice<B: ByteOrder>(slice: &'a [u8]) -> ResultParsing<(&'a [u8], Self)>
        ensures tells { Tells (SimpleSays B.number_of slice.now) simple_of result }
        ensures borrowed { IfOk result (λ x. SimpleIsBorrowed x.1) }
    {
        Ok(SimplePacketBlock::read::<B>(slice)?)
    }

    pub(crate) fn read<B: ByteOrder>(slice: &'a [u8]) -> Result<(&'a [u8], Self), Refusal>
        ensures tells { Finds (SimpleSays B.number_of slice.now) simple_of result }
        ensures borrowed { IfOk result (λ x. SimpleIsBorrowed x.1) }
    {
        if slice.len() < 4 {
            return Err(Refusal::Invalid(Rule::SimpleTooShort));
        }
        let (original_len, bytes) = split_u32::<B>(slice);
        let block = SimplePacketBlock {
            original_len,
            data_: CowBytes::Borrowed(bytes),
        };
        Ok((&slice[slice.len()..], block))
    }

    /// Returns the same packet with its own bytes and strings: it copies borrowed ones and keeps owned ones.
    ///
    /// Returns `OutOfMemory` if an allocation fails; the value is then dropped.
    pub fn into_owned(self, alloc: Global) -> ResultParsing<SimplePacketBlock<'static>>
        ensures same { IfOk result (λ kept. simple_of kept ≡ simple_of self.entry) }
        ensures owned { IfOk result SimpleIsOwned }
        ensures memory { IfErr result IsMemory }
        ensures kept { SimpleIsOwned self.entry → IsOk result }
    {
        Ok(self.into_static(alloc)?)
    }
}

impl<'a> IntoStatic for SimplePacketBlock<'a> {
    type Owned = SimplePacketBlock<'static>;

    ghost is_same = { λ value kept. simple_of kept ≡ simple_of value };

    ghost is_owned = { SimpleIsOwned };

    ghost needs_no_memory = { SimpleIsOwned };

    fn into_static(self, alloc: Global) -> Result<SimplePacketBlock<'static>, AllocError> {
        kept_fields!(self alloc SimplePacketBlock { original_len } held { data_ })
    }
}
