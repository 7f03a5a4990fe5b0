//! Enhanced packets.

ghost use Rattle.std.specs.Prelude.{IsOk, IfOk, ◌≡◌, IfErr};
ghost use Rattle.pcap_core.specs.Answer.{TellsWhere};
ghost use Rattle.pcap_options.specs.Refusal.{FindsWhere};
ghost use Rattle.pcap_blocks.specs.EnhancedPacket.{EnhancedSays, enhanced_of, EnhancedIsBorrowed, EnhancedIsOwned, EnhancedNeedsNoMemory, EnhancedMayGrow};
ghost use Rattle.pcap_core.specs.Errors.{IsMemory};

use crate::stored_packet::stored_from_slice;
use byteorder::ByteOrder;
use pcap_core::fields::split_u32;
use pcap_core::rules::Rule;
use pcap_core::{CowBytes, ResultParsing};
use pcap_options::{EnhancedPacketOption, IntoStatic, Refusal, kept_fields};
use std::alloc::{AllocError, Global};

/// The body of an enhanced packet ('Enhanced Packet Block'): a packet of an interface.
#[derive(Clone, Debug, Drop)]
pub struct EnhancedPacketBlock<'a> {
    /// The number of the interface, counted from 0 in the order of the section's interface descriptions.
    pub interface_id: u32,
    /// The time since 1970-01-01 00:00:00 UTC, without the interface's `IfTsOffset`, in units of its `IfTsResol`, or of
    /// 10^-6 s if it has none.
    pub timestamp: u64,
    /// The number of bytes of the packet that are stored.
    pub captured_len: u32,
    /// The number of bytes that the packet had on the wire.
    pub original_len: u32,
    /// The stored bytes of the packet.
    pub data_: CowBytes<'a>,
    /// The packet's options.
    pub options: Vec<EnhancedPacketOption<'a>>,
}

impl<'a> EnhancedPacketBlock<'a> {
    /// Reads an enhanced packet from the body of a block, and returns the bytes after its options and the packet. The
    /// options end at the end-of-options option or with the slice. Strings and bytes are borrowed from the slice.
    ///
    /// The first broken rule decides the error. `InvalidField` for fewer than 20 bytes, and if the slice ends inside
    /// the data or its padding. Then the first malformed option: `Utf8Error` for a string that isn't UTF-8, `IoError`
    /// for a custom value under 4 bytes, and `InvalidField` for another broken rule.
    ///
    /// Returns `OutOfMemory` if an allocation fails, which can happen only if there is an option.
    pub fn from_slice<B: ByteOrder>(
        alloc: Global,
        slice: &'a [u8],
    ) -> ResultParsing<(&'a [u8], Self)>
        ensures tells { TellsWhere (EnhancedMayGrow B.number_of slice.now) (EnhancedSays B.number_of slice.now) enhanced_of result }
        ensures borrowed { IfOk result (λ x. EnhancedIsBorrowed x.1) }
    {
        Ok(EnhancedPacketBlock::read::<B>(alloc, slice)?)
    }

    pub(crate) fn read<B: ByteOrder>(
        alloc: Global,
        slice: &'a [u8],
    ) -> Result<(&'a [u8], Self), Refusal>
        ensures tells { FindsWhere (EnhancedMayGrow B.number_of slice.now) (EnhancedSays B.number_of slice.now) enhanced_of result }
        ensures borrowed { IfOk result (λ x. EnhancedIsBorrowed x.1) }
    {
        if slice.len() < 20 {
            return Err(Refusal::Invalid(Rule::EnhancedTooShort));
        }
        let (interface_id, rest) = split_u32::<B>(slice);
        let (rest, packet) = stored_from_slice::<EnhancedPacketOption, B>(alloc, rest)?;
        let block = EnhancedPacketBlock {
            interface_id,
            timestamp: packet.timestamp,
            captured_len: packet.captured_len,
            original_len: packet.original_len,
            data_: packet.data_,
            options: packet.options,
        };
        Ok((rest, block))
    }

    /// Returns the same packet with its own bytes and strings: it copies borrowed ones and keeps owned ones.
    ///
    /// Returns `OutOfMemory` if an allocation fails; the value is then dropped.
    pub fn into_owned(self, alloc: Global) -> ResultParsing<EnhancedPacketBlock<'static>>
        ensures same { IfOk result (λ kept. enhanced_of kept ≡ enhanced_of self.entry) }
        ensures owned { IfOk result EnhancedIsOwned }
        ensures memory { IfErr result IsMemory }
        ensures kept { EnhancedNeedsNoMemory self.entry → IsOk result }
    {
        Ok(self.into_static(alloc)?)
    }
}

impl<'a> IntoStatic for EnhancedPacketBlock<'a> {
    type Owned = EnhancedPacketBlock<'static>;

    ghost is_same = { λ value kept. enhanced_of kept ≡ enhanced_of value };

    ghost is_owned = { EnhancedIsOwned };

    ghost needs_no_memory = { EnhancedNeedsNoMemory };

    #[tactic(auto, using(pcap_core::proofs::Kept::map_kept))]
    fn into_static(self, alloc: Global) -> Result<EnhancedPacketBlock<'static>, AllocError> {
        kept_fields!(self alloc EnhancedPacketBlock { interface_id timestamp captured_len original_len } held { data_ } each { options })
    }
}
