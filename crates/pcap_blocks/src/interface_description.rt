//! Interface descriptions.

ghost use Rattle.std.specs.Prelude.{◌≡◌, IsOk, IfOk, IfErr};
ghost use Rattle.pcap_core.specs.Answer.{TellsWhere};
ghost use Rattle.pcap_options.specs.Refusal.{FindsWhere};
ghost use Rattle.pcap_blocks.specs.InterfaceDescription.{InterfaceSays, interface_of, InterfaceIsBorrowed, InterfaceIsOwned};
ghost use Rattle.pcap_blocks.specs.InterfaceDescription.{InterfaceNeedsNoMemory, InterfaceMayGrow};
ghost use Rattle.pcap_core.specs.Errors.{IsMemory};

use byteorder::ByteOrder;
use pcap_core::fields::{split_u16, split_u32};
use pcap_core::rules::Rule;
use pcap_core::{DataLink, ResultParsing};
use pcap_options::{
    InterfaceDescriptionOption, IntoStatic, Refusal, kept_fields, options_from_slice,
};
use std::alloc::{AllocError, Global};

/// The body of an interface description ('Interface Description Block'): an interface that packets were captured on.
#[derive(Clone, Debug, Drop)]
pub struct InterfaceDescriptionBlock<'a> {
    /// The link type: the protocol of the packets' first layer.
    pub linktype: DataLink,
    /// A reserved field, to be ignored.
    pub reserved: u16,
    /// The snapshot length: the most bytes that are stored for each packet; 0 is no limit.
    pub snaplen: u32,
    /// The interface's options.
    pub options: Vec<InterfaceDescriptionOption<'a>>,
}

impl<'a> InterfaceDescriptionBlock<'a> {
    /// Reads an interface from the body of a block, and returns the bytes after its options and the interface. The
    /// options end at the end-of-options option or with the slice. Strings and bytes are borrowed from the slice.
    ///
    /// Returns `InvalidField` for fewer than 8 bytes. Then the first malformed option decides the error: `Utf8Error`
    /// for a string that isn't UTF-8, `IoError` for a custom value under 4 bytes, and `InvalidField` for another broken
    /// rule.
    ///
    /// Returns `OutOfMemory` if an allocation fails, which can happen only if there is an option.
    pub fn from_slice<B: ByteOrder>(
        alloc: Global,
        slice: &'a [u8],
    ) -> ResultParsing<(&'a [u8], Self)>
        ensures tells { TellsWhere (InterfaceMayGrow B.number_of slice.now) (InterfaceSays B.number_of slice.now) interface_of result }
        ensures borrowed { IfOk result (λ x. InterfaceIsBorrowed x.1) }
    {
        Ok(InterfaceDescriptionBlock::read::<B>(alloc, slice)?)
    }

    pub(crate) fn read<B: ByteOrder>(
        alloc: Global,
        slice: &'a [u8],
    ) -> Result<(&'a [u8], Self), Refusal>
        ensures tells { FindsWhere (InterfaceMayGrow B.number_of slice.now) (InterfaceSays B.number_of slice.now) interface_of result }
        ensures borrowed { IfOk result (λ x. InterfaceIsBorrowed x.1) }
    {
        if slice.len() < 8 {
            return Err(Refusal::Invalid(Rule::InterfaceTooShort));
        }
        let (linktype, rest) = split_u16::<B>(slice);
        let (reserved, rest) = split_u16::<B>(rest);
        let (snaplen, rest) = split_u32::<B>(rest);
        let (rest, options) = options_from_slice::<InterfaceDescriptionOption, B>(alloc, rest)?;
        let block = InterfaceDescriptionBlock {
            linktype: DataLink::from(u32::from(linktype)),
            reserved,
            snaplen,
            options,
        };
        Ok((rest, block))
    }

    /// Returns the same interface with its own bytes and strings: it copies borrowed ones and keeps owned ones.
    ///
    /// Returns `OutOfMemory` if an allocation fails; the value is then dropped.
    pub fn into_owned(self, alloc: Global) -> ResultParsing<InterfaceDescriptionBlock<'static>>
        ensures same { IfOk result (λ kept. interface_of kept ≡ interface_of self.entry) }
        ensures owned { IfOk result InterfaceIsOwned }
        ensures memory { IfErr result IsMemory }
        ensures kept { InterfaceNeedsNoMemory self.entry → IsOk result }
    {
        Ok(self.into_static(alloc)?)
    }
}

impl<'a> IntoStatic for InterfaceDescriptionBlock<'a> {
    type Owned = InterfaceDescriptionBlock<'static>;

    ghost is_same = { λ value kept. interface_of kept ≡ interface_of value };

    ghost is_owned = { InterfaceIsOwned };

    ghost needs_no_memory = { InterfaceNeedsNoMemory };

    #[tactic(auto, using(pcap_core::proofs::Kept::map_kept))]
    fn into_static(self, alloc: Global) -> Result<InterfaceDescriptionBlock<'static>, AllocError> {
        kept_fields!(self alloc InterfaceDescriptionBlock { linktype reserved snaplen } each { options })
    }
}
