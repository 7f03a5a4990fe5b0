//! Interfaces read leniently.

ghost use Rattle.std.specs.Prelude.{IfOk, IfErr, IfSome};
ghost use Rattle.pcap_blocks.specs.InterfaceDescription.{InterfaceIsBorrowed};
ghost use Rattle.pcap_tolerant_blocks.specs.InterfaceAsIs.{InterfaceText, interface_in, flaws_said, InterfaceGrows};

use crate::flaws::Flaw;
use crate::list::{Unread, list_as_is};
use byteorder::ByteOrder;
use pcap_blocks::{InterfaceDescriptionBlock, InterfaceDescriptionOption, UnknownOption};
use pcap_core::DataLink;
use pcap_core::fields::{split_u16, split_u32};
use pcap_core::rules::Rule;
use std::alloc::{AllocError, Global};

/// An interface read leniently, with its flaws.
#[derive(Debug, Drop)]
pub struct InterfaceAsIs<'a> {
    /// The interface, or None if the body has no room for the interface's head. An option whose value breaks its rule becomes
    /// an option of an unknown code, with its bytes.
    pub interface: Option<InterfaceDescriptionBlock<'a>>,
    /// The flaws in the order of the text. Strict reading refuses the interface for the first of them.
    pub flaws: Vec<Flaw>,
}

impl<'a> InterfaceAsIs<'a> {
    /// Reads a block's body as an interface leniently, and returns what follows its options and the interface.
    ///
    /// The options end at their mark, at the end of the slice, or where no next option can be found. Strings and bytes are
    /// borrowed from the slice.
    ///
    /// Returns `AllocError` if a list can't grow. This can happen only if there is a flaw or an option.
    pub fn from_slice<B: ByteOrder>(
        alloc: Global,
        slice: &'a [u8],
    ) -> Result<(&'a [u8], Self), AllocError>
        ensures read { IfOk result (λ x. InterfaceText B.number_of (interface_in x.1) (flaws_said x.1) slice.now x.0.now) }
        ensures memory { IfErr result (λ _. InterfaceGrows B.number_of slice.now) }
        ensures borrowed { IfOk result (λ x. IfSome x.1.interface InterfaceIsBorrowed) }
    {
        if slice.len() < 8 {
            let flaws = Flaw::alone(alloc, Rule::InterfaceTooShort)?;
            return Ok((
                slice,
                InterfaceAsIs {
                    interface: None,
                    flaws,
                },
            ));
        }
        let (linktype, rest) = split_u16::<B>(slice);
        let (reserved, rest) = split_u16::<B>(rest);
        let (snaplen, rest) = split_u32::<B>(rest);
        let list = list_as_is::<InterfaceDescriptionOption, B>(alloc, rest)?;
        let interface = InterfaceDescriptionBlock {
            linktype: DataLink::from(u32::from(linktype)),
            reserved,
            snaplen,
            options: list.options,
        };
        Ok((
            list.left,
            InterfaceAsIs {
                interface: Some(interface),
                flaws: list.flaws,
            },
        ))
    }
}

impl<'a> Unread<'a> for InterfaceDescriptionOption<'a> {
    fn unread(option: UnknownOption<'a>) -> Self {
        Self::Unknown(option)
    }
}
