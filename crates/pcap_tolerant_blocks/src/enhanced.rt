//! Enhanced packets read leniently.

ghost use Rattle.std.specs.Prelude.{◌≡◌, None, All, IfOk, IfErr, IfSome};
ghost use Rattle.pcap_core.specs.Bytes.{IsBorrowed};
ghost use Rattle.pcap_options.specs.EnhancedOption.{EnhancedOptionIsBorrowed};
ghost use Rattle.pcap_tolerant_blocks.specs.Flaws.{alone};
ghost use Rattle.pcap_tolerant_blocks.specs.EnhancedAsIs.{EnhancedText, enhanced_in, flaws_said, EnhancedGrows};

use crate::flaws::Flaw;
use crate::list::{Unread, list_as_is};
use crate::stored::split_stored;
use byteorder::ByteOrder;
use pcap_blocks::{EnhancedPacketBlock, EnhancedPacketOption, UnknownOption};
use pcap_core::CowBytes;
use pcap_core::fields::split_u32;
use pcap_core::rules::Rule;
use std::alloc::{AllocError, Global};

/// An enhanced packet read leniently, with its flaws.
#[derive(Debug, Drop)]
pub struct EnhancedAsIs<'a> {
    /// The packet, or None if the body has no room for the packet's head or for the bytes that the head states. An option whose
    /// value breaks its rule becomes an option of an unknown code, with its bytes.
    pub packet: Option<EnhancedPacketBlock<'a>>,
    /// The flaws in the order of the text. Strict reading refuses the packet for the first of them.
    pub flaws: Vec<Flaw>,
}

impl<'a> EnhancedAsIs<'a> {
    /// Reads a block's body as an enhanced packet leniently, and returns what follows its options and the packet.
    ///
    /// The options end at their mark, at the end of the slice, or where no next option can be found. If there is no packet, the
    /// whole slice is left. Strings and bytes are borrowed from the slice.
    ///
    /// Returns `AllocError` if a list can't grow. This can happen only if there is a flaw or an option.
    pub fn from_slice<B: ByteOrder>(
        alloc: Global,
        slice: &'a [u8],
    ) -> Result<(&'a [u8], Self), AllocError>
        ensures read { IfOk result (λ x. EnhancedText B.number_of (enhanced_in x.1) (flaws_said x.1) slice.now x.0.now) }
        ensures memory { IfErr result (λ _. EnhancedGrows B.number_of slice.now) }
        ensures borrowed { IfOk result (λ x. IfSome x.1.packet (λ packet. IsBorrowed packet.data_)) }
        ensures options { IfOk result (λ x. IfSome x.1.packet (λ packet. All EnhancedOptionIsBorrowed packet.options.items)) }
    {
        if slice.len() < 20 {
            return EnhancedAsIs::none(alloc, slice, Rule::EnhancedTooShort);
        }
        let (interface_id, rest) = split_u32::<B>(slice);
        let Some((stored, rest)) = split_stored::<B>(rest) else {
            return EnhancedAsIs::none(alloc, slice, Rule::EnhancedCut);
        };
        let list = list_as_is::<EnhancedPacketOption, B>(alloc, rest)?;
        let packet = EnhancedPacketBlock {
            interface_id,
            timestamp: stored.timestamp,
            captured_len: stored.captured_len,
            original_len: stored.original_len,
            data_: CowBytes::Borrowed(stored.bytes),
            options: list.options,
        };
        Ok((
            list.left,
            EnhancedAsIs {
                packet: Some(packet),
                flaws: list.flaws,
            },
        ))
    }

    // Returns no packet, with a flaw by this rule.
    fn none(alloc: Global, slice: &'a [u8], rule: Rule) -> Result<(&'a [u8], Self), AllocError>
        ensures { IfOk result (λ x. (x.0.now ≡ slice.now) × (enhanced_in x.1 ≡ None) × (flaws_said x.1 ≡ alone rule)) }
    {
        let flaws = Flaw::alone(alloc, rule)?;
        let none = EnhancedAsIs {
            packet: None,
            flaws,
        };
        Ok((slice, none))
    }
}

impl<'a> Unread<'a> for EnhancedPacketOption<'a> {
    fn unread(option: UnknownOption<'a>) -> Self {
        Self::Unknown(option)
    }
}
