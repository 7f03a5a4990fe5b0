//! Simple packets read leniently.

ghost use Rattle.std.specs.Prelude.{◌<◌, length, IfOk, IfErr, IfSome};
ghost use Rattle.pcap_blocks.specs.SimplePacket.{SimpleIsBorrowed};
ghost use Rattle.pcap_tolerant_blocks.specs.SimpleAsIs.{SimpleAsIsText, simple_in, flaws_said};

use crate::flaws::Flaw;
use byteorder::ByteOrder;
use pcap_blocks::SimplePacketBlock;
use pcap_core::CowBytes;
use pcap_core::fields::split_u32;
use pcap_core::rules::Rule;
use std::alloc::{AllocError, Global};

/// A simple packet read leniently, with its flaws.
#[derive(Debug, Drop)]
pub struct SimpleAsIs<'a> {
    /// The packet, or None if the body has no room for its original length.
    pub packet: Option<SimplePacketBlock<'a>>,
    /// The one flaw that there is no packet, for which strict reading refuses the body. A packet that is there has no flaw.
    pub flaws: Vec<Flaw>,
}

impl<'a> SimpleAsIs<'a> {
    /// Reads a block's body as a simple packet leniently, and returns what is left and the packet.
    ///
    /// Nothing is left behind a packet. If there is no packet, the whole slice is left. The packet's bytes are borrowed from
    /// the slice.
    ///
    /// Returns `AllocError` if the list of flaws can't grow. This can happen only if there is no packet.
    pub fn from_slice<B: ByteOrder>(
        alloc: Global,
        slice: &'a [u8],
    ) -> Result<(&'a [u8], Self), AllocError>
        ensures read { IfOk result (λ x. SimpleAsIsText B.number_of (simple_in x.1) (flaws_said x.1) slice.now x.0.now) }
        ensures memory { IfErr result (λ _. length slice.now < 4) }
        ensures borrowed { IfOk result (λ x. IfSome x.1.packet SimpleIsBorrowed) }
    {
        if slice.len() < 4 {
            let flaws = Flaw::alone(alloc, Rule::SimpleTooShort)?;
            let none = SimpleAsIs {
                packet: None,
                flaws,
            };
            return Ok((slice, none));
        }
        let (original_len, bytes) = split_u32::<B>(slice);
        let packet = SimplePacketBlock {
            original_len,
            data_: CowBytes::Borrowed(bytes),
        };
        let simple = SimpleAsIs {
            packet: Some(packet),
            flaws: Vec::new(alloc),
        };
        Ok((&slice[slice.len()..], simple))
    }
}
