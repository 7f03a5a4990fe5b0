//! Packets read leniently that own their bytes.

ghost use Rattle.std.specs.Prelude.{◌≡◌, IfOk, IfErr};
ghost use Rattle.pcap_core.specs.Errors.{IsMemory};
ghost use Rattle.pcap_tolerant.specs.AsIs.{as_it_is};
ghost use Rattle.pcap_tolerant.specs.Pieces.{owned_as_is};

use crate::as_is::{HeadAsIs, PacketAsIs};
use pcap_core::ResultParsing;
use std::alloc::Global;

/// A packet read leniently that owns its bytes.
#[derive(Debug, Drop)]
pub struct OwnedAsIs {
    /// The head of the packet: its four numbers as written, and the rules that they break.
    pub head: HeadAsIs,
    /// The stored bytes of the packet, as many as the head states.
    pub data: Vec<u8>,
}

impl OwnedAsIs {
    /// Returns the same packet, and lends its bytes.
    pub fn packet(&self) -> PacketAsIs<'_>
        ensures { as_it_is result ≡ owned_as_is self.now }
    {
        self.head.packet(self.data.as_slice())
    }
}

impl PacketAsIs<'_> {
    /// Returns the same packet with a copy of its bytes, or `OutOfMemory` if they can't be copied.
    pub fn to_owned(&self, alloc: Global) -> ResultParsing<OwnedAsIs>
        ensures packet { IfOk result (λ own. owned_as_is own ≡ as_it_is self.now) }
        ensures memory { IfErr result IsMemory }
    {
        let head = HeadAsIs {
            ts_sec: self.ts_sec,
            fraction: self.fraction,
            incl_len: self.incl_len,
            orig_len: self.orig_len,
            flaws: self.flaws,
        };
        let data = Vec::from_slice(alloc, self.data)?;
        Ok(OwnedAsIs { head, data })
    }
}
