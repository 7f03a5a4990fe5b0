//! Undoing what another program did to a capture as a whole, piece by piece.

use pcap_altered::LineEnds;
use pcap_variants::{Plain, Variant};
use std::alloc::{AllocError, Global};

/// What is undone, and how far.
#[derive(Drop)]
pub(crate) enum Undo {
    /// A text-mode transfer.
    LineEnds(LineEnds),
    /// The further bytes in the heads of packets.
    Heads(Plain),
}

impl Undo {
    /// Begins to undo a text-mode transfer of a capture with these first bytes, and appends what it was before.
    pub(crate) fn transfer(room: &mut Vec<u8>, bytes: &[u8]) -> Result<Undo, AllocError> {
        let mut line_ends = LineEnds::new();
        line_ends.put(room, bytes)?;
        Ok(Undo::LineEnds(line_ends))
    }

    /// Begins to turn a capture of a variant with these first bytes into a plain one, and appends it.
    pub(crate) fn variant(
        alloc: Global,
        variant: Variant,
        room: &mut Vec<u8>,
        bytes: &[u8],
    ) -> Result<Undo, AllocError> {
        let magic = variant.plain_magic();
        room.extend_from_slice(&magic)?;
        let mut plain = Plain::new(alloc, variant);
        plain.put(room, bytes.get(magic.len()..).unwrap_or_default())?;
        Ok(Undo::Heads(plain))
    }

    /// Takes the next piece, and appends what it was before.
    pub(crate) fn put(&mut self, room: &mut Vec<u8>, piece: &[u8]) -> Result<(), AllocError> {
        match self {
            Undo::LineEnds(line_ends) => line_ends.put(room, piece),
            Undo::Heads(plain) => plain.put(room, piece),
        }
    }

    /// Appends what is left. No piece follows.
    pub(crate) fn finish(&mut self, room: &mut Vec<u8>) -> Result<(), AllocError> {
        match self {
            Undo::LineEnds(line_ends) => line_ends.finish(room),
            Undo::Heads(plain) => plain.finish(room),
        }
    }
}
