//! Line ends that a text-mode transfer changed.

ghost use Rattle.std.specs.Prelude.{◌≡◌, ◌++◌, ◌∷◌, [], ◌↔◌, IsTrue, OnOk};
ghost use Rattle.pcap_altered.specs.LineEnds.{IsTransferred, Undoes, held_in};

use std::alloc::AllocError;

/// The byte at the end of a line.
const LINE_FEED: u8 = 10;

/// The byte that a text-mode transfer puts before each line feed.
const CARRIAGE_RETURN: u8 = 13;

/// Undoes a text-mode transfer, piece by piece: it drops each carriage return that is directly before a line feed.
///
/// A carriage return at the end of a piece is held back, since the next byte decides about it.
#[derive(Clone, Copy, Debug)]
pub struct LineEnds {
    /// Whether a carriage return is held back.
    is_held: bool,
}

impl LineEnds {
    /// Returns the state before the first piece. No byte is held back.
    pub fn new() -> LineEnds
        ensures { held_in result ≡ [] }
    {
        LineEnds { is_held: false }
    }

    /// Appends the next piece to `room`, without each carriage return that is directly before a line feed.
    pub fn put(&mut self, room: &mut Vec<u8>, piece: &[u8]) -> Result<(), AllocError>
        ensures { OnOk result (Undoes (held_in self.old) room.old.items piece.now (held_in self.new) room.new.items) }
    {
        let mut left = piece;
        while let Some((byte, rest)) = left.split_first() {
            self.put_byte(room, *byte)?;
            left = rest;
        }
        Ok(())
    }

    /// Appends the byte that is held back, if there is one. No piece follows.
    pub fn finish(&mut self, room: &mut Vec<u8>) -> Result<(), AllocError>
        ensures given { OnOk result (room.new.items ≡ room.old.items ++ held_in self.old) }
        ensures none { OnOk result (held_in self.new ≡ []) }
    {
        if self.is_held {
            room.push(CARRIAGE_RETURN)?;
        }
        self.is_held = false;
        Ok(())
    }

    // Appends a byte, or holds it back.
    fn put_byte(&mut self, room: &mut Vec<u8>, byte: u8) -> Result<(), AllocError>
        ensures { OnOk result (Undoes (held_in self.old) room.old.items (byte ∷ []) (held_in self.new) room.new.items) }
    {
        if self.is_held && byte != LINE_FEED {
            room.push(CARRIAGE_RETURN)?;
        }
        self.is_held = byte == CARRIAGE_RETURN;
        if byte != CARRIAGE_RETURN {
            room.push(byte)?;
        }
        Ok(())
    }
}

/// Returns whether these bytes are what a text-mode transfer makes of other bytes: each line feed has a carriage return directly
/// before it.
pub fn is_transferred(bytes: &[u8]) -> bool
    ensures { IsTrue result ↔ IsTransferred bytes.now }
{
    let mut is_after = false;
    let mut left = bytes;
    while let Some((byte, rest)) = left.split_first() {
        if *byte == LINE_FEED && !is_after {
            return false;
        }
        is_after = *byte == CARRIAGE_RETURN;
        left = rest;
    }
    true
}
