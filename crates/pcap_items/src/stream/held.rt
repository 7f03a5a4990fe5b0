//! Bytes that were read from a stream.

ghost use Rattle.std.specs.Prelude.{◌≡◌, ◌≤◌, ◌+◌, take, max, [], IfOk, IfErr, OnOk, vec_len};
ghost use Rattle.pcap_core.specs.Errors.{IsMemory};

use pcap_core::ResultParsing;
use std::alloc::Global;

/// Bytes that were read from a stream, followed by room that is zeroed once and then reused.
#[derive(Debug, Drop)]
pub struct Held {
    pub(crate) room: Vec<u8>,
    pub(crate) len: usize,
    pub ghost within: { len ≤ vec_len room },
}

impl Held {
    ghost use Rattle.pcap_items.specs.Held.{held_bytes, room_of};

    /// Returns an empty buffer, which allocates no memory.
    pub fn new(alloc: Global) -> Held
        ensures held { held_bytes result ≡ [] }
        ensures room { room_of result ≡ 0 }
    {
        Held {
            room: Vec::new(alloc),
            len: 0,
        }
    }

    // Returns an empty buffer with room for `n` bytes.
    #[inline(always)]
    pub(crate) fn with_room(alloc: Global, n: usize) -> ResultParsing<Held>
        ensures held { IfOk result (λ made. held_bytes made ≡ []) }
        ensures room { IfOk result (λ made. room_of made ≡ n) }
        ensures memory { IfErr result IsMemory }
    {
        let mut room = Vec::with_capacity(alloc, n)?;
        fill_with_zeros(&mut room, n)?;
        Ok(Held { room, len: 0 })
    }

    /// Returns the bytes that are held.
    pub fn as_slice(&self) -> &[u8]
        ensures { result.now ≡ held_bytes self.now }
    {
        &self.room.as_slice()[..self.len]
    }

    /// Returns the held bytes as a vector, without copying them.
    pub fn into_vec(self) -> Vec<u8>
        ensures { result.items ≡ held_bytes self }
    {
        let Held { mut room, len } = self;
        room.truncate(len);
        room
    }

    /// Drops all bytes, and keeps their room.
    pub fn clear(&mut self)
        ensures held { held_bytes self.new ≡ [] }
        ensures room { room_of self.new ≡ room_of self.old }
    {
        self.len = 0;
    }

    // Makes room for `n` bytes after those that are held.
    #[inline(always)]
    pub(crate) fn make_room(&mut self, n: usize) -> ResultParsing<()>
        requires { n ≤ 65536 }
        ensures room { OnOk result (self.new.len + n ≤ room_of self.new) }
        ensures most { room_of self.new ≤ max (room_of self.old) (self.old.len + n) }
        ensures len { self.new.len ≡ self.old.len }
        ensures held { held_bytes self.new ≡ held_bytes self.old }
        ensures memory { IfErr result IsMemory }
    {
        let end = self.len + n;
        fill_with_zeros(&mut self.room, end)
    }
}

static ZEROS: [u8; 1024] = [0; 1024];

// Appends zeros to bytes that are fewer than `end`, a block at a time: `resize` stores one byte after the other.
#[inline(always)]
fn fill_with_zeros(bytes: &mut Vec<u8>, end: usize) -> ResultParsing<()>
    ensures front { take (vec_len bytes.old) bytes.new.items ≡ bytes.old.items }
    ensures len { OnOk result (vec_len bytes.new ≡ max (vec_len bytes.old) end) }
    ensures most { vec_len bytes.new ≤ max (vec_len bytes.old) end }
    ensures memory { IfErr result IsMemory }
{
    while bytes.len() < end {
        let step = (end - bytes.len()).min(ZEROS.len());
        bytes.extend_from_slice(&ZEROS[..step])?;
    }
    Ok(())
}
