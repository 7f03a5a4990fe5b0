//! Packets that have the length on the wire and the data of one of the packets before them.

ghost use Rattle.std.specs.Prelude.{◌≡◌, ◌<◌, ◌++◌, [], ◌∷◌, IfErr, IfOk};
ghost use Rattle.circular_buffer.specs.Buffer.{keep_last};
ghost use Rattle.pcapfile_cut.specs.Duplicates.{digest_with, is_among, most_remembered, remembered};

use circular_buffer::HeapCircularBuffer;
use sha2::{Digest, Sha256};
use std::alloc::{AllocError, Global};

/// The SHA-256 digests of the last packets. Each takes 32 bytes.
#[derive(Drop)]
pub struct Recent {
    /// `None` if no packet is remembered.
    pub(crate) digests: Option<HeapCircularBuffer<[u8; 32]>>,
}

// Returns the digest of a packet with this length on the wire and this data.
fn digest_of(original_len: u32, bytes: &[u8]) -> [u8; 32]
    ensures { result ≡ digest_with original_len bytes.now }
{
    let mut hasher = Sha256::new();
    hasher.update(original_len.to_be_bytes());
    hasher.update(bytes);
    hasher.finalize()
}

impl Recent {
    /// Returns a memory of at most this many packets, which has none yet. That of no packet needs no memory.
    pub fn new(alloc: Global, most: u32) -> Result<Recent, AllocError>
        ensures none { IfOk result (λ recent. remembered recent ≡ []) }
        ensures most { IfOk result (λ recent. most_remembered recent ≡ most) }
        ensures needed { IfErr result (λ _. 0 < most) }
    {
        if most == 0 {
            return Ok(Recent { digests: None });
        }
        let digests = HeapCircularBuffer::with_capacity(alloc, most as usize)?;
        Ok(Recent {
            digests: Some(digests),
        })
    }

    /// Returns whether one of the remembered packets has the digest of a packet with this length on the wire and this data. Remembers
    /// that packet, and forgets the oldest one if there are too many.
    pub fn repeats(&mut self, original_len: u32, bytes: &[u8]) -> bool
        ensures repeats { result ≡ is_among (digest_with original_len bytes.now) (remembered self.old) }
        ensures next { remembered self.new ≡ keep_last (most_remembered self.old) (remembered self.old ++ digest_with original_len bytes.now ∷ []) }
        ensures most { most_remembered self.new ≡ most_remembered self.old }
    {
        let Some(digests) = &mut self.digests else {
            return false;
        };
        let digest = digest_of(original_len, bytes);
        let (front, back) = digests.as_slices();
        let is_known = front.contains(&digest) || back.contains(&digest);
        digests.push_back(digest);
        is_known
    }
}
