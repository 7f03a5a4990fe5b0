//! The digest of the bytes of a capture.

use sha2::{Digest, Sha256};
use std::cell::Cell;

/// The SHA-256 of the bytes that are read of a capture. The capture's stream adds them.
#[derive(Drop)]
pub(crate) struct Hashing {
    /// The hash of the bytes so far, if the program shows it.
    hasher: Cell<Option<Sha256>>,
    /// Whether the capture was read to its end.
    is_whole: Cell<bool>,
}

impl Hashing {
    /// Returns one that adds no bytes before `begin`.
    pub(crate) fn idle() -> Hashing {
        Hashing {
            hasher: Cell::new(None),
            is_whole: Cell::new(false),
        }
    }

    /// Begins with the next bytes.
    pub(crate) fn begin(&self) {
        self.hasher.set(Some(Sha256::new()));
        self.is_whole.set(false);
    }

    /// Adds the bytes of one read. None mark the end of the capture.
    pub(crate) fn add(&self, bytes: &[u8]) {
        let Some(mut hasher) = self.hasher.take() else {
            return;
        };
        hasher.update(bytes);
        self.hasher.set(Some(hasher));
        self.is_whole.set(bytes.is_empty());
    }

    /// Returns the digest of the bytes since `begin`, if they are a whole capture, and adds no more.
    pub(crate) fn end(&self) -> Option<[u8; 32]> {
        let hasher = self.hasher.take()?;
        if !self.is_whole.get() {
            return None;
        }
        Some(hasher.finalize())
    }
}
