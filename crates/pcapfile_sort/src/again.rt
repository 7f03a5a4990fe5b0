//! Captures whose bytes can be read again.

ghost use Rattle.std.specs.Prelude.{◌≡◌, ℕ, List, Option, Bool, true, OnOk, MatchResult};
ghost use Rattle.pcapfile_sort.specs.Again.{GivesAt};

use std::io;

/// A capture whose bytes can be read again at any place.
pub trait ReadAgain {
    ghost bytes: { Self → Option (List ℕ) };

    ghost has_failed: { Self → Bool };

    /// Fills the buffer with the bytes of the capture that follow its first `place` bytes.
    fn read_at(&mut self, place: u64, buf: &mut [u8]) -> io::Result<()>
        ensures gives { OnOk result (GivesAt (bytes self.old) place buf.new) }
        ensures same { bytes self.new ≡ bytes self.old }
        ensures told { MatchResult result (λ _. has_failed self.new ≡ has_failed self.old) (λ _. has_failed self.new ≡ true) };
}
