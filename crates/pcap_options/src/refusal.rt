//! Errors inside the crates of options and blocks.

ghost use Rattle.std.specs.Prelude.{◌≡◌, alloc_error};
ghost use Rattle.pcap_options.specs.Refusal.{IsShownAs};
ghost use Rattle.pcap_options.specs.declared.refusal.Refusal.TheVariants as refusals;

use pcap_core::PcapError;
use pcap_core::rules::Rule;
use std::alloc::{AllocError, AllocFailed};
use std::io;
use std::str::Utf8Error;

/// The reason why bytes couldn't be read. The public calls of blocks convert it to a `PcapError`.
#[derive(Debug, Drop)]
pub enum Refusal {
    /// An allocation failed.
    Memory(AllocError),
    /// A value is too short.
    Io,
    /// A string isn't UTF-8.
    Utf8(Utf8Error),
    /// The bytes break a rule.
    Invalid(Rule),
}

impl From<AllocError> for Refusal {
    ghost from_gives = { λ e r. r ≡ refusals.Memory e };

    fn from(e: AllocError) -> Refusal {
        Refusal::Memory(e)
    }
}

impl<T: Drop> From<AllocFailed<T>> for Refusal {
    ghost from_gives = { λ _ r. r ≡ refusals.Memory alloc_error };

    fn from(_e: AllocFailed<T>) -> Refusal {
        Refusal::Memory(AllocError)
    }
}

impl From<Refusal> for PcapError {
    ghost from_gives = { IsShownAs };

    fn from(refusal: Refusal) -> PcapError {
        match refusal {
            Refusal::Memory(e) => PcapError::OutOfMemory(e),
            Refusal::Io => PcapError::IoError(io::Error::from(io::ErrorKind::UnexpectedEof)),
            Refusal::Utf8(e) => PcapError::Utf8Error(e),
            Refusal::Invalid(rule) => PcapError::from(rule),
        }
    }
}
