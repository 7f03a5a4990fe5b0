//! The errors of reading and writing captures.

ghost use Rattle.std.specs.Prelude.{◌≡◌, Some, IfSome, alloc_error};
ghost use Rattle.pcap_core.specs.Errors.{error_message};
ghost use Rattle.pcap_core.specs.Faults.{Names};
ghost use Rattle.pcap_core.specs.declared.errors.PcapError.TheVariants as errors;

use crate::rules::Rule;
use std::alloc::{AllocError, AllocFailed};
use std::str::Utf8Error;
use std::string::FromUtf8Error;
use std::{fmt, io};
use thiserror::Error;

/// The result of a call that can fail with a `PcapError`.
pub type ResultParsing<T> = Result<T, PcapError>;

/// An error of a call that reads or writes a capture.
#[derive(Debug, Drop, Error)]
pub enum PcapError {
    /// The slice ends inside the requested item. At least this many bytes are missing.
    IncompleteBuffer(usize),
    /// A read or write failed, a stream ended early, or a value inside a body is too short.
    IoError(io::Error),
    /// The bytes break a rule of the format. The message names the rule.
    InvalidField(&'static str),
    /// A string isn't UTF-8.
    Utf8Error(Utf8Error),
    /// Kept for compatibility with the Rust crate. Only the conversion from a `FromUtf8Error` returns it.
    FromUtf8Error(FromUtf8Error),
    /// A memory allocation failed.
    OutOfMemory(AllocError),
    /// An earlier write of this writer failed.
    WriterFailed,
}

impl fmt::Display for PcapError {
    ghost output = { λ error. Some (error_message error) };

    fn fmt<W: fmt::Write>(&self, f: &mut fmt::Formatter<W>) -> fmt::Result {
        match self {
            PcapError::IncompleteBuffer(n) => write!(f, "Need at least {n} more bytes"),
            PcapError::IoError(_) => f.write_str("Error reading bytes"),
            PcapError::InvalidField(message) => write!(f, "Invalid field value: {message}"),
            PcapError::Utf8Error(_) | PcapError::FromUtf8Error(_) => f.write_str("UTF8 error"),
            PcapError::OutOfMemory(_) => f.write_str("Out of memory"),
            PcapError::WriterFailed => f.write_str("Writer failed earlier"),
        }
    }
}

impl PcapError {
    /// Returns the rule that the message of an `InvalidField` names. Returns None for every other error.
    pub fn rule(&self) -> Option<Rule>
        ensures named { IfSome result (λ rule. Names rule self.now) }
        ensures found { (rule : Rule) → Names rule self.now → result ≡ Some rule }
    {
        match self {
            PcapError::InvalidField(message) => Rule::from_message(message),
            _ => None,
        }
    }
}

impl From<io::Error> for PcapError {
    ghost from_gives = { λ e r. r ≡ errors.IoError e };

    fn from(e: io::Error) -> PcapError {
        PcapError::IoError(e)
    }
}

impl From<Utf8Error> for PcapError {
    ghost from_gives = { λ e r. r ≡ errors.Utf8Error e };

    fn from(e: Utf8Error) -> PcapError {
        PcapError::Utf8Error(e)
    }
}

impl From<FromUtf8Error> for PcapError {
    ghost from_gives = { λ e r. r ≡ errors.FromUtf8Error e };

    fn from(e: FromUtf8Error) -> PcapError {
        PcapError::FromUtf8Error(e)
    }
}

impl From<AllocError> for PcapError {
    ghost from_gives = { λ e r. r ≡ errors.OutOfMemory e };

    fn from(e: AllocError) -> PcapError {
        PcapError::OutOfMemory(e)
    }
}

impl<T: Drop> From<AllocFailed<T>> for PcapError {
    ghost from_gives = { λ _ r. r ≡ errors.OutOfMemory alloc_error };

    fn from(_e: AllocFailed<T>) -> PcapError {
        PcapError::OutOfMemory(AllocError)
    }
}

impl From<Rule> for PcapError {
    ghost from_gives = { Names };

    fn from(rule: Rule) -> PcapError {
        PcapError::InvalidField(rule.text())
    }
}
