//! The ways in which a run of a program ends.

ghost use Rattle.std.specs.Prelude.{◌≡◌};
ghost use Rattle.pcap_program.specs.declared.exit.Exit.TheVariants as exits;
ghost use Rattle.pcap_core.specs.declared.errors.PcapError.TheVariants as errors;
ghost use Rattle.pcap_program.specs.Exits.{status_of, EndsAt};

use pcap_core::PcapError;
use std::alloc::{AllocError, AllocFailed};
use std::io;
use std::io::ErrorKind;

/// The way in which a run of a program ends.
#[derive(Debug, Drop)]
pub enum Exit {
    /// The run is complete.
    Done,
    /// The input breaks a rule of its format.
    Refused(PcapError),
    /// The run wrote the greatest number of lines or packets that it may write.
    Most,
    /// The words name no action of the program.
    Usage,
    /// A read or write failed, or the input ended early, or the body of a section or interface is too short for a value.
    Io(PcapError),
    /// The program is out of memory.
    Memory,
}

impl Exit {
    /// Returns the exit status of the process.
    pub fn status(&self) -> u8
        ensures { result ≡ status_of self.now }
    {
        match self {
            Exit::Done => 0,
            Exit::Refused(_) | Exit::Most => 1,
            Exit::Usage => 2,
            Exit::Io(_) => 3,
            Exit::Memory => 4,
        }
    }
}

/// Converts an error of the library. A truncated capture becomes `Io` with an error of kind `UnexpectedEof`.
impl From<PcapError> for Exit {
    ghost from_gives = { EndsAt };

    fn from(error: PcapError) -> Exit {
        match error {
            PcapError::IncompleteBuffer(_) => Exit::Io(PcapError::IoError(io::Error::new(
                ErrorKind::UnexpectedEof,
                "the capture ended early",
            ))),
            PcapError::IoError(error) => Exit::Io(PcapError::IoError(error)),
            PcapError::OutOfMemory(_) => Exit::Memory,
            error => Exit::Refused(error),
        }
    }
}

impl From<io::Error> for Exit {
    ghost from_gives = { λ error exit. exit ≡ exits.Io (errors.IoError error) };

    fn from(error: io::Error) -> Exit {
        Exit::Io(PcapError::IoError(error))
    }
}

impl From<AllocError> for Exit {
    ghost from_gives = { λ _ exit. exit ≡ exits.Memory };

    fn from(_error: AllocError) -> Exit {
        Exit::Memory
    }
}

impl<T: Drop> From<AllocFailed<T>> for Exit {
    ghost from_gives = { λ _ exit. exit ≡ exits.Memory };

    fn from(_error: AllocFailed<T>) -> Exit {
        Exit::Memory
    }
}
