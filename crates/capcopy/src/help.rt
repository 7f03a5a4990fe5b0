//! The words that ask for the usage or the version of the program.

use capcopy_run::Message;
use pcap_program::Exit;
use std::env::{Env, FillError};
use std::{io, str};

/// The version of the program.
const VERSION: &str = "0.2.0";

/// The length of the longest of these words, in bytes.
const LONGEST: usize = 9;

/// A text about the program.
#[derive(Clone, Copy)]
pub(crate) enum About {
    /// The words that the program knows.
    Usage,
    /// The name and version of the program.
    Version,
}

impl About {
    /// Returns the text that the only argument asks for. `None` if it asks for no text about the program.
    pub(crate) fn asked_for(rt: &HostRuntime) -> Option<About> {
        let mut room = [0; LONGEST];
        let len = rt.arg(1, &mut room).ok()?;
        if !matches!(rt.arg(2, &mut []), Err(FillError::NotPresent)) {
            return None;
        }
        match str::from_utf8(room.get(..len)?).ok()? {
            "--help" | "-h" => Some(About::Usage),
            "--version" | "-V" => Some(About::Version),
            _ => None,
        }
    }

    /// Prints the text on standard output.
    pub(crate) fn print(self, rt: &HostRuntime) -> io::Result<()> {
        match self {
            About::Usage => {
                let usage = Message(&Exit::Usage);
                println!(rt; "{usage}")
            }
            About::Version => println!(rt; "capcopy {VERSION}"),
        }
    }
}
