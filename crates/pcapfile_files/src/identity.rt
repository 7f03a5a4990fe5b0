//! The identity of the file at a path.

use crate::console::Console;
use crate::input::STANDARD;
use std::fs;
use std::fs::Metadata;
use std::os::unix::fs::MetadataExt;

/// The path of the file that is standard input.
const STANDARD_INPUT: &str = "/proc/self/fd/0";

/// The path of the file that is standard output.
const STANDARD_OUTPUT: &str = "/proc/self/fd/1";

/// The identity of a regular file, whatever its name.
#[derive(Clone, Copy, PartialEq, Eq)]
pub(crate) struct Identity {
    device: u64,
    number: u64,
}

impl Identity {
    /// Returns the identity in this metadata, if it is of a regular file.
    pub(crate) fn of(found: &Metadata) -> Option<Identity> {
        if !found.is_file() {
            return None;
        }
        Some(Identity {
            device: found.dev(),
            number: found.ino(),
        })
    }

    /// Returns the identity of the regular file at this path. Links are followed.
    pub(crate) fn at(console: &Console, path: &str) -> Option<Identity> {
        match fs::metadata(console.rt(), path) {
            Ok(found) => Identity::of(&found),
            Err(_) => None,
        }
    }

    /// Returns the identity of standard output, if it is a regular file.
    pub(crate) fn of_standard_output(console: &Console) -> Option<Identity> {
        Identity::at(console, STANDARD_OUTPUT)
    }

    /// Returns whether the file is one of the captures with these names.
    pub(crate) fn is_among(self, console: &Console, names: &[&str]) -> bool {
        for name in names {
            let path = if *name == STANDARD {
                STANDARD_INPUT
            } else {
                *name
            };
            if Identity::at(console, path) == Some(self) {
                return true;
            }
        }
        false
    }
}
