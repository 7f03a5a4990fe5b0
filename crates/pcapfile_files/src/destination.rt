//! The destination of the name of an output.

use crate::console::Console;
use crate::identity::Identity;
use std::alloc::{AllocError, Global};
use std::fs::Metadata;
use std::io::ErrorKind;
use std::{fs, io};

/// The most links that the program follows for one name.
const LINKS: usize = 40;

/// The system's error number for too many links.
const TOO_MANY_LINKS: i32 = 40;

/// The destination of the name of an output.
#[derive(Drop)]
pub(crate) enum Destination {
    /// A regular file, or no file yet: its path with links resolved, and its metadata if it exists.
    Regular(String, Option<Metadata>),
    /// A special file, such as a device or a pipe.
    Special,
    /// The file that standard output is redirected to.
    Standard,
}

impl Destination {
    /// Returns the destination of an output with this name.
    pub(crate) fn of(console: &Console, name: &str) -> io::Result<Destination> {
        let found = match fs::metadata(console.rt(), name) {
            Ok(found) => Some(found),
            Err(error) if error.kind() == ErrorKind::NotFound => None,
            Err(error) => return Err(error),
        };
        if let Some(found) = &found {
            let Some(identity) = Identity::of(found) else {
                return Ok(Destination::Special);
            };
            if Identity::of_standard_output(console) == Some(identity) {
                return Ok(Destination::Standard);
            }
        }
        Ok(Destination::Regular(behind_links(console, name)?, found))
    }
}

// Returns the path with links resolved, whether or not a file exists there.
fn behind_links(console: &Console, name: &str) -> io::Result<String> {
    let mut path = String::from_str(console.alloc(), name)?;
    for _ in 0..LINKS {
        let is_link = match fs::symlink_metadata(console.rt(), path.as_str()) {
            Ok(found) => found.is_symlink(),
            Err(error) if error.kind() == ErrorKind::NotFound => false,
            Err(error) => return Err(error),
        };
        if !is_link {
            return Ok(path);
        }
        let led = fs::read_link(console.rt(), path.as_str())?;
        path = beside(console.alloc(), path.as_str(), led.as_str())?;
    }
    Err(io::Error::from_raw_os_error(TOO_MANY_LINKS))
}

// Returns the path that a link at `path` points to.
fn beside(alloc: Global, path: &str, led: &str) -> Result<String, AllocError> {
    match path.rsplit_once('/') {
        Some((folder, _)) if !led.starts_with('/') => format!(in alloc; "{folder}/{led}"),
        _ => String::from_str(alloc, led),
    }
}
