//! File names made of one name and a number.

use crate::console::Console;
use crate::input::STANDARD;
use std::os::unix::fs::MetadataExt;
use std::{fs, io};

/// The folder of device files.
const DEVICES: &str = "/dev";

/// Returns the reason why no numbered files can be made from this name, or `None` if they can.
pub fn unnumbered(console: &Console, name: &str) -> Option<&'static str> {
    if name == STANDARD {
        return Some("several parts cannot go to standard output");
    }
    let (folder, file) = match name.rsplit_once('/') {
        Some(("", file)) => ("/", file),
        Some((folder, file)) => (folder, file),
        None => (".", name),
    };
    if file.is_empty() {
        return Some("parts need the name of a file, and this is a folder");
    }
    match fs::metadata(console.rt(), name) {
        Ok(found) if !found.is_file() => {
            return Some("parts need the name of a file, and this is a device, a pipe or a folder");
        }
        _ => {}
    }
    if let Ok(true) = is_of_devices(console, folder) {
        return Some("parts cannot go to a folder of devices");
    }
    None
}

// Returns whether a folder is `/dev`, or is inside it on the same file system.
fn is_of_devices(console: &Console, folder: &str) -> io::Result<bool> {
    let path = fs::canonicalize(console.rt(), folder)?;
    let is_there = match path.as_str().strip_prefix(DEVICES) {
        Some(rest) => rest.is_empty() || rest.starts_with('/'),
        None => false,
    };
    if !is_there {
        return Ok(false);
    }
    let devices = fs::metadata(console.rt(), DEVICES)?;
    let found = fs::metadata(console.rt(), folder)?;
    Ok(found.dev() == devices.dev())
}
