//! Standard streams that were closed when the program started.

use std::fs::{File, OpenOptions};
use std::io;
use std::os::fd::{AsFd, IntoRawFd};

/// The null device.
const NOTHING: &str = "/dev/null";

/// The system's error number for a closed descriptor.
const CLOSED: i32 = 9;

/// Occupies the descriptors of closed standard streams, so that no file opened later gets one of them. Reading or writing such a stream
/// still fails.
pub fn keep_standard_streams(rt: &HostRuntime) -> io::Result<()> {
    // The system assigns the lowest free descriptor, so the streams are checked in order.
    if is_closed(&rt.stdin()) {
        keep_open(OpenOptions::new().write(true).open(rt, NOTHING)?);
    }
    if is_closed(&rt.stdout()) {
        keep_open(File::open(rt, NOTHING)?);
    }
    if is_closed(&rt.stderr()) {
        keep_open(File::open(rt, NOTHING)?);
    }
    Ok(())
}

fn is_closed<S: AsFd>(stream: &S) -> bool {
    match stream.as_fd().try_clone_to_owned() {
        Ok(_) => false,
        Err(error) => error.raw_os_error() == Some(CLOSED),
    }
}

// Keeps a file open until the program ends.
fn keep_open(file: File) {
    let _ = file.into_raw_fd();
}
