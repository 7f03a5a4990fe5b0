//! The latest time in a capture, which a selection may need before it reads the capture.

use pcap_file::PcapError;
use pcap_file::pcapng::Timestamp;
use pcap_program::Exit;
use pcapfile_files::{
    Console, STANDARD, USAGE, Watched, buffered, open_watched, tell_error, tell_exit, tell_io,
};
use pcapfile_info::{Information, inform_blocks, inform_packets};
use pcapfile_run::{End, Format, format_of};
use std::io;
use std::io::ErrorKind;

/// Returns the latest time of a packet in the capture with this name, up to its first malformed item. `None` if no packet has a time.
/// Reports why the capture can't be read twice, or how a read failed, and returns the exit status.
pub(crate) fn latest_time(
    console: &Console,
    from: &str,
    is_repaired: bool,
) -> io::Result<Result<Option<Timestamp>, u8>> {
    if from == STANDARD || is_repaired {
        return Ok(Err(tell_no_file(console)?));
    }
    let stream = match open_watched(console, from) {
        Ok(stream) => stream,
        Err(error) => return Ok(Err(tell_io(console, from, &error)?)),
    };
    if stream.length().is_none() {
        return Ok(Err(tell_no_file(console)?));
    }
    match inform(console, stream) {
        Ok(information) => latest_in(console, from, &information),
        Err(error) => Ok(Err(tell_io(console, from, &error)?)),
    }
}

fn inform(console: &Console, stream: Watched) -> io::Result<Information> {
    let mut input = buffered(console.alloc(), stream)?;
    match format_of(&mut input)? {
        Format::Pcap => Ok(inform_packets(console.alloc(), input)?),
        Format::PcapNg => Ok(inform_blocks(console.alloc(), input)?),
    }
}

// Returns the latest time. If the capture was read neither to its end nor to a malformed item, reports why, and returns the exit status.
fn latest_in(
    console: &Console,
    from: &str,
    information: &Information,
) -> io::Result<Result<Option<Timestamp>, u8>> {
    match &information.checked.end {
        End::Memory => Ok(Err(tell_exit(console, from, &Exit::Memory)?)),
        End::Unread(error) if !is_cut_short(error) => Ok(Err(tell_error(console, from, error)?)),
        _ => Ok(Ok(information.totals.all.latest)),
    }
}

// Returns whether the capture is truncated in its first block. The selection reports that.
fn is_cut_short(error: &PcapError) -> bool {
    match error {
        PcapError::IoError(error) => error.kind() == ErrorKind::UnexpectedEof,
        _ => false,
    }
}

// Reports that a time before the latest packet needs a file that is read unchanged, and returns the exit status.
fn tell_no_file(console: &Console) -> io::Result<u8> {
    eprintln!(console.for_line();
        "error: a time before the latest packet needs a file and no --repair, because the program reads the capture twice"
    )?;
    Ok(USAGE)
}
