//! The word `check`.

use pcap_file::PcapError;
use pcapfile_files::{
    AT_FAULT, Console, EachFile, Inputs, Shown, buffered, open_watched, read_files, tell_foreign,
    tell_io,
};
use pcapfile_run::{Checked, End, Format, check_blocks, check_bodies, check_packets, format_of};
use std::io;
use std::io::ErrorKind;

/// The arguments of `check`.
#[derive(Clone, Copy)]
pub struct Checking<'a> {
    /// The names of the captures.
    pub inputs: Inputs<'a>,
    /// Whether the body of each PcapNg block is checked too.
    pub bodies: bool,
}

/// A check of one capture after another.
#[derive(Drop)]
struct Checker {
    bodies: bool,
}

impl EachFile for Checker {
    fn read_file(&mut self, console: &Console, name: &str) -> io::Result<u8> {
        check_file(console, name, self.bodies)
    }
}

/// Writes a line on each capture, and returns the worst exit status.
pub fn check_files(console: &Console, asked: Checking<'_>) -> io::Result<u8> {
    let mut checker = Checker {
        bodies: asked.bodies,
    };
    read_files(console, asked.inputs, &mut checker)
}

// Writes the line on a capture. If the file is no capture or can't be read, or memory runs out, a line goes to standard error.
fn check_file(console: &Console, name: &str, bodies: bool) -> io::Result<u8> {
    let checked = match read_and_check(console, name, bodies) {
        Ok(checked) => checked,
        Err(error) => return tell_io(console, name, &error),
    };
    // The progress line is cleared before any other line is written.
    console.clear();
    let shown = Shown(name);
    if checked.status() == AT_FAULT && tell_foreign(console, name)? {
        return Ok(AT_FAULT);
    }
    match checked.end {
        End::Unread(_) | End::Memory => tell_unread(console, name, &checked)?,
        _ => println!(console.rt(); "{shown}: {checked}")?,
    }
    Ok(checked.status())
}

/// Reports on standard error how far a capture could be read.
pub(crate) fn tell_unread(console: &Console, name: &str, checked: &Checked) -> io::Result<()> {
    let shown = Shown(name);
    match &checked.end {
        End::Unread(PcapError::IoError(error)) if error.kind() == ErrorKind::UnexpectedEof => {
            eprintln!(console.for_line();
                "pcapfile: {shown}: {checked}: the first block, or an option there, is cut short"
            )
        }
        _ => eprintln!(console.for_line(); "pcapfile: {shown}: {checked}"),
    }
}

fn read_and_check(console: &Console, name: &str, bodies: bool) -> io::Result<Checked> {
    let mut input = buffered(console.alloc(), open_watched(console, name)?)?;
    match format_of(&mut input)? {
        Format::Pcap => Ok(check_packets(console.alloc(), input)),
        Format::PcapNg if bodies => Ok(check_bodies(console.alloc(), input)),
        Format::PcapNg => Ok(check_blocks(console.alloc(), input)),
    }
}
