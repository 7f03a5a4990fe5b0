//! Output files that get their final name when they are complete.

ghost use Rattle.std.specs.Prelude.{None};

use crate::console::Console;
use crate::destination::Destination;
use crate::identity::Identity;
use crate::input::STANDARD;
use crate::part;
use crate::part::{Refusal, part_path};
use crate::shown::Shown;
use crate::tell::{FAILED, tell_io};
use pcap_program::Uninterrupted;
use std::fs::{File, Metadata, OpenOptions};
use std::io::{Stdout, Write};
use std::{fs, io};

/// The size of the output buffer, in bytes.
pub const OUTPUT: usize = 65_536;

/// The output of a word of the program: a file, or standard output.
#[derive(Drop)]
pub enum Output {
    Standard(Stdout),
    File(File),
}

impl Write for Output {
    ghost contents = { λ output. None };

    fn write(&mut self, buf: &[u8]) -> io::Result<usize> {
        match self {
            Output::Standard(stdout) => stdout.write(buf),
            Output::File(file) => file.write(buf),
        }
    }

    fn flush(&mut self) -> io::Result<()> {
        match self {
            Output::Standard(stdout) => stdout.flush(),
            Output::File(file) => file.flush(),
        }
    }
}

// A file that gets its final name when it is complete.
#[derive(Drop)]
struct Unfinished<'a> {
    // The name that messages use for it.
    name: &'a str,
    // Its final path.
    path: &'a str,
    // Its path while it is written.
    part: String,
    // The metadata of the file that it replaces, if there is one.
    replaced: &'a Option<Metadata>,
}

impl Unfinished<'_> {
    // Creates the file.
    fn create(&self, console: &Console) -> Result<File, Refusal> {
        part::create(console, self.part.as_str(), self.replaced.is_some())
    }

    // Prints why the file can't be created, and returns the exit status.
    fn tell_refusal(&self, console: &Console, refusal: &Refusal) -> io::Result<u8> {
        let part = Shown(self.part.as_str());
        match refusal {
            Refusal::Io(error) => return tell_io(console, self.part.as_str(), error),
            Refusal::Held => {
                eprintln!(console.for_line(); "pcapfile: {part}: another run is writing it")?;
            }
            Refusal::InTheWay => {
                let name = Shown(self.name);
                eprintln!(console.for_line();
                    "pcapfile: {part}: already exists; move it away, because {name} is first written under this name"
                )?;
            }
        }
        Ok(FAILED)
    }

    // Gives the file its final name if the status is 0, and deletes it otherwise. Returns the exit status.
    fn finish(&self, console: &Console, file: &File, told: io::Result<u8>) -> io::Result<u8> {
        let told = match told {
            Ok(0) => match self.replace(console, file) {
                Ok(()) => return Ok(0),
                Err(error) => tell_io(console, self.name, &error),
            },
            failed => failed,
        };
        // The failure has already been reported.
        let _ = fs::remove_file(console.rt(), self.part.as_str());
        told
    }

    fn replace(&self, console: &Console, file: &File) -> io::Result<()> {
        if let Some(replaced) = self.replaced {
            part::keep_access(file, replaced)?;
        }
        fs::rename(console.rt(), self.part.as_str(), self.path)
    }
}

// Returns whether the file at this path is one of the captures with these names.
fn is_read(console: &Console, path: &str, read: &[&str]) -> bool {
    match Identity::at(console, path) {
        Some(file) => file.is_among(console, read),
        None => false,
    }
}

// Prints that an output is one of the captures being read, and returns the exit status.
fn tell_read(console: &Console, name: &str) -> io::Result<u8> {
    let name = Shown(name);
    eprintln!(console.for_line();
        "pcapfile: {name}: is one of the inputs; choose another name for the output"
    )?;
    Ok(FAILED)
}

/// Writes the output with this name by calling `write`, and returns the exit status. Refuses to replace a capture that is being
/// read. Follows links. A regular file is written under another name in the same folder, and renamed when it is complete. It then
/// has the owner, group and permissions of the file that it replaces, as far as the system allows.
pub fn write_named<F: FnOnce(Uninterrupted<Output>) -> io::Result<u8>>(
    console: &Console,
    name: &str,
    read: &[&str],
    write: F,
) -> io::Result<u8>
    requires { F.IsAlwaysCallable write }
{
    let destination = if name == STANDARD {
        Ok(Destination::Standard)
    } else {
        Destination::of(console, name)
    };
    match destination {
        Err(error) => tell_io(console, name, &error),
        Ok(Destination::Standard) => {
            if let Some(output) = Identity::of_standard_output(console) {
                if output.is_among(console, read) {
                    return tell_read(console, name);
                }
            }
            write(Uninterrupted::new(Output::Standard(console.rt().stdout())))
        }
        Ok(Destination::Special) => match OpenOptions::new().write(true).open(console.rt(), name) {
            Ok(file) => write(Uninterrupted::new(Output::File(file))),
            Err(error) => tell_io(console, name, &error),
        },
        Ok(Destination::Regular(path, replaced)) => {
            let unfinished = Unfinished {
                name,
                path: path.as_str(),
                part: part_path(console.alloc(), path.as_str())?,
                replaced: &replaced,
            };
            write_unfinished(console, &unfinished, read, write)
        }
    }
}

fn write_unfinished<F: FnOnce(Uninterrupted<Output>) -> io::Result<u8>>(
    console: &Console,
    unfinished: &Unfinished<'_>,
    read: &[&str],
    write: F,
) -> io::Result<u8>
    requires { F.IsAlwaysCallable write }
{
    if is_read(console, unfinished.path, read) {
        return tell_read(console, unfinished.name);
    }
    if is_read(console, unfinished.part.as_str(), read) {
        return tell_read(console, unfinished.part.as_str());
    }
    if unfinished.replaced.is_some() {
        // A file without write permission is not replaced.
        let mut options = OpenOptions::new();
        if let Err(error) = options.write(true).open(console.rt(), unfinished.path) {
            return tell_io(console, unfinished.name, &error);
        }
    }
    let file = match unfinished.create(console) {
        Ok(file) => file,
        Err(refusal) => return unfinished.tell_refusal(console, &refusal),
    };
    match file.try_clone() {
        Ok(held) => {
            let told = write(Uninterrupted::new(Output::File(file)));
            unfinished.finish(console, &held, told)
        }
        Err(error) => {
            let told = tell_io(console, unfinished.name, &error);
            unfinished.finish(console, &file, told)
        }
    }
}
