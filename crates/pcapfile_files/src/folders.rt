//! The files that a command reads: those with the given names, and with `--recursive` also those in folders.

use crate::console::Console;
use crate::foreign::is_capture;
use crate::input::STANDARD;
use crate::shown::Shown;
use crate::tell::{FAILED, tell_io};
use pcap_program::Uninterrupted;
use std::alloc::{AllocError, Global};
use std::fs::File;
use std::io::{ErrorKind, Read};
use std::{fs, io};

/// The extensions of the names of classic captures.
pub const PCAP_EXTENSIONS: [&str; 3] = ["pcap", "cap", "dmp"];

/// The extensions of the names of PcapNg captures.
pub const PCAPNG_EXTENSIONS: [&str; 2] = ["pcapng", "ntar"];

/// The number of first bytes by which the program recognizes a capture in a folder.
const FRONT: usize = 512;

/// The names that the user gives to a command.
#[derive(Clone, Copy)]
pub struct Inputs<'a> {
    /// The names of files, and of folders.
    pub names: &'a [&'a str],
    /// Whether the command reads the files in these folders.
    pub is_recursive: bool,
}

/// A command that reads one file after another.
pub trait EachFile {
    /// Reads the file with this name, reports on it, and returns the exit status.
    fn read_file(&mut self, console: &Console, name: &str) -> io::Result<u8>;
}

/// Lets the command read each file with one of these names, and with `--recursive` the captures in each folder with one of them. Returns
/// the worst exit status.
///
/// The files of a folder come in the order of the bytes of their names, and the files of a folder below it where its name comes. Links to
/// files are followed there, and links to folders are not. A file there that does not begin like a capture is skipped, unless its name is
/// that of a capture. A file or folder that can't be read is reported, and the command goes on.
pub fn read_files<T: EachFile>(
    console: &Console,
    inputs: Inputs<'_>,
    command: &mut T,
) -> io::Result<u8> {
    let mut reading = Reading {
        console,
        command,
        status: 0,
        read: 0,
        skipped: 0,
    };
    for name in inputs.names {
        if !is_folder(console, name) {
            reading.read(name)?;
        } else if inputs.is_recursive {
            reading.walk(name)?;
        } else {
            reading.refuse_folder(name)?;
        }
    }
    reading.tell_skipped()?;
    Ok(reading.status)
}

// Returns whether a name is that of a folder, or of a link to one.
fn is_folder(console: &Console, name: &str) -> bool {
    if name == STANDARD {
        return false;
    }
    match fs::metadata(console.rt(), name) {
        Ok(found) => found.is_dir(),
        Err(_) => false,
    }
}

/// A folder that is being read.
#[derive(Drop)]
struct Folder {
    path: String,
    /// The names in it that have not come yet, in descending order.
    names: Vec<String>,
}

/// What there is at a path in a folder.
enum Found {
    Folder,
    /// A regular file, or a link to one.
    File,
    /// A link to a folder, a pipe, a device or a socket.
    Other,
}

/// A command that is reading its files.
#[derive(Drop)]
struct Reading<'a, 'b, T> {
    console: &'a Console,
    command: &'b mut T,
    /// The worst exit status so far.
    status: u8,
    /// The number of files that it has read.
    read: u64,
    /// The number of files in folders that are not captures.
    skipped: u64,
}

impl<T: EachFile> Reading<'_, '_, T> {
    // Reads the file with this name.
    fn read(&mut self, name: &str) -> io::Result<()> {
        let status = self.command.read_file(self.console, name)?;
        self.note(status);
        self.read = self.read.saturating_add(1);
        Ok(())
    }

    fn note(&mut self, status: u8) {
        self.status = status.max(self.status);
    }

    // Reports a folder that is named without `--recursive`.
    fn refuse_folder(&mut self, name: &str) -> io::Result<()> {
        let shown = Shown(name);
        eprintln!(self.console.for_line();
            "pcapfile: {shown}: is a folder; --recursive reads the captures in it"
        )?;
        self.note(FAILED);
        Ok(())
    }

    // Reports a file or folder that can't be read.
    fn tell(&mut self, path: &str, error: &io::Error) -> io::Result<()> {
        let status = tell_io(self.console, path, error)?;
        self.note(status);
        Ok(())
    }

    // Reports the number of files that are not captures, if there are any.
    fn tell_skipped(&self) -> io::Result<()> {
        match self.skipped {
            0 => Ok(()),
            1 => eprintln!(self.console.for_line();
                "pcapfile: skipped 1 file that is not a capture"
            ),
            skipped => eprintln!(self.console.for_line();
                "pcapfile: skipped {skipped} files that are not captures"
            ),
        }
    }

    // Reads the captures in the folder with this name, and in the folders below it.
    fn walk(&mut self, name: &str) -> io::Result<()> {
        let alloc = self.console.alloc();
        let before = self.read;
        let mut folders = Vec::new(alloc);
        folders.push(self.open(String::from_str(alloc, name)?)?)?;
        for _ in 0..u64::MAX {
            let Some(path) = next_path(alloc, &mut folders)? else {
                break;
            };
            if let Some(folder) = self.visit(path)? {
                folders.push(folder)?;
            }
        }
        if self.read == before {
            let shown = Shown(name);
            eprintln!(self.console.for_line(); "pcapfile: {shown}: no captures found")?;
        }
        Ok(())
    }

    // Reads the file at a path in a folder, or skips it. Returns the folder if there is one at this path.
    fn visit(&mut self, path: String) -> io::Result<Option<Folder>> {
        match found_at(self.console, path.as_str()) {
            Err(error) => self.tell(path.as_str(), &error)?,
            Ok(Found::Folder) => return Ok(Some(self.open(path)?)),
            Ok(Found::File) if is_skipped(self.console, path.as_str()) => {
                self.skipped = self.skipped.saturating_add(1);
            }
            Ok(Found::File) => self.read(path.as_str())?,
            Ok(Found::Other) => {}
        }
        Ok(None)
    }

    // Returns the folder at this path with the names in it. Reports what can't be read.
    fn open(&mut self, path: String) -> io::Result<Folder> {
        let mut names = Vec::new(self.console.alloc());
        match fs::read_dir(self.console.rt(), path.as_str()) {
            Err(error) => self.tell(path.as_str(), &error)?,
            Ok(entries) => {
                for entry in entries {
                    match entry {
                        Ok(entry) => {
                            names.push(String::from_str(self.console.alloc(), entry.file_name())?)?;
                        }
                        Err(error) => self.tell_entry(path.as_str(), &error)?,
                    }
                }
            }
        }
        names.sort_unstable_by(|one: &String, other: &String| other.cmp(one));
        Ok(Folder { path, names })
    }

    // Reports an entry of a folder that can't be read.
    fn tell_entry(&mut self, path: &str, error: &io::Error) -> io::Result<()> {
        if error.kind() != ErrorKind::InvalidFilename {
            return self.tell(path, error);
        }
        let shown = Shown(path);
        eprintln!(self.console.for_line();
            "pcapfile: {shown}: a name in this folder is not UTF-8, and can't be opened"
        )?;
        self.note(FAILED);
        Ok(())
    }
}

// Takes the next name of the last folder that has one, and returns its path. Folders without further names are dropped.
fn next_path(alloc: Global, folders: &mut Vec<Folder>) -> Result<Option<String>, AllocError> {
    for _ in 0..u64::MAX {
        let Some(mut folder) = folders.pop() else {
            break;
        };
        if let Some(name) = folder.names.pop() {
            let path = path_in(alloc, folder.path.as_str(), name.as_str())?;
            folders.push(folder)?;
            return Ok(Some(path));
        }
    }
    Ok(None)
}

// Returns the path of a name in a folder.
fn path_in(alloc: Global, folder: &str, name: &str) -> Result<String, AllocError> {
    if folder.ends_with('/') {
        return format!(in alloc; "{folder}{name}");
    }
    format!(in alloc; "{folder}/{name}")
}

fn found_at(console: &Console, path: &str) -> io::Result<Found> {
    let mut found = fs::symlink_metadata(console.rt(), path)?;
    if found.is_dir() {
        return Ok(Found::Folder);
    }
    if found.is_symlink() {
        found = fs::metadata(console.rt(), path)?;
    }
    Ok(if found.is_file() {
        Found::File
    } else {
        Found::Other
    })
}

// Returns whether a file in a folder is skipped: neither its first bytes nor its name are those of a capture. A file that can't be read is
// not skipped, so that the command reports it.
fn is_skipped(console: &Console, path: &str) -> bool {
    let mut front = [0u8; FRONT];
    match read_front(console, path, &mut front) {
        Ok(len) => {
            let front = front.get(..len).unwrap_or_default();
            !is_capture(front) && !has_capture_name(path)
        }
        Err(_) => false,
    }
}

// Reads the first bytes of a file, and returns their number.
fn read_front(console: &Console, path: &str, front: &mut [u8]) -> io::Result<usize> {
    let mut file = Uninterrupted::new(File::open(console.rt(), path)?);
    file.read(front)
}

// Returns whether a file's name is that of a capture: it has an extension of captures, and perhaps a number and further extensions behind
// it, as in `a.pcap.gz` or `a.pcap12`.
fn has_capture_name(path: &str) -> bool {
    let name = match path.rsplit_once('/') {
        Some((_, name)) => name,
        None => path,
    };
    let Some((_, extensions)) = name.split_once('.') else {
        return false;
    };
    for extension in extensions.split('.') {
        let word = extension.trim_end_matches(|c: char| c.is_ascii_digit());
        if is_of(&PCAP_EXTENSIONS, word) || is_of(&PCAPNG_EXTENSIONS, word) {
            return true;
        }
    }
    false
}

// Returns whether a word is one of these extensions, in upper or lower case.
fn is_of(extensions: &[&str], word: &str) -> bool {
    extensions
        .iter()
        .any(|extension| extension.eq_ignore_ascii_case(word))
}
