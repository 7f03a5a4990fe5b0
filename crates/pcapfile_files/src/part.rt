//! The temporary files that hold outputs until they are complete.

use crate::console::Console;
use crate::shown::Shown;
use std::alloc::{AllocError, Global};
use std::fs::{File, Metadata, OpenOptions, Permissions, TryLockError};
use std::io::ErrorKind;
use std::os::unix::fs::{MetadataExt, OpenOptionsExt, PermissionsExt, fchown};
use std::{fs, io};

/// The suffix of the name of a temporary file.
const SUFFIX: &str = ".part";

/// The greatest length of a file name, in bytes.
const LONGEST: usize = 255;

/// The permissions of a new file, before the user's mask is applied.
const NEW: u32 = 0o666;

/// The permissions of a file that will replace another one, while it is written.
const PRIVATE: u32 = 0o600;

/// The reason why an output can't be written.
#[derive(Drop)]
pub(crate) enum Refusal {
    /// Another run is writing it.
    Held,
    /// A file with the temporary name exists, and must not be replaced.
    InTheWay,
    Io(io::Error),
}

impl From<io::Error> for Refusal {
    fn from(error: io::Error) -> Refusal {
        Refusal::Io(error)
    }
}

/// Returns the path of the temporary file for this path. It is in the same folder, and its name is shortened if it would be too long.
pub(crate) fn part_path(alloc: Global, path: &str) -> Result<String, AllocError> {
    let (folder, name) = match path.rsplit_once('/') {
        Some((folder, name)) => (Some(folder), name),
        None => (None, path),
    };
    let kept = beginning(name, LONGEST - SUFFIX.len());
    match folder {
        Some(folder) => format!(in alloc; "{folder}/{kept}{SUFFIX}"),
        None => format!(in alloc; "{kept}{SUFFIX}"),
    }
}

// Returns the longest beginning of a name, in whole characters, that has at most this many bytes.
fn beginning(name: &str, most: usize) -> &str {
    for less in 0..4 {
        if let Some(kept) = name.get(..most.saturating_sub(less).min(name.len())) {
            return kept;
        }
    }
    ""
}

/// Creates the file at this path, and locks it against other runs until it is closed. Deletes a file that no run is writing, and prints
/// that.
pub(crate) fn create(console: &Console, path: &str, is_private: bool) -> Result<File, Refusal> {
    let rt = console.rt();
    match create_locked(rt, path, is_private) {
        Err(Refusal::Io(error)) if error.kind() == ErrorKind::AlreadyExists => {}
        made => return made,
    }
    if remove_left(rt, path)? {
        let part = Shown(path);
        eprintln!(console.for_line(); "pcapfile: {part}: deleted, since no run is writing it")?;
    }
    match create_locked(rt, path, is_private) {
        Err(Refusal::Io(error)) if error.kind() == ErrorKind::AlreadyExists => Err(Refusal::Held),
        made => made,
    }
}

fn create_locked(rt: &HostRuntime, path: &str, is_private: bool) -> Result<File, Refusal> {
    let mut options = OpenOptions::new();
    options
        .write(true)
        .create_new(true)
        .mode(if is_private { PRIVATE } else { NEW });
    let file = options.open(rt, path)?;
    // On a file system without locks, leftover files are never deleted.
    if let Err(TryLockError::WouldBlock) = file.try_lock() {
        return Err(Refusal::Held);
    }
    if !is_at(rt, path, &file)? {
        return Err(Refusal::Held);
    }
    Ok(file)
}

// Deletes a leftover file that no run has locked, and returns whether there was one. A run locks what it writes, and deletes only what
// it has locked.
fn remove_left(rt: &HostRuntime, path: &str) -> Result<bool, Refusal> {
    let found = match fs::symlink_metadata(rt, path) {
        Ok(found) => found,
        Err(error) if error.kind() == ErrorKind::NotFound => return Ok(false),
        Err(error) => return Err(Refusal::Io(error)),
    };
    if !found.is_file() {
        return Err(Refusal::InTheWay);
    }
    let Ok(file) = File::open(rt, path) else {
        return Err(Refusal::InTheWay);
    };
    match file.try_lock() {
        Ok(()) => {}
        Err(TryLockError::WouldBlock) => return Err(Refusal::Held),
        Err(TryLockError::Error(_)) => return Err(Refusal::InTheWay),
    }
    if !is_at(rt, path, &file)? {
        return Err(Refusal::Held);
    }
    match fs::remove_file(rt, path) {
        Ok(()) => Ok(true),
        Err(_) => Err(Refusal::InTheWay),
    }
}

// Returns whether the open file is the one at this path.
fn is_at(rt: &HostRuntime, path: &str, file: &File) -> io::Result<bool> {
    let open = file.metadata()?;
    match fs::symlink_metadata(rt, path) {
        Ok(found) => Ok(found.dev() == open.dev() && found.ino() == open.ino()),
        Err(error) if error.kind() == ErrorKind::NotFound => Ok(false),
        Err(error) => Err(error),
    }
}

/// Gives a file the owner, group and permissions of the file that it replaces. If the owner or group can't be set, the permissions
/// are reduced so that nobody gets more access than before.
pub(crate) fn keep_access(file: &File, replaced: &Metadata) -> io::Result<()> {
    let has_group = fchown(file, None, Some(replaced.gid())).is_ok();
    let has_owner = fchown(file, Some(replaced.uid()), None).is_ok();
    let mode = kept_mode(replaced.mode(), has_owner, has_group);
    file.set_permissions(Permissions::from_mode(mode))
}

// Returns the permissions of a file that replaces one with this mode. If the owner or group was not set, a user who had the access of
// the owner or group may now have that of the others, or the reverse.
fn kept_mode(mode: u32, has_owner: bool, has_group: bool) -> u32 {
    if has_owner && has_group {
        return mode & 0o7777;
    }
    let (owner, group, others) = (mode & 0o700, mode & 0o070, mode & 0o007);
    let most = if has_owner { 0o007 } else { owner >> 6 };
    let others = if has_group {
        others & most
    } else {
        others & (group >> 3) & most
    };
    let group = if has_group {
        group & (most << 3)
    } else {
        others << 3
    };
    owner | group | others
}
