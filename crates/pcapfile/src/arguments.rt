//! The arguments of the program.

use pcapfile_files::NOT_UTF8;
use std::alloc::{AllocError, Global};
use std::env::{Env, FillError};
use std::str;

/// The length of the first buffer for an argument, in bytes. For a longer argument the program doubles it.
const ROOM: usize = 256;

/// Returns all arguments, beginning with the name of the program. Each byte that isn't UTF-8 is written as `\x` and two
/// hexadecimal digits, and such an argument ends with a mark.
pub(crate) fn read_arguments(rt: &HostRuntime) -> Result<Vec<String>, AllocError> {
    let mut all = Vec::new(rt.alloc());
    for index in 0..usize::MAX {
        let Some(bytes) = argument(rt, index)? else {
            break;
        };
        all.push(text_of(rt.alloc(), bytes.as_slice())?)?;
    }
    Ok(all)
}

// Returns the bytes of an argument, if there is one.
fn argument(rt: &HostRuntime, index: usize) -> Result<Option<Vec<u8>>, AllocError> {
    let mut bytes = Vec::new(rt.alloc());
    let mut room = ROOM;
    for _ in 0..usize::BITS {
        bytes.resize(room, 0u8)?;
        match rt.arg(index, bytes.as_mut_slice()) {
            Ok(len) => {
                bytes.truncate(len);
                return Ok(Some(bytes));
            }
            Err(FillError::NotPresent) => return Ok(None),
            Err(FillError::TooLong) => room = room.saturating_mul(2),
        }
    }
    Err(AllocError)
}

fn text_of(alloc: Global, bytes: &[u8]) -> Result<String, AllocError> {
    if let Ok(text) = str::from_utf8(bytes) {
        return String::from_str(alloc, text);
    }
    let mut text = String::new(alloc);
    for chunk in bytes.utf8_chunks() {
        text.push_str(chunk.valid())?;
        for byte in chunk.invalid() {
            let escape = format!(in alloc; "\\x{byte:02x}")?;
            text.push_str(escape.as_str())?;
        }
    }
    text.push(NOT_UTF8)?;
    Ok(text)
}
