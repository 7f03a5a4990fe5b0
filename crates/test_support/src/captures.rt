//! Captures that the rows share, and functions that cut bytes.

use std::alloc::{AllocError, Global};

/// The header of a big-endian capture in microseconds and one packet's header. The packet's 98 bytes are 0, 1, 2 and so on.
pub const BIG_HEAD: [u8; 40] = [
    0xa1, 0xb2, 0xc3, 0xd4, 0, 2, 0, 4, 0, 0, 0, 0, 0, 0, 0, 0, 0, 0, 0xff, 0xff, 0, 0, 0, 1, 0x4f,
    0xa1, 0x1b, 0x29, 0, 2, 0x54, 0x36, 0, 0, 0, 0x62, 0, 0, 0, 0x62,
];

/// The same for a little-endian capture in microseconds. The packet's 117 bytes are 0, 1, 2 and so on.
pub const LITTLE_HEAD: [u8; 40] = [
    0xd4, 0xc3, 0xb2, 0xa1, 2, 0, 4, 0, 0, 0, 0, 0, 0, 0, 0, 0, 0, 0x10, 0, 0, 1, 0, 0, 0, 0x48,
    0x32, 0x63, 0x4f, 0, 0, 0, 0, 0x75, 0, 0, 0, 0x75, 0, 0, 0,
];

/// A big-endian section header with no options.
pub const SECTION: [u8; 28] = [
    0x0a, 0x0d, 0x0d, 0x0a, 0, 0, 0, 0x1c, 0x1a, 0x2b, 0x3c, 0x4d, 0, 1, 0, 0, 0xff, 0xff, 0xff,
    0xff, 0xff, 0xff, 0xff, 0xff, 0, 0, 0, 0x1c,
];

/// A section header and an interface, first in big-endian and then in little-endian order: 28, 20, 28 and 20 bytes.
pub const SECTIONS: [u8; 96] = [
    0x0a, 0x0d, 0x0d, 0x0a, 0, 0, 0, 0x1c, 0x1a, 0x2b, 0x3c, 0x4d, 0, 1, 0, 0, 0xff, 0xff, 0xff,
    0xff, 0xff, 0xff, 0xff, 0xff, 0, 0, 0, 0x1c, 0, 0, 0, 1, 0, 0, 0, 0x14, 0, 1, 0, 0, 0, 4, 0, 0,
    0, 0, 0, 0x14, 0x0a, 0x0d, 0x0d, 0x0a, 0x1c, 0, 0, 0, 0x4d, 0x3c, 0x2b, 0x1a, 1, 0, 0, 0, 0xff,
    0xff, 0xff, 0xff, 0xff, 0xff, 0xff, 0xff, 0x1c, 0, 0, 0, 1, 0, 0, 0, 0x14, 0, 0, 0, 1, 0, 0, 0,
    0, 0, 4, 0, 0x14, 0, 0, 0,
];

/// Returns `head`, and then the bytes 0, 1, 2 and so on below `end`.
pub fn capture(alloc: Global, head: &[u8], end: u8) -> Result<Vec<u8>, AllocError> {
    let mut bytes = Vec::from_slice(alloc, head)?;
    for byte in 0..end {
        bytes.push(byte)?;
    }
    Ok(bytes)
}

/// Returns the bytes of the big-endian capture's packet: 0, 1, 2 and so on, 98 of them.
pub fn contents(alloc: Global) -> Result<Vec<u8>, AllocError> {
    capture(alloc, &[], 98)
}

/// Returns `len` bytes: 0, 1, 2 and so on up to 250, and then again from 0.
pub fn pattern(alloc: Global, len: u32) -> Result<Vec<u8>, AllocError> {
    let mut bytes = Vec::new(alloc);
    for k in 0..len {
        bytes.push((k % 251) as u8)?;
    }
    Ok(bytes)
}

/// Returns the big-endian capture, 138 bytes.
pub fn big(alloc: Global) -> Result<Vec<u8>, AllocError> {
    capture(alloc, &BIG_HEAD, 98)
}

/// Returns the little-endian capture, 157 bytes.
pub fn little(alloc: Global) -> Result<Vec<u8>, AllocError> {
    capture(alloc, &LITTLE_HEAD, 117)
}

/// Returns the first bytes, up to `end`.
pub fn front(bytes: &[u8], end: usize) -> &[u8] {
    &bytes[..end.min(bytes.len())]
}

/// Returns the bytes from `start` on.
pub fn back(bytes: &[u8], start: usize) -> &[u8] {
    &bytes[start.min(bytes.len())..]
}
