//! Bytes as a row has them.

use std::alloc::Global;
use std::test::Fail;
use test_support::rows::bytes;

/// A big-endian capture in microseconds of one packet, whose 98 bytes are 0, 1, 2 and so on: 138 bytes.
const BIG: &str =
    "a1b2c3d4 00020004 00000000 00000000 0000ffff 00000001 4fa11b29 00025436 00000062 00000062 000102030405060708090a0b0c0d0e0f101112131415161718191a1b1c1d1e1f202122232425262728292a2b2c2d2e2f303132333435363738393a3b3c3d3e3f404142434445464748494a4b4c4d4e4f505152535455565758595a5b5c5d5e5f6061";

/// The same in little-endian order and in nanoseconds.
const LITTLE_NANO: &str =
    "4d3cb2a1 02000400 00000000 00000000 ffff0000 01000000 291ba14f f0f21809 62000000 62000000 000102030405060708090a0b0c0d0e0f101112131415161718191a1b1c1d1e1f202122232425262728292a2b2c2d2e2f303132333435363738393a3b3c3d3e3f404142434445464748494a4b4c4d4e4f505152535455565758595a5b5c5d5e5f6061";

/// A little-endian capture in microseconds of one packet, whose 117 bytes are 0, 1, 2 and so on: 157 bytes.
const LITTLE: &str =
    "d4c3b2a1 02000400 00000000 00000000 00100000 01000000 4832634f 00000000 75000000 75000000 000102030405060708090a0b0c0d0e0f101112131415161718191a1b1c1d1e1f202122232425262728292a2b2c2d2e2f303132333435363738393a3b3c3d3e3f404142434445464748494a4b4c4d4e4f505152535455565758595a5b5c5d5e5f606162636465666768696a6b6c6d6e6f7071727374";

/// A section header and an interface, first in big-endian and then in little-endian order: 28, 20, 28 and 20 bytes.
const SECTIONS: &str =
    "0a0d0d0a 0000001c 1a2b3c4d 00010000 ffffffff ffffffff 0000001c 00000001 00000014 00010000 00040000 00000014 0a0d0d0a 1c000000 4d3c2b1a 01000000 ffffffff ffffffff 1c000000 01000000 14000000 01000000 00000400 14000000";

/// A big-endian section header with no options.
const SECTION: &str = "0a0d0d0a 0000001c 1a2b3c4d 00010000 ffffffff ffffffff 0000001c";

/// Returns the bytes of this text: of its lines, if it has semicolons, each for the end of a line; or else of its captures and hexadecimal
/// digits, which spaces separate. A number after two points at its end is the number of the bytes that are left, as in `big ..40`.
pub(crate) fn bytes_of(alloc: Global, text: &str) -> Result<Vec<u8>, Fail> {
    let Some((text, end)) = text.split_once("..") else {
        return whole(alloc, text.trim());
    };
    let Ok(end) = end.trim().parse::<usize>() else {
        return Err(Fail::new("no number after two points"));
    };
    let mut bytes = whole(alloc, text.trim())?;
    bytes.truncate(end);
    Ok(bytes)
}

// Returns the bytes of these lines, or of these captures and digits.
fn whole(alloc: Global, text: &str) -> Result<Vec<u8>, Fail> {
    if !text.contains(';') {
        return decoded(alloc, text);
    }
    let lines = text.replace(
        alloc,
        ";",
        "
",
    )?;
    Ok(Vec::from_slice(alloc, lines.as_bytes())?)
}

// Returns the bytes of these captures and digits.
fn decoded(alloc: Global, text: &str) -> Result<Vec<u8>, Fail> {
    let mut digits = String::new(alloc);
    for word in text.split(' ') {
        digits.push_str(digits_of(word))?;
    }
    bytes(alloc, digits.as_str())
}

// Returns the digits of the capture with this name, or the word itself if no capture has it.
fn digits_of(word: &str) -> &str {
    match word {
        "big" => BIG,
        "little" => LITTLE,
        "little_nano" => LITTLE_NANO,
        "section" => SECTION,
        "sections" => SECTIONS,
        digits => digits,
    }
}
