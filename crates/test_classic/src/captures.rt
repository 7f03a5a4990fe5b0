//! The captures that the rows name.

use std::alloc::Global;

// Their names and digits. A star stands for the 98 bytes of a packet.
// - `two` has the packet of `one` twice, and `alike` three times. `three` has it once, and then two empty packets.
// - `long` has a second packet whose original length is less than its stored length. `long_first` has the same packets in the other order.
// - `turned` is `three` in the other byte order. `fine` is `one` in the other byte order and in nanoseconds.
// - `nanoseconds` has an empty packet at 999 nanoseconds. `cut` is the same in microseconds, of which the packet has none.
// - `wrong` begins with no magic number. `seven` and `123` are bytes of no capture.
// - `five` has five packets. None of their headers and data begins with a zero. `six` has the packet of `one` before them.
// - `empty_packet`, `sixes`, `largest` and `packet_header` are parts of captures: a packet of no bytes, one of 16 bytes, the header of the
//   largest packet that a capture may have, and the header of the packet of `one`.
const CAPTURES: &str = "
    one = a1b2c3d4 00020004 00000000 00000000 0000ffff 00000001 4fa11b29 00025436 00000062 00000062 *
    two = a1b2c3d4 00020004 00000000 00000000 0000ffff 00000001 4fa11b29 00025436 00000062 00000062 * 4fa11b29 00025436 00000062 00000062 *
    alike = a1b2c3d4 00020004 00000000 00000000 0000ffff 00000001 4fa11b29 00025436 00000062 00000062 * 4fa11b29 00025436 00000062 00000062 * 4fa11b29 00025436 00000062 00000062 *
    three = a1b2c3d4 00020004 00000000 00000000 0000ffff 00000001 4fa11b29 00025436 00000062 00000062 * 00000001 00000000 00000000 00000000 00000001 00000000 00000000 00000000
    long = a1b2c3d4 00020004 00000000 00000000 0000ffff 00000001 4fa11b29 00025436 00000062 00000062 * 00000001 00000000 00000002 00000001
    long_first = a1b2c3d4 00020004 00000000 00000000 0000ffff 00000001 00000001 00000000 00000002 00000001 4fa11b29 00025436 00000062 00000062 *
    turned = d4c3b2a1 02000400 00000000 00000000 ffff0000 01000000 291ba14f 36540200 62000000 62000000 * 01000000 00000000 00000000 00000000 01000000 00000000 00000000 00000000
    fine = 4d3cb2a1 02000400 00000000 00000000 ffff0000 01000000 291ba14f f0f21809 62000000 62000000 *
    nanoseconds = a1b23c4d 00020004 00000000 00000000 0000ffff 00000001 00000001 000003e7 00000000 00000000
    cut = a1b2c3d4 00020004 00000000 00000000 0000ffff 00000001 00000001 00000000 00000000 00000000
    wrong = ffffffff ffffffff ffffffff ffffffff ffffffff ffffffff ffffffff ffffffff ffffffff ffffffff
    seven = 00010203 040506
    123 = 010203
    five = a1b2c3d4 00020004 00000000 00000000 0000ffff 00000001 09000001 00000000 00000009 00000009 070707070707070707 09000001 00000000 00000009 00000009 070707070707070707 09000001 00000000 00000001 00000001 07 09000001 00000000 00000005 00000005 0707070707 09000001 00000000 00000009 00000009 070707070707070707
    six = a1b2c3d4 00020004 00000000 00000000 0000ffff 00000001 4fa11b29 00025436 00000062 00000062 * 09000001 00000000 00000009 00000009 070707070707070707 09000001 00000000 00000009 00000009 070707070707070707 09000001 00000000 00000001 00000001 07 09000001 00000000 00000005 00000005 0707070707 09000001 00000000 00000009 00000009 070707070707070707
    empty_packet = 00000001 00000000 00000000 00000000
    sixes = 00000001 00000000 00000010 00000010 06060606060606060606060606060606
    largest = 00000001 00000000 00040000 00040000
    packet_header = 4fa11b29 00025436 00000062 00000062
";

// The bytes 0, 1, 2 and so on.
const CONTENTS: &str =
    "000102030405060708090a0b0c0d0e0f101112131415161718191a1b1c1d1e1f202122232425262728292a2b2c2d2e2f30 \
    3132333435363738393a3b3c3d3e3f404142434445464748494a4b4c4d4e4f505152535455565758595a5b5c5d5e5f6061";

// Returns the digits of this name.
fn digits_of(name: &str) -> Option<&'static str> {
    for line in CAPTURES.lines() {
        let (told, digits) = line.trim().split_once(" = ").unwrap_or(("", ""));
        if told == name {
            return Some(digits);
        }
    }
    None
}

// Returns the bytes of this name.
fn bytes_of(alloc: Global, name: &str) -> Option<Vec<u8>> {
    let digits = digits_of(name)?.replace(alloc, "*", CONTENTS).ok()?;
    let digits = digits.replace(alloc, " ", "").ok()?;
    hex::decode(alloc, digits.as_bytes()).ok()
}

// Returns a capture in which one packet comes so often, and then another one, which has sevens up to this length of the capture.
fn repeated(alloc: Global, turns: u32, often: &str, last: &str, len: usize) -> Option<Vec<u8>> {
    let often = bytes_of(alloc, often)?;
    let last = bytes_of(alloc, last)?;
    let mut bytes = bytes_of(alloc, "one")?;
    bytes.truncate(24);
    for _turn in 0..turns {
        bytes.extend_from_slice(often.as_slice()).ok()?;
    }
    bytes.extend_from_slice(last.as_slice()).ok()?;
    bytes.resize(len, 7).ok()?;
    Some(bytes)
}

/// Returns the capture of this name. `empties` has 2000 empty packets, and `large` 2000 packets before the largest that a capture may have.
pub fn capture_of(alloc: Global, name: &str) -> Option<Vec<u8>> {
    match name {
        "empties" => repeated(alloc, 1999, "empty_packet", "empty_packet", 24 + 2000 * 16),
        "large" => repeated(
            alloc,
            2000,
            "sixes",
            "largest",
            24 + 2000 * 32 + 16 + 262_144,
        ),
        _ => bytes_of(alloc, name),
    }
}
