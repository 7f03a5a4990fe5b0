//! Copies from streams to writers, of whole blocks or from a reader's buffer. The bytes written are a beginning of the input.

use crate::slices::REFUSED;
use crate::told::{filled, joined, tell_end};
use pcap_file::run::{NgCopied, copy_pcapng, copy_pcapng_buffered};
use std::alloc::{AllocError, Global};
use std::io::{self, BufReader, ErrorKind};
use std::test::Fail;
use test_support::captures::{SECTION, SECTIONS, front};
use test_support::readers::Halting;
use test_support::rows::bytes;
use test_support::writers::Narrow;

// Returns two sections with an interface each, two blocks of an unknown type after the second, and a section with one such block.
fn capture(alloc: Global) -> Result<Vec<u8>, AllocError> {
    let little = [0x99, 0, 0, 0, 0x10, 0, 0, 0, 1, 2, 3, 4, 0x10, 0, 0, 0];
    let big = [0, 0, 0, 0x99, 0, 0, 0, 0x10, 1, 2, 3, 4, 0, 0, 0, 0x10];
    let mut bytes = Vec::from_slice(alloc, &SECTIONS)?;
    bytes.extend_from_slice(&little)?;
    bytes.extend_from_slice(&little)?;
    bytes.extend_from_slice(&SECTION)?;
    bytes.extend_from_slice(&big)?;
    Ok(bytes)
}

// Returns how many blocks after the first end within its first `len` bytes, and where the last of these ends.
fn whole(len: usize) -> (u64, usize) {
    match len {
        0..28 => (0, 0),
        28..48 => (0, 28),
        48..76 => (1, 48),
        76..96 => (2, 76),
        96..112 => (3, 96),
        112..128 => (4, 112),
        128..156 => (5, 128),
        156..172 => (6, 156),
        _ => (7, 172),
    }
}

// A copy: the size of the reader's buffer (0 if it has none), the most blocks, and both ends.
#[derive(Drop)]
struct Copying {
    room: usize,
    most: u64,
    stream: Halting,
    output: Narrow,
}

// Returns a copy of these bytes, with 100 bytes a read, to an output with space for all.
fn copy_of(alloc: Global, bytes: &[u8], room: usize) -> Result<Copying, AllocError> {
    Ok(Copying {
        room,
        most: 9,
        stream: Halting::new(alloc, bytes, 100)?,
        output: Narrow::new(alloc, 1000, true),
    })
}

fn copied(alloc: Global, copying: &mut Copying) -> io::Result<NgCopied> {
    let (stream, output) = (&mut copying.stream, &mut copying.output);
    if copying.room == 0 {
        return Ok(copy_pcapng(alloc, stream, output, copying.most));
    }
    let mut reader = BufReader::with_capacity(alloc, copying.room, stream)?;
    Ok(copy_pcapng_buffered(alloc, &mut reader, output, copying.most))
}

// Adds why a copy ended, whether a read or a write failed, and how many blocks were copied.
fn tell_copied(told: &mut String, copied: &NgCopied) -> Result<(), AllocError> {
    tell_end(told, copied.fault.as_ref())?;
    if copied.read_failed {
        told.push_str("read ")?;
    }
    if copied.write_failed {
        told.push_str("write ")?;
    }
    write!(told, "{}", copied.blocks)
}

// Checks that a copy ends so, and that the first `written` bytes of the input went out, with all blocks that end within them.
fn ends(alloc: Global, copying: &mut Copying, end: &str, written: usize) -> Result<(), Fail> {
    let (blocks, _used) = whole(written);
    let wanted = format!(in alloc; "{end} {blocks}")?;
    let mut told = String::new(alloc);
    tell_copied(&mut told, &copied(alloc, copying)?)?;
    let input = copying.stream.bytes.as_slice();
    if told.as_str() == wanted.as_str() && copying.output.out.as_slice() == front(input, written) {
        return Ok(());
    }
    Err(Fail::new(format_args!("{}: {told} in place of {wanted} at {written}", copying.room)))
}

// Checks that the blocks are copied that end within the first `end` bytes.
fn begins(alloc: Global, bytes: &[u8], room: usize, step: usize, end: usize) -> Result<(), Fail> {
    let mut copying = copy_of(alloc, front(bytes, end), room)?;
    copying.stream.step = step;
    let (_blocks, used) = whole(end);
    let told = if used > 0 && used == end {
        "None"
    } else {
        "UnexpectedEof"
    };
    ends(alloc, &mut copying, told, used)
}

#[test]
fn every_beginning(rt: HostRuntime) -> Result<(), Fail> {
    let bytes = capture(rt.alloc())?;
    for (room, step) in [
        (0, 1),
        (0, 5),
        (0, 100),
        (1, 100),
        (13, 100),
        (40, 100),
        (200, 100),
        (200, 200),
    ] {
        for end in 0..173 {
            begins(rt.alloc(), bytes.as_slice(), room, step, end)?;
        }
    }
    Ok(())
}

// Checks that the blocks before the failing call are copied, after `end` bytes, one a call.
fn stops(
    alloc: Global,
    bytes: &[u8],
    room: usize,
    end: usize,
    kind: ErrorKind,
) -> Result<(), Fail> {
    let mut copying = copy_of(alloc, bytes, room)?;
    copying.stream.step = 1;
    copying.stream.fails_at = end.saturating_add(1);
    copying.stream.kind = kind;
    let (_blocks, used) = whole(end);
    let told = if kind == ErrorKind::Other {
        "Other read"
    } else {
        "Interrupted read"
    };
    ends(alloc, &mut copying, told, used)
}

#[test]
fn every_failed_read(rt: HostRuntime) -> Result<(), Fail> {
    let bytes = capture(rt.alloc())?;
    for room in [0, 200] {
        for kind in [ErrorKind::Other, ErrorKind::Interrupted] {
            for end in 0..172 {
                stops(rt.alloc(), bytes.as_slice(), room, end, kind)?;
            }
        }
    }
    Ok(())
}

// Checks that a copy ends at an output with space for `written` bytes, which then fails, or takes nothing. One read of the stream gives
// all bytes of the capture. A buffer of 200 bytes then has both unknown blocks of the second section, and a copy writes them in one call.
fn fills(
    alloc: Global,
    bytes: &[u8],
    room: usize,
    written: usize,
    (step, fails): (usize, bool),
) -> Result<(), Fail> {
    let mut copying = copy_of(alloc, bytes, room)?;
    copying.stream.step = 200;
    copying.output.room = written;
    copying.output.step = step;
    copying.output.fails = fails;
    let told = if fails {
        "Other write"
    } else {
        "WriteZero write"
    };
    ends(alloc, &mut copying, told, written)
}

#[test]
fn every_failed_write(rt: HostRuntime) -> Result<(), Fail> {
    let bytes = capture(rt.alloc())?;
    for room in [0, 200] {
        for way in [(1000, true), (1000, false), (7, true)] {
            for written in 0..172 {
                fills(rt.alloc(), bytes.as_slice(), room, written, way)?;
            }
        }
    }
    Ok(())
}

// Checks a copy of at most `most` blocks after the first section header, which take `used` bytes. The sizes are those of the buffer and of
// a read. Without a buffer no more bytes are taken.
fn copies_most(
    alloc: Global,
    bytes: &[u8],
    (room, step): (usize, usize),
    most: u64,
    used: usize,
) -> Result<(), Fail> {
    let mut copying = copy_of(alloc, bytes, room)?;
    copying.stream.step = step;
    copying.most = most;
    ends(alloc, &mut copying, "None", used)?;
    if room > 0 || copying.stream.taken == used {
        return Ok(());
    }
    Err(Fail::new(format_args!("more is taken than {used}")))
}

#[test]
fn most_blocks(rt: HostRuntime) -> Result<(), Fail> {
    let bytes = capture(rt.alloc())?;
    for sizes in [(0, 100), (13, 100), (40, 100), (200, 100), (200, 200)] {
        for most in 0..9 {
            let used = match most {
                0 => 28,
                1 => 48,
                2 => 76,
                3 => 96,
                4 => 112,
                5 => 128,
                6 => 156,
                _ => 172,
            };
            copies_most(rt.alloc(), bytes.as_slice(), sizes, most, used)?;
        }
    }
    Ok(())
}

// Blocks that are refused after a big-endian section header and an unknown block.
const REFUSED_LATER: &str = r#"
    00000001 0000000c 0000000c => InvalidField("InterfaceDescriptionBlock: block length < 8")
    00000005 0000000d 00000000 => InvalidField("Block: (initial_len % 4) != 0")
    00000005 0000000c 00000010 => InvalidField("Block initial_length != trailer_length")
    0a0d0d0a 0000000c 00000000 => InvalidField("SectionHeaderBlock: invalid magic number")
"#;

// Checks that each row of a table is refused after these bytes, all of which are copied.
fn refuses(alloc: Global, table: &str, before: &[u8]) -> Result<(), Fail> {
    for row in filled(table)?.lines() {
        let (digits, error) = row.split_once("=>").ok_or("a row with no arrow")?;
        let bytes = joined(alloc, before, bytes(alloc, digits)?.as_slice())?;
        for room in [0, 200] {
            let mut copying = copy_of(alloc, bytes.as_slice(), room)?;
            ends(alloc, &mut copying, error.trim(), before.len())?;
        }
    }
    Ok(())
}

#[test]
fn refused_blocks(rt: HostRuntime) -> Result<(), Fail> {
    let bytes = capture(rt.alloc())?;
    refuses(rt.alloc(), REFUSED, &[])?;
    refuses(rt.alloc(), REFUSED_LATER, bytes.as_slice())
}
