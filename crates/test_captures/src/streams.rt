//! Captures that come from streams, in each way. A test fails with the way and the number of bytes a read, and some with the stream's
//! length and the number of its call that fails, which is 0 if none does.

use crate::slices::{REFUSED, TORN, UNMARKED};
use crate::told::{beginning, count, filled, joined, shown};
use crate::ways::{WAYS, told};
use std::alloc::Global;
use std::io::ErrorKind;
use std::test::Fail;
use test_support::captures::{SECTION, SECTIONS, back, front};
use test_support::readers::{EndsOnce, Halting};
use test_support::rows::bytes;

// Checks that a stream gives the blocks of the first `used` bytes of the capture with two sections, and then this end or error. A failed
// read sets the flag of a reader.
fn gives(
    alloc: Global,
    way: &str,
    stream: &mut Halting,
    used: usize,
    end: &str,
    has_failed: bool,
) -> Result<(), Fail> {
    let (blocks, state) = shown(used);
    let flag = if has_failed && used > 0 && way != "read_block" {
        " failed"
    } else {
        ""
    };
    let wanted = format!(in alloc; "{blocks}{end} {state}{flag}")?;
    let calls = count(used).saturating_add(1) as u64;
    let told = told(alloc, way, &mut *stream, calls)?;
    if told.trim() == wanted.trim() {
        return Ok(());
    }
    let (step, length, fails_at) = (stream.step, stream.bytes.len(), stream.fails_at);
    Err(Fail::new(format_args!(
        "{way} by {step} of {length} bytes, call {fails_at} fails: {told} in place of {wanted}"
    )))
}

// Checks the first `end` bytes, with `step` bytes a read.
fn begins(alloc: Global, way: &str, end: usize, step: usize) -> Result<(), Fail> {
    let mut stream = Halting::new(alloc, front(&SECTIONS, end), step)?;
    let (used, wanted) = beginning(end);
    let told = if wanted == end {
        "None"
    } else {
        "UnexpectedEof"
    };
    gives(alloc, way, &mut stream, used, told, false)
}

#[test]
fn every_beginning(rt: HostRuntime) -> Result<(), Fail> {
    for way in WAYS {
        for step in [1, 5, 100] {
            for end in 0..97 {
                begins(rt.alloc(), way, end, step)?;
            }
        }
    }
    Ok(())
}

// Checks a stream that fails after `end` bytes, one a call.
fn fails(alloc: Global, way: &str, end: usize, kind: ErrorKind) -> Result<(), Fail> {
    let mut stream = Halting::new(alloc, &SECTIONS, 1)?;
    stream.fails_at = end.saturating_add(1);
    stream.kind = kind;
    let (used, _wanted) = beginning(end);
    let told = if kind == ErrorKind::Other {
        "Other"
    } else {
        "Interrupted"
    };
    gives(alloc, way, &mut stream, used, told, true)
}

#[test]
fn every_failed_read(rt: HostRuntime) -> Result<(), Fail> {
    for way in WAYS {
        for kind in [ErrorKind::Other, ErrorKind::Interrupted] {
            for end in 0..97 {
                fails(rt.alloc(), way, end, kind)?;
            }
        }
    }
    Ok(())
}

// Checks that so many calls give a block each, and take exactly these `used` bytes, without a call of the stream at its end.
fn stops(alloc: Global, way: &str, calls: u64, used: usize, step: usize) -> Result<(), Fail> {
    let mut stream = Halting::new(alloc, &SECTIONS, step)?;
    let (blocks, state) = shown(used);
    let wanted = format!(in alloc; "{blocks}{state} {used} 0")?;
    let mut told = told(alloc, way, &mut stream, calls)?;
    write!(told, " {} {}", stream.taken, stream.ends)?;
    if told.as_str() == wanted.as_str() {
        return Ok(());
    }
    Err(Fail::new(format_args!("{way} by {step}: {told}")))
}

#[test]
fn most_blocks(rt: HostRuntime) -> Result<(), Fail> {
    for way in WAYS {
        for step in [1, 7, 200] {
            for (calls, used) in [(0, 28), (1, 48), (2, 76), (3, 96)] {
                stops(rt.alloc(), way, calls, used, step)?;
            }
        }
    }
    Ok(())
}

// Checks a row in each way: the bytes after the first `used` bytes of the capture are refused, and no byte after them is taken. For a
// truncated block a slice's error is that of the end of a stream.
fn refuses(alloc: Global, row: &str, used: usize, more: &[u8]) -> Result<(), Fail> {
    let (digits, error) = row.split_once("=>").ok_or("a row with no arrow")?;
    let bytes = joined(
        alloc,
        front(&SECTIONS, used),
        bytes(alloc, digits)?.as_slice(),
    )?;
    let whole = joined(alloc, bytes.as_slice(), more)?;
    let error = if error.contains("IncompleteBuffer") {
        "UnexpectedEof"
    } else {
        error.trim()
    };
    for way in WAYS {
        for step in [1, 100] {
            let mut stream = Halting::new(alloc, whole.as_slice(), step)?;
            gives(alloc, way, &mut stream, used, error, false)?;
            if stream.taken > bytes.len() {
                return Err(Fail::new(format_args!("{way} takes more: {error}")));
            }
        }
    }
    Ok(())
}

// Checks each row of a table.
fn refuses_each(alloc: Global, table: &str, used: usize, more: &[u8]) -> Result<(), Fail> {
    for row in filled(table)?.lines() {
        refuses(alloc, row, used, more)?;
    }
    Ok(())
}

#[test]
fn first_blocks(rt: HostRuntime) -> Result<(), Fail> {
    refuses_each(rt.alloc(), TORN, 0, &[])?;
    refuses_each(rt.alloc(), REFUSED, 0, &[])?;
    refuses_each(rt.alloc(), REFUSED, 0, &SECTION)
}

#[test]
fn refused_blocks(rt: HostRuntime) -> Result<(), Fail> {
    let table = r#"
        000000ff 0000000d => UnexpectedEof
        000000ff fffffffc 00000000 => UnexpectedEof
        000000ff 00000010 00000000 000000 => UnexpectedEof
        000000ff 0000000d 00000000 => InvalidField("Block: (initial_len % 4) != 0")
        000000ff 00000008 00000000 => InvalidField("Block: initial_len < 12")
        000000ff 0000000c 00000010 => InvalidField("Block initial_length != trailer_length")
        00000001 00000010 00000001 00000010 00 => InvalidField("InterfaceDescriptionBlock: block length < 8")
        0a0d0d0a 10000000 4d3c2b1a 10000000 => InvalidField("SectionHeaderBlock: block length < 16")
        00000001 0000001c 0001 0000 00040000 0bac 0003 616263 00 0000001c => UnexpectedEof
        => None
    "#;
    refuses_each(rt.alloc(), table, 48, &[])
}

// Checks a stream that ends once after an interface, and goes on.
fn goes_on(alloc: Global, way: &str, step: usize) -> Result<(), Fail> {
    let stream = EndsOnce {
        first: front(&SECTIONS, 48),
        second: back(&SECTIONS, 48),
        step,
        has_ended: false,
    };
    let told = told(alloc, way, stream, 6)?;
    let wanted =
        "InterfaceDescription/20/20/Big None SectionHeader/28/28/Little InterfaceDescription/20/20/Little None None \
        Little 1.0 -1 [] with ETHERNET/262144/[]";
    if told.as_str() == wanted {
        return Ok(());
    }
    Err(Fail::new(format_args!("{way} by {step}: {told}")))
}

#[test]
fn a_stream_that_goes_on(rt: HostRuntime) -> Result<(), Fail> {
    for way in ["next", "next_header", "read_block"] {
        for step in [1, 100] {
            goes_on(rt.alloc(), way, step)?;
        }
    }
    Ok(())
}

// Checks a section, and a block that states 4294967292 bytes and has 100008: no larger buffer is requested than may be.
fn lies(alloc: Global, way: &str, step: usize) -> Result<(), Fail> {
    let mut bytes = joined(alloc, &SECTION, &[0, 0, 0, 0xff, 0xff, 0xff, 0xff, 0xfc])?;
    bytes.resize(28 + 8 + 100_000, 0)?;
    let mut stream = Halting::new(alloc, bytes.as_slice(), step)?;
    gives(alloc, way, &mut stream, 28, "UnexpectedEof", false)?;
    if stream.most_room == 65_536 {
        return Ok(());
    }
    Err(Fail::new(format_args!("{way} by {step}: {}", stream.most_room)))
}

#[test]
fn a_block_that_lies(rt: HostRuntime) -> Result<(), Fail> {
    for way in WAYS {
        for step in [1000, 1_000_000] {
            lies(rt.alloc(), way, step)?;
        }
    }
    Ok(())
}

// Checks a row: a first section of which all bytes are taken, and the state after it.
fn opens(alloc: Global, row: &str) -> Result<(), Fail> {
    let (digits, state) = row.split_once("=>").ok_or("a row with no arrow")?;
    let bytes = bytes(alloc, digits)?;
    for way in WAYS {
        let mut stream = Halting::new(alloc, bytes.as_slice(), 100)?;
        let told = told(alloc, way, &mut stream, 0)?;
        if told.as_str() != state.trim() || stream.taken != bytes.len() {
            return Err(Fail::new(format_args!("{way}: {told}")));
        }
    }
    Ok(())
}

#[test]
fn first_sections_without_an_end_mark(rt: HostRuntime) -> Result<(), Fail> {
    for row in filled(UNMARKED)?.lines() {
        opens(rt.alloc(), row)?;
    }
    Ok(())
}

// A little-endian section and five blocks of an unknown type, of 20, 20, 16, 20 and 28 bytes. No block has a zero where it begins, nor
// after its first twelve bytes.
const UNKNOWN: &str = "
    0a0d0d0a 1c000000 4d3c2b1a 0100 0000 ffffffffffffffff 1c000000
    ff000001 14000000 0707070707070707 14000000
    ff000001 14000000 0707070707070707 14000000
    ff000001 10000000 07070707 10000000
    ff000001 14000000 0707070707070707 14000000
    ff000001 1c000000 07070707070707070707070707070707 1c000000
";

// Checks that no call after the first block uses a new buffer. One is used for the head of the first block, and one for the rest of it.
fn shares(alloc: Global, way: &str, calls: u64, wanted: &str) -> Result<(), Fail> {
    let bytes = bytes(alloc, UNKNOWN)?;
    let mut stream = Halting::new(alloc, bytes.as_slice(), 200)?;
    let told = told(alloc, way, &mut stream, calls)?;
    if told.as_str() == wanted && stream.clear == 2 {
        return Ok(());
    }
    Err(Fail::new(format_args!("{way}: {told}, {} new buffers", stream.clear)))
}

#[test]
fn blocks_share_one_room(rt: HostRuntime) -> Result<(), Fail> {
    for way in ["read_pcapng", "next", "next_header"] {
        shares(rt.alloc(), way, 0, "Little 1.0 -1 [] with")?;
        shares(
            rt.alloc(),
            way,
            6,
            "Unknown(16777471)/20/20/Little Unknown(16777471)/20/20/Little Unknown(16777471)/16/16/Little \
             Unknown(16777471)/20/20/Little Unknown(16777471)/28/28/Little None Little 1.0 -1 [] with",
        )?;
    }
    Ok(())
}
