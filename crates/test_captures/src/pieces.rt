//! Captures of both formats that are supplied as the parser requests them, and captures that come in pieces.

use crate::told::{beginning, count, filled};
use pcap_file::run::{
    Rest, Window, exact_pcap, exact_pcapng, pieces_fit, pieces_pcap, pieces_pcapng,
};
use pcap_file::{PcapError, ResultParsing};
use std::alloc::{AllocError, Global};
use std::test::Fail;
use test_support::captures::{SECTIONS, back, big, front};
use test_support::rows::{bytes, every_row, same};

// Formats how many packets there are, what follows them, and how many requests were made; or the error, and how many bytes were requested.
fn packets_requested(alloc: Global, bytes: &[u8]) -> Result<String, Fail> {
    let mut window = Window::new(bytes);
    let told = match &exact_pcap(alloc, &mut window) {
        Ok((run, requests)) => {
            let packets = run.packets.len();
            format!(in alloc; "{packets} {:?} {requests}", run.rest)
        }
        Err(error) => format!(in alloc; "{error:?} {}", window.seen().len()),
    };
    Ok(told?)
}

// Does the same for blocks.
fn blocks_requested(alloc: Global, bytes: &[u8]) -> Result<String, Fail> {
    let mut window = Window::new(bytes);
    let told = match &exact_pcapng(alloc, &mut window) {
        Ok((run, requests)) => {
            let blocks = run.blocks.len();
            format!(in alloc; "{blocks} {:?} {requests}", run.rest)
        }
        Err(error) => format!(in alloc; "{error:?} {}", window.seen().len()),
    };
    Ok(told?)
}

// A packet of 98 bytes and its beginnings, an empty packet, and a refused header with bytes after it.
const PACKETS: &str = r#"
    a1b2c3d4 00020004 00000000 00000000 0000ffff 00000001 4fa11b29 00025436 00000062 00000062 000102030405060708090a0b0c0d0e0f101112131415161718191a1b1c1d1e1f202122232425262728292a2b2c2d2e2f303132333435363738393a3b3c3d3e3f404142434445464748494a4b4c4d4e4f505152535455565758595a5b5c5d5e5f6061 => 1 Clean 3
    a1b2c3d4 00020004 00000000 00000000 0000ffff 00000001 4fa11b29 00025436 00000062 00000062 => 0 Needs(98) 3
    a1b2c3d4 00020004 00000000 00000000 0000ffff 00000001 4fa11b29 0002 => 0 Needs(10) 2
    a1b2c3d4000200040000 => IncompleteBuffer(14) 10
    a1b2c3d4 00020004 00000000 00000000 0000ffff 00000001 00000001 00000000 00000000 00000000 => 1 Clean 2
    => IncompleteBuffer(24) 0
    ffffffffffffffffffffffffffffffffffffffffffffffffffffffffffffffffffffffffffffffff => InvalidField("PcapHeader wrong magic number") 24
"#;

// A section alone and its beginning, two sections with an interface each, a block without a body, and one that states nearly the largest
// possible length. Then come refused first blocks: one whose length is no multiple of four, one that is too short, one that is no section
// header, and one that is truncated. Of these the parser requests the twelve bytes of the head, or at most the length that they state.
const BLOCKS: &str = r#"
    0a0d0d0a 0000001c 1a2b3c4d 00010000 ffffffffffffffff 0000001c => 0 Clean 2
    0a0d0d0a 0000001c 1a2b3c4d 00010000 ffffffff => IncompleteBuffer(8) 20
    0a0d0d0a 0000001c 1a2b3c4d 00010000 ffffffffffffffff 0000001c 00000001 00000014 00010000 00040000 00000014 0a0d0d0a 1c000000 4d3c2b1a 01000000 ffffffffffffffff 1c000000 01000000 14000000 01000000 00000400 14000000 => 3 Clean 8
    0a0d0d0a 0000001c 1a2b3c4d 00010000 ffffffffffffffff 0000001c 000000ff 0000000c 0000000c => 1 Clean 3
    0a0d0d0a 0000001c 1a2b3c4d 00010000 ffffffffffffffff 0000001c 000000ff fffffffc 00000000 => 0 Needs(4294967280) 4
    00000099 0000000d 00000000 07070707 => InvalidField("Block: (initial_len % 4) != 0") 12
    00000099 00000008 00000000 07070707 => InvalidField("Block: initial_len < 12") 12
    00000099 00000010 00000000 00000010 07070707 => InvalidField("SectionHeader missing") 16
    00000099 00000010 00000000 00 => IncompleteBuffer(3) 13
"#;

#[test]
fn requests_are_exact(rt: HostRuntime) -> Result<(), Fail> {
    every_row(rt.alloc(), PACKETS, packets_requested)?;
    every_row(rt.alloc(), BLOCKS, blocks_requested)
}

// The contents of pieces: how many items are in the pieces up to each, how many items the run lists, how many bytes these take, and what
// follows them.
#[derive(Drop)]
struct Contents {
    numbers: Vec<usize>,
    listed: usize,
    used: usize,
    rest: Rest,
}

fn fed(alloc: Global, is_classic: bool, pieces: &[&[u8]]) -> ResultParsing<Contents> {
    if !pieces_fit(pieces) {
        return Err(PcapError::OutOfMemory(AllocError));
    }
    if is_classic {
        let (run, numbers) = pieces_pcap(alloc, pieces)?;
        return Ok(Contents {
            numbers,
            listed: run.packets.len(),
            used: run.used,
            rest: run.rest,
        });
    }
    let (run, numbers) = pieces_pcapng(alloc, pieces)?;
    Ok(Contents {
        numbers,
        listed: run.blocks.len(),
        used: run.used,
        rest: run.rest,
    })
}

// Returns how many items end within the first `end` bytes: the one packet, or blocks after the first section.
fn ended(is_classic: bool, end: usize) -> usize {
    if is_classic {
        return usize::from(end == 138);
    }
    let (used, _wanted) = beginning(end);
    count(used)
}

// Returns whether the three pieces between two cuts hold the items that they must.
fn is_cut(alloc: Global, is_classic: bool, bytes: &[u8], first: usize, second: usize) -> bool {
    let len = bytes.len();
    let pieces = [
        front(bytes, first),
        back(front(bytes, second), first),
        back(bytes, second),
    ];
    let all = ended(is_classic, len);
    let wanted = [ended(is_classic, first), ended(is_classic, second), all];
    match &fed(alloc, is_classic, &pieces) {
        Ok(contents) => {
            contents.numbers.as_slice() == wanted.as_slice()
                && contents.listed == all
                && contents.used == len
        }
        Err(_) => false,
    }
}

#[test]
fn every_cutting(rt: HostRuntime) -> Result<(), Fail> {
    let packet = big(rt.alloc())?;
    for (is_classic, bytes) in [(true, packet.as_slice()), (false, SECTIONS.as_slice())] {
        for second in 0..bytes.len().saturating_add(1) {
            for first in 0..second.saturating_add(1) {
                assert!(rt;
                    is_cut(rt.alloc(), is_classic, bytes, first, second),
                    "{is_classic} at {first} and {second}"
                );
            }
        }
    }
    Ok(())
}

// Returns how many of the numbers are 0.
fn early(numbers: &[usize]) -> usize {
    let mut count = 0usize;
    for number in numbers {
        count = count.saturating_add(usize::from(*number == 0));
    }
    count
}

// Formats how many pieces there are, in how many the first item isn't whole, how many items are in all pieces, how many the run lists, how
// many bytes these take, and what follows them; or the error.
fn told(alloc: Global, is_classic: bool, pieces: &[&[u8]]) -> Result<String, Fail> {
    let told = match &fed(alloc, is_classic, pieces) {
        Ok(contents) => {
            let numbers = contents.numbers.as_slice();
            let early = early(numbers);
            let items = numbers.last().copied().unwrap_or(0);
            format!(in alloc;
                "{} {early} {items} {} {} {:?}",
                numbers.len(),
                contents.listed,
                contents.used,
                contents.rest
            )
        }
        Err(error) => format!(in alloc; "{error:?}"),
    };
    Ok(told?)
}

// Checks a row: a packet and these bytes after it come one by one, with empty pieces before them, after every `run` bytes, and after the
// last.
fn come_by_bytes(alloc: Global, row: &str) -> Result<(), Fail> {
    let (given, wanted) = row.split_once("=>").ok_or("a row with no arrow")?;
    let (run, digits) = given
        .trim_start()
        .split_once(' ')
        .ok_or("a row with no number")?;
    let run = run.parse::<usize>().unwrap_or(1);
    let mut whole = big(alloc)?;
    whole.extend_from_slice(bytes(alloc, digits)?.as_slice())?;
    let mut pieces: Vec<&[u8]> = Vec::new(alloc);
    pieces.push(&[])?;
    for group in whole.as_slice().chunks(run.max(1)) {
        for byte in group.chunks(1) {
            pieces.push(byte)?;
        }
        pieces.push(&[])?;
    }
    let told = told(alloc, true, pieces.as_slice())?;
    same(told.as_str(), wanted.trim())
}

// The most bytes between two empty pieces, and the bytes after the packet: none, a second packet that ends after ten bytes of its data, and
// one with lengths that no packet may have, with bytes after its header. The first packet's header ends with the 40th byte, and the packet
// with the 138th.
const BYTEWISE: &str = r#"
    1 => 277 275 1 1 138 Clean
    39 => 143 141 1 1 138 Clean
    40 => 143 141 1 1 138 Clean
    41 => 143 141 1 1 138 Clean
    137 => 141 139 1 1 138 Clean
    138 => 140 138 1 1 138 Clean
    164 4fa11b29 00025436 00000062 00000062 00000000000000000000 => 166 138 1 1 138 Needs(88)
    184 ffffffff ffffffff ffffffff ffffffff 000000000000000000000000000000000000000000000000000000000000 => 186 138 1 1 138 Refused(InvalidField("PacketHeader ts_usec * 1000 > 0xFFFFFFFF"))
"#;

#[test]
fn bytes_are_pieces(rt: HostRuntime) -> Result<(), Fail> {
    for row in filled(BYTEWISE)?.lines() {
        come_by_bytes(rt.alloc(), row)?;
    }
    Ok(())
}

#[test]
fn no_piece_lacks_the_beginning(rt: HostRuntime) -> Result<(), Fail> {
    same(
        told(rt.alloc(), true, &[])?.as_str(),
        "IncompleteBuffer(24)",
    )?;
    same(
        told(rt.alloc(), false, &[])?.as_str(),
        "IncompleteBuffer(12)",
    )
}
