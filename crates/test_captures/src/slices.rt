//! Captures in slices, in each way. A test fails with the way.

use crate::told::{beginning, filled, joined, shown, tell_block, tell_end, tell_run, tell_state};
use pcap_file::PcapError;
use pcap_file::pcapng::PcapNgParser;
use pcap_file::run::{NgRun, Rest, Window, exact_pcapng, parse_pcapng, pieces_pcapng};
use std::alloc::{AllocError, Global};
use std::test::Fail;
use test_support::captures::{SECTION, SECTIONS, front};
use test_support::rows::bytes;

/// The runs over a slice.
pub(crate) const RUNS: [&str; 3] = ["parse_pcapng", "exact_pcapng", "pieces_pcapng"];

/// First blocks with which no capture begins, and the errors of a parser.
pub(crate) const REFUSED: &str = r#"
    0a0d0d0a 0000000c 1a2b3c4d => InvalidField("Block initial_length != trailer_length")
    0a0d0d0a 00000010 1a2b3c4d 00000010 => InvalidField("SectionHeaderBlock: block length < 16")
    0a0d0d0a 0000001c 00000000 00000000 00000000 00000000 00000000 => InvalidField("SectionHeaderBlock: invalid magic number")
    00000001 00000014 0001 0000 00040000 00000014 => InvalidField("SectionHeader missing")
    00000001 0000000c 0000000c => InvalidField("InterfaceDescriptionBlock: block length < 8")
    00000006 0000000c 0000000c => InvalidField("EnhancedPacketBlock: block length length < 20")
    00000099 0000000c 0000000c => InvalidField("SectionHeader missing")
    00000099 0000000d 0000000d => InvalidField("Block: (initial_len % 4) != 0")
    00000099 00000008 00000008 => InvalidField("Block: initial_len < 12")
"#;

/// First blocks that are truncated.
pub(crate) const TORN: &str = "
    => IncompleteBuffer(12)
    0a0d0d0a 0000001c 1a2b3c => IncompleteBuffer(1)
    01000000 14000000 0100 0000 00000400 14000000 => IncompleteBuffer(335544300)
";

/// First section headers of 36 bytes in both byte orders, whose only option is a comment without an end mark after it.
pub(crate) const UNMARKED: &str = r#"
    0a0d0d0a 00000024 1a2b3c4d 0001 0000 ffffffffffffffff 0001 0002 6869 0000 00000024 => Big 1.0 -1 [Comment("hi")] with
    0a0d0d0a 24000000 4d3c2b1a 0100 0000 ffffffffffffffff 0100 0200 6869 0000 24000000 => Little 1.0 -1 [Comment("hi")] with
"#;

/// Returns a run over these bytes, in a way of `RUNS` or block by block with `next_block`: its blocks, the state after them, how many bytes
/// it takes, and what follows them. If no capture begins with these bytes, the text is the error.
pub(crate) fn told(alloc: Global, way: &str, bytes: &[u8]) -> Result<String, AllocError> {
    let mut told = String::new(alloc);
    match way {
        "parse_pcapng" => tell_parsed(alloc, bytes, &mut told)?,
        "exact_pcapng" => tell_exact(alloc, bytes, &mut told)?,
        "pieces_pcapng" => tell_pieces(alloc, bytes, &mut told)?,
        "next_block" => tell_each(alloc, bytes, &mut told)?,
        _ => told.push_str("no call has this name")?,
    }
    Ok(told)
}

fn tell_parsed(alloc: Global, bytes: &[u8], told: &mut String) -> Result<(), AllocError> {
    match &parse_pcapng(alloc, bytes) {
        Ok(run) => tell_run(told, run),
        Err(error) => tell_end(told, Some(error)),
    }
}

fn tell_exact(alloc: Global, bytes: &[u8], told: &mut String) -> Result<(), AllocError> {
    match &exact_pcapng(alloc, &mut Window::new(bytes)) {
        Ok((run, _requests)) => tell_run(told, run),
        Err(error) => tell_end(told, Some(error)),
    }
}

fn tell_pieces(alloc: Global, bytes: &[u8], told: &mut String) -> Result<(), AllocError> {
    match &pieces_pcapng(alloc, &[bytes]) {
        Ok((run, _numbers)) => tell_run(told, run),
        Err(error) => tell_end(told, Some(error)),
    }
}

fn tell_each(alloc: Global, bytes: &[u8], told: &mut String) -> Result<(), AllocError> {
    match PcapNgParser::new(alloc, bytes) {
        Ok((rest, mut parser)) => tell_blocks_of(&mut parser, rest, bytes.len(), told),
        Err(error) => tell_end(told, Some(&error)),
    }
}

// Adds the blocks at the end of a slice, the state after them, how many of its `length` bytes are used then, and what follows them.
fn tell_blocks_of(
    parser: &mut PcapNgParser,
    slice: &[u8],
    length: usize,
    told: &mut String,
) -> Result<(), AllocError> {
    let mut left = slice;
    let mut end = None;
    for _block in 0..9 {
        match parser.next_block(left) {
            Ok((rest, block)) => {
                tell_block(told, &block)?;
                left = rest;
            }
            Err(error) => {
                end = Some(error);
                break;
            }
        }
    }
    tell_state(told, parser.section(), parser.interfaces())?;
    write!(told, " used {} ", length.saturating_sub(left.len()))?;
    match &end {
        Some(PcapError::IncompleteBuffer(12)) if left.is_empty() => told.push_str("Clean"),
        Some(PcapError::IncompleteBuffer(n)) => write!(told, "Needs({n})"),
        Some(error) => write!(told, "Refused({error:?})"),
        None => Ok(()),
    }
}

// Checks that a run over these bytes gives this text in each way.
fn runs_as(alloc: Global, bytes: &[u8], wanted: &str) -> Result<(), Fail> {
    for way in [
        "parse_pcapng",
        "exact_pcapng",
        "pieces_pcapng",
        "next_block",
    ] {
        let told = told(alloc, way, bytes)?;
        if told.trim() != wanted {
            return Err(Fail::new(format_args!("{way}: {told} in place of {wanted}")));
        }
    }
    Ok(())
}

// Checks each row of a table, with these bytes before those of the row.
fn every_run(alloc: Global, table: &str, before: &[u8]) -> Result<(), Fail> {
    for row in filled(table)?.lines() {
        let (digits, told) = row.split_once("=>").ok_or("a row with no arrow")?;
        let bytes = joined(alloc, before, bytes(alloc, digits)?.as_slice())?;
        runs_as(alloc, bytes.as_slice(), told.trim())?;
    }
    Ok(())
}

// The bytes after a big-endian section.
const BLOCKS: &str = r#"
    => Big 1.0 -1 [] with used 28 Clean
    00000001 00000014 0001 0000 00040000 00000014 0a0d0d0a 1c000000 4d3c2b1a 0100 0000 ffffffffffffffff 1c000000 01000000 14000000 0100 0000 00000400 14000000 => InterfaceDescription/20/20/Big SectionHeader/28/28/Little InterfaceDescription/20/20/Little Little 1.0 -1 [] with ETHERNET/262144/[] used 96 Clean
    00000001 00000014 0001 0000 00040000 00000014 01000000 10000000 01000000 10000000 => InterfaceDescription/20/20/Big Big 1.0 -1 [] with ETHERNET/262144/[] used 48 Needs(268435440)
    00000001 00000014 0001 0000 00040000 00000014 00000001 00000010 00000001 00000010 => InterfaceDescription/20/20/Big Big 1.0 -1 [] with ETHERNET/262144/[] used 48 Refused(InvalidField("InterfaceDescriptionBlock: block length < 8"))
    000000ff 0000000c 0000000c => Unknown(255)/12/12/Big Big 1.0 -1 [] with used 40 Clean
    000000ff 0000000d 00000000 => Big 1.0 -1 [] with used 28 Refused(InvalidField("Block: (initial_len % 4) != 0"))
    000000ff 00000008 00000000 => Big 1.0 -1 [] with used 28 Refused(InvalidField("Block: initial_len < 12"))
    000000ff 00000006 00000000 => Big 1.0 -1 [] with used 28 Refused(InvalidField("Block: (initial_len % 4) != 0"))
    000000ff 0000000c 0000000d => Big 1.0 -1 [] with used 28 Refused(InvalidField("Block initial_length != trailer_length"))
    000000ff fffffffc 00000000 => Big 1.0 -1 [] with used 28 Needs(4294967280)
    000000ff 0000000d => Big 1.0 -1 [] with used 28 Needs(4)
    0a0d0d0a 0000000d 00000000 => Big 1.0 -1 [] with used 28 Refused(InvalidField("SectionHeaderBlock: invalid magic number"))
    0a0d0d0a 00000024 1a2b3c4d 0001 0000 ffffffffffffffff 0001 0002 6869 0000 00000024 => SectionHeader/36/36/Big Big 1.0 -1 [Comment("hi")] with used 64 Clean
    00000006 0000000c 0000000c 00000005 00000010 ffffffff 00000010 => EnhancedPacket/12/12/Big InterfaceStatistics/16/16/Big Big 1.0 -1 [] with used 56 Clean
    00000001 0000001c 0001 0000 00040000 0002 0001 ff 000000 0000001c => Big 1.0 -1 [] with used 28 Refused(Utf8Error(Utf8Error { valid_up_to: 0, error_len: Some(1) }))
"#;

#[test]
fn runs(rt: HostRuntime) -> Result<(), Fail> {
    every_run(rt.alloc(), BLOCKS, &SECTION)?;
    every_run(rt.alloc(), REFUSED, &[])?;
    every_run(rt.alloc(), TORN, &[])?;
    let unmarked = UNMARKED.replace(rt.alloc(), " with", " with used 36 Clean")?;
    every_run(rt.alloc(), unmarked.as_str(), &[])
}

// Checks the runs over the first `end` bytes of the capture with two sections.
fn begins(alloc: Global, end: usize) -> Result<(), Fail> {
    let (used, wanted) = beginning(end);
    let (blocks, state) = shown(used);
    let missing = wanted.saturating_sub(end);
    let mut told = String::new(alloc);
    if used == 0 {
        write!(told, "IncompleteBuffer({missing})")?;
    } else if missing > 0 {
        write!(told, "{blocks}{state} used {used} Needs({missing})")?;
    } else {
        write!(told, "{blocks}{state} used {used} Clean")?;
    }
    runs_as(alloc, front(&SECTIONS, end), told.as_str())
}

#[test]
fn every_beginning(rt: HostRuntime) -> Result<(), Fail> {
    for end in 0..97 {
        begins(rt.alloc(), end)?;
    }
    Ok(())
}
