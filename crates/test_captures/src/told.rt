//! Blocks, the state after them, and errors as text.

use pcap_file::PcapError;
use pcap_file::pcapng::{Block, InterfaceDescriptionBlock, SectionHeaderBlock};
use pcap_file::run::NgRun;
use std::alloc::{AllocError, Global};
use std::io::ErrorKind;
use std::test::Fail;

/// Adds a block: its type, both lengths and its byte order, and the length of its body if that doesn't follow from these.
pub(crate) fn tell_block(told: &mut String, block: &Block) -> Result<(), AllocError> {
    let (type_, order, length) = (block.type_, block.endianness(), block.body.len());
    write!(
        told,
        "{type_:?}/{}/{}/{order:?} ",
        block.initial_len, block.trailer_len
    )?;
    if length.saturating_add(12) != block.initial_len as usize {
        write!(told, "with {length} bytes ")?;
    }
    Ok(())
}

/// Adds all blocks, or if there are many, only their number and the last of them.
pub(crate) fn tell_blocks(told: &mut String, blocks: &[Block]) -> Result<(), AllocError> {
    let mut shown = blocks;
    if blocks.len() > 9 {
        write!(told, "{} blocks up to ", blocks.len())?;
        shown = &blocks[blocks.len() - 1..];
    }
    for block in shown {
        tell_block(told, block)?;
    }
    Ok(())
}

/// Adds the section: byte order, version, stated length, options; and its interfaces: link type, snapshot length, options. If there are
/// many interfaces, it adds only their number.
pub(crate) fn tell_state(
    told: &mut String,
    section: &SectionHeaderBlock,
    interfaces: &[InterfaceDescriptionBlock],
) -> Result<(), AllocError> {
    let order = if !section.has_valid_magic() {
        "no order"
    } else if section.endianness().is_big() {
        "Big"
    } else {
        "Little"
    };
    let (major, minor) = (section.major_version, section.minor_version);
    write!(
        told,
        "{order} {major}.{minor} {} {:?} with",
        section.section_length, section.options
    )?;
    if interfaces.len() > 9 {
        return write!(told, " {} interfaces", interfaces.len());
    }
    for interface in interfaces {
        tell_interface(told, interface)?;
    }
    Ok(())
}

fn tell_interface(
    told: &mut String,
    interface: &InterfaceDescriptionBlock,
) -> Result<(), AllocError> {
    write!(
        told,
        " {:?}/{}/{:?}",
        interface.linktype, interface.snaplen, interface.options
    )
}

/// Adds why no more blocks came: the kind of an `IoError`, another error, or `None` at an end.
pub(crate) fn tell_end(told: &mut String, error: Option<&PcapError>) -> Result<(), AllocError> {
    match error {
        None => told.push_str("None "),
        Some(PcapError::IoError(error)) => write!(told, "{:?} ", error.kind()),
        Some(error) => write!(told, "{error:?} "),
    }
}

/// Adds a run over bytes: its blocks, the state after them, how many bytes it takes, and what follows them.
pub(crate) fn tell_run(told: &mut String, run: &NgRun) -> Result<(), AllocError> {
    tell_blocks(told, run.blocks.as_slice())?;
    tell_state(told, run.parser.section(), run.parser.interfaces())?;
    write!(told, " used {} {:?}", run.used, run.rest)
}

/// Returns a table without the white space around it, or a failure if it has no rows.
pub(crate) fn filled(table: &str) -> Result<&str, Fail> {
    match table.trim() {
        "" => Err(Fail::from("a table without rows")),
        rows => Ok(rows),
    }
}

/// Returns some bytes, and then others.
pub(crate) fn joined(alloc: Global, bytes: &[u8], others: &[u8]) -> Result<Vec<u8>, AllocError> {
    let mut whole = Vec::from_slice(alloc, bytes)?;
    whole.extend_from_slice(others)?;
    Ok(whole)
}

/// For the first `end` bytes of the capture with two sections: how many of them are used, and how many bytes in all the parser needs to
/// go on.
pub(crate) fn beginning(end: usize) -> (usize, usize) {
    match end {
        0..12 => (0, 12),
        12..28 => (0, 28),
        28 => (28, 28),
        29..40 => (28, 40),
        40..48 => (28, 48),
        48 => (48, 48),
        49..60 => (48, 60),
        60..76 => (48, 76),
        76 => (76, 76),
        77..88 => (76, 88),
        88..96 => (76, 96),
        _ => (96, 96),
    }
}

/// Returns how many blocks after the first are in its first `used` bytes.
pub(crate) fn count(used: usize) -> usize {
    match used {
        96 => 3,
        76 => 2,
        48 => 1,
        _ => 0,
    }
}

/// Returns the blocks after the first in its first `used` bytes, and the state after them.
pub(crate) fn shown(used: usize) -> (&'static str, &'static str) {
    match used {
        28 => ("", "Big 1.0 -1 [] with"),
        48 => (
            "InterfaceDescription/20/20/Big ",
            "Big 1.0 -1 [] with ETHERNET/262144/[]",
        ),
        76 => (
            "InterfaceDescription/20/20/Big SectionHeader/28/28/Little ",
            "Little 1.0 -1 [] with",
        ),
        96 => (
            "InterfaceDescription/20/20/Big SectionHeader/28/28/Little InterfaceDescription/20/20/Little ",
            "Little 1.0 -1 [] with ETHERNET/262144/[]",
        ),
        _ => ("", ""),
    }
}

/// Returns why a conversion ended: the message of the broken rule, or the kind of the error. Too few bytes are an `IoError`.
pub(crate) fn fault_of(fault: &Option<PcapError>) -> &'static str {
    match fault {
        None => "none",
        Some(PcapError::InvalidField(message)) => *message,
        Some(PcapError::IoError(error)) => match error.kind() {
            ErrorKind::UnexpectedEof => "IoError",
            ErrorKind::Interrupted => "Interrupted",
            ErrorKind::WriteZero => "WriteZero",
            ErrorKind::Other => "Other",
            _ => "another kind",
        },
        Some(PcapError::WriterFailed) => "WriterFailed",
        Some(_) => "another",
    }
}
