//! Calls on PcapNg captures. A refused call leaves section and interfaces as they were, and the same call then succeeds.

use crate::bytes::{BLOCKS, INTERFACE_BLOCK, SECTION_BLOCK};
use crate::{came, tell, without};
use pcap_file::pcapng::{
    Block, InterfaceDescriptionBlock, PcapNgParser, PcapNgReader, SectionHeaderBlock,
};
use pcap_file::run::{NgCopied, NgRead, copy_pcapng, parse_pcapng, read_pcapng};
use pcap_file::{PcapError, ResultParsing};
use std::alloc::{AllocError, Global};
use std::io::{self, Cursor, Read};

pub(crate) fn make_calls(rt: &HostRuntime) -> io::Result<()> {
    let alloc = rt.alloc();
    tell(rt, "parse_pcapng", parse_pcapng(alloc, &BLOCKS))?;
    tell(rt, "read_pcapng", read(alloc))?;
    tell(rt, "PcapNgReader::next", next(alloc, false))?;
    tell(rt, "PcapNgReader::next_header", next(alloc, true))?;
    tell(rt, "Block::parsed", parsed(alloc))?;
    tell(rt, "Block::into_owned", into_owned(alloc))?;
    next_blocks(rt, "an interface", &INTERFACE_BLOCK)?;
    next_blocks(rt, "a section", &SECTION_BLOCK)
}

// Makes copies. They come last, so that the calls before them keep the numbers of their allocations.
pub(crate) fn make_copies(rt: &HostRuntime) -> io::Result<()> {
    tell(rt, "copy_pcapng", copy(rt.alloc()))
}

// Checks that no interface is taken that then doesn't fit into the list.
fn read(alloc: Global) -> ResultParsing<()> {
    let NgRead {
        blocks,
        reader,
        fault,
    } = read_pcapng(alloc, Cursor::new(BLOCKS), 9)?;
    match fault {
        None => Ok(()),
        Some(_) if blocks.is_empty() && !reader.interfaces().is_empty() => {
            Err(PcapError::InvalidField("an interface was lost"))
        }
        Some(error) => Err(error),
    }
}

fn copy(alloc: Global) -> ResultParsing<()> {
    let mut capture = Cursor::new(BLOCKS);
    let NgCopied { fault, .. } = copy_pcapng(alloc, &mut capture, &mut io::sink(), 9);
    without(fault)
}

// Returns whether the big-endian section is current, with the expected number of interfaces.
fn is_in_force(
    section: &SectionHeaderBlock,
    interfaces: &[InterfaceDescriptionBlock],
    count: usize,
) -> bool {
    section.magic == 0x1a2b3c4d && section.options.len() == 1 && interfaces.len() == count
}

fn changed() -> PcapError {
    PcapError::InvalidField("a refused call changed what is in force")
}

// Takes the section's interface and the packet after it: the blocks, or their headers.
fn next(alloc: Global, are_lent: bool) -> ResultParsing<()> {
    let mut reader = PcapNgReader::new(alloc, Cursor::new(BLOCKS))?;
    take_in_force(&mut reader, 0, are_lent)?;
    take_in_force(&mut reader, 1, are_lent)
}

// Takes a block, or its header. If that is refused, `count` interfaces are current, nothing is lent and nothing more comes.
fn take_in_force<R: Read + Drop>(
    reader: &mut PcapNgReader<R>,
    count: usize,
    is_lent: bool,
) -> ResultParsing<()> {
    if !is_in_force(reader.section(), reader.interfaces(), count) {
        return Err(PcapError::InvalidField("another state is in force"));
    }
    let taken = take(reader, is_lent);
    let is_left = is_in_force(reader.section(), reader.interfaces(), count)
        && (!is_lent || reader.body().is_empty());
    match taken {
        Err(_) if !is_left || !is_over(reader, is_lent) => Err(changed()),
        taken => taken,
    }
}

fn take<R: Read + Drop>(reader: &mut PcapNgReader<R>, is_lent: bool) -> ResultParsing<()> {
    if is_lent {
        came(reader.next_header())
    } else {
        came(reader.next())
    }
}

fn is_over<R: Read + Drop>(reader: &mut PcapNgReader<R>, is_lent: bool) -> bool {
    if is_lent {
        reader.next_header().is_none()
    } else {
        reader.next().is_none()
    }
}

fn parsed(alloc: Global) -> ResultParsing<()> {
    let (rest, mut parser) = PcapNgParser::new(alloc, &BLOCKS)?;
    let (_rest, block) = parser.next_block(rest)?;
    let _body = block.parsed(alloc)?;
    Ok(())
}

fn into_owned(alloc: Global) -> ResultParsing<Block<'static>> {
    let (rest, mut parser) = PcapNgParser::new(alloc, &BLOCKS)?;
    let (_rest, block) = parser.next_block(rest)?;
    block.into_owned(alloc)
}

// Returns a parser after the section and its interface.
fn parser(alloc: Global) -> ResultParsing<PcapNgParser> {
    let (rest, mut parser) = PcapNgParser::new(alloc, &BLOCKS)?;
    let (_rest, _block) = parser.next_block(rest)?;
    Ok(parser)
}

fn next_block(parser: &mut PcapNgParser, slice: &[u8]) -> ResultParsing<()> {
    let (_rest, _block) = parser.next_block(slice)?;
    Ok(())
}

// Makes a parser, or another one if that is refused, and calls it twice for this block.
fn next_blocks(rt: &HostRuntime, name: &str, slice: &[u8]) -> io::Result<()> {
    let (made, parser) = match parser(rt.alloc()) {
        Ok(parser) => (Ok(()), Some(parser)),
        Err(error) => (Err(error), parser(rt.alloc()).ok()),
    };
    tell(rt, "PcapNgParser::new", made)?;
    let (first, second) = match parser {
        None => (
            Err(PcapError::from(AllocError)),
            Err(PcapError::from(AllocError)),
        ),
        Some(mut parser) => {
            let first = next_block(&mut parser, slice);
            let is_left = is_in_force(parser.section(), parser.interfaces(), 1);
            let first = match first {
                Err(_) if !is_left => Err(changed()),
                first => first,
            };
            (first, next_block(&mut parser, slice))
        }
    };
    tell(rt, name, first)?;
    tell(rt, "the same again", second)
}
