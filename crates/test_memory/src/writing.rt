//! Calls that write captures. Each time, a beginning of the right bytes is written, and all of them if no memory is refused.

use crate::bytes::{BLOCKS, CAPTURE, CONVERTED, PACKETS, WRITTEN};
use crate::{tell, without};
use pcap_file::pcap::PcapHeader;
use pcap_file::pcapng::ParsedBlock;
use pcap_file::run::{
    Copied, IfUnplaced, NgConverted, NgCopied, convert_to_pcap, convert_to_pcapng,
    copy_pcapng_buffered,
};
use pcap_file::{PcapError, PcapNgParser, PcapNgReader, PcapNgWriter, PcapWriter, ResultParsing};
use std::alloc::Global;
use std::io;

pub(crate) fn make_calls(rt: &HostRuntime) -> io::Result<()> {
    let alloc = rt.alloc();
    tell(rt, "PcapNgWriter::write_block", write(alloc))?;
    tell(rt, "copy_pcapng_buffered", copy_shown(alloc))?;
    tell(rt, "convert_to_pcapng", convert(alloc))?;
    tell(rt, "convert_to_pcap", place(alloc))
}

// Returns how a call ended, with or without this fault, after it wrote these bytes.
fn ended(fault: Option<PcapError>, out: &[u8], wanted: &[u8]) -> ResultParsing<()> {
    if !wanted.starts_with(out) {
        return Err(PcapError::InvalidField("no beginning went out"));
    }
    match fault {
        Some(error) => Err(error),
        None if out.len() < wanted.len() => Err(PcapError::InvalidField("not all went out")),
        None => Ok(()),
    }
}

fn write(alloc: Global) -> ResultParsing<()> {
    let mut out = Vec::with_capacity(alloc, WRITTEN.len())?;
    let fault = write_blocks(alloc, &mut out).err();
    ended(fault, out.as_slice(), &WRITTEN)
}

// Writes a section, an interface and a packet from their values, with their options.
fn write_blocks(alloc: Global, out: &mut Vec<u8>) -> ResultParsing<()> {
    let (mut left, mut parser) = PcapNgParser::new(alloc, &BLOCKS)?;
    let mut writer = PcapNgWriter::with_section_header(alloc, parser.section(), out)?;
    for _block in 0..2 {
        let (rest, block) = parser.next_block(left)?;
        write_block(&mut writer, &block.parsed(alloc)?)?;
        left = rest;
    }
    Ok(())
}

// Writes a block. If that is refused, the writer is as before, and the same call continues from there.
fn write_block(
    writer: &mut PcapNgWriter<&mut Vec<u8>>,
    block: &ParsedBlock<'_>,
) -> ResultParsing<()> {
    let (gone, interfaces) = (writer.get_ref().len(), writer.interfaces());
    let Err(error) = writer.write_block(block) else {
        return Ok(());
    };
    if writer.failed() || writer.get_ref().len() != gone || writer.interfaces() != interfaces {
        return Err(PcapError::InvalidField("a refused block changed the writer"));
    }
    writer.write_block(block)?;
    Err(error)
}

fn copy_shown(alloc: Global) -> ResultParsing<()> {
    let mut out = Vec::with_capacity(alloc, BLOCKS.len())?;
    let mut input: &[u8] = &BLOCKS;
    let NgCopied { fault, .. } = copy_pcapng_buffered(alloc, &mut input, &mut out, 9);
    ended(fault, out.as_slice(), &BLOCKS)
}

fn convert(alloc: Global) -> ResultParsing<()> {
    let mut out = Vec::with_capacity(alloc, CONVERTED.len())?;
    let mut input: &[u8] = &CAPTURE;
    let Copied { fault, .. } = convert_to_pcapng(alloc, &mut input, &mut out, 9);
    ended(fault, out.as_slice(), &CONVERTED)
}

fn place(alloc: Global) -> ResultParsing<()> {
    let (_packet, header) = PcapHeader::from_slice(&CAPTURE)?;
    let mut out = Vec::with_capacity(alloc, PACKETS.len())?;
    let fault = place_blocks(alloc, header, &mut out).err();
    ended(fault, out.as_slice(), &PACKETS)
}

// Converts the blocks after a header of a classic capture.
fn place_blocks(alloc: Global, header: PcapHeader, out: &mut Vec<u8>) -> ResultParsing<()> {
    let mut writer = PcapWriter::with_header(header, out)?;
    let mut reader = PcapNgReader::new(alloc, BLOCKS.as_slice())?;
    let refuse = IfUnplaced::Refuse;
    let NgConverted { fault, .. } = convert_to_pcap(alloc, &mut reader, &mut writer, refuse, 9);
    without(fault)
}
