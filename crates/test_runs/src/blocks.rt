//! Runs over PcapNg captures.

use crate::pieces::{cut, push_numbers};
use crate::texts::{push_fault, push_refusal, push_rest};
use pcap_file::pcapng::{Block, BlockType, InterfaceDescriptionBlock, SectionHeaderBlock};
use pcap_file::run::{
    NgRun, Window, exact_pcapng, parse_pcapng, pieces_fit, pieces_pcapng, read_pcapng,
};
use pcap_file::{Endianness, PcapError, PcapNgParser, ResultParsing};
use std::alloc::Global;
use test_support::captures::back;
use test_support::readers::Halting;

pub(crate) fn parse(alloc: Global, bytes: &[u8], told: &mut String) -> ResultParsing<()> {
    match parse_pcapng(alloc, bytes) {
        Ok(run) => push_run(alloc, told, &run),
        Err(error) => push_refusal(told, &error),
    }
}

pub(crate) fn exact(alloc: Global, bytes: &[u8], told: &mut String) -> ResultParsing<()> {
    match exact_pcapng(alloc, &mut Window::new(bytes)) {
        Ok((run, requests)) => {
            push_run(alloc, told, &run)?;
            write!(told, " requests {requests}")?;
            let made = count_requests(alloc, bytes);
            if made != requests {
                write!(told, " where a caller makes {made}")?;
            }
            Ok(())
        }
        Err(error) => push_refusal(told, &error),
    }
}

// Returns how many requests the parser makes of a caller who supplies exactly the bytes requested.
fn count_requests(alloc: Global, bytes: &[u8]) -> u64 {
    let mut window = Window::new(bytes);
    let shown = window.ask(12);
    let Some(first) = missing_of_first(alloc, window.seen()) else {
        return 1;
    };
    if shown < 12 || window.ask(first) < first {
        return 2;
    }
    let Some(mut parser) = parser_of(alloc, window.seen()) else {
        return 2;
    };
    let mut requests = 2u64;
    let mut used = window.seen().len();
    for _turn in 0..u64::MAX {
        let held = back(window.seen(), used);
        if held.is_empty() && window.is_done() {
            return requests;
        }
        match missing_of(&mut parser, held) {
            Some(0) => used = window.seen().len(),
            Some(n) => {
                requests = requests.saturating_add(1);
                if window.ask(n) < n {
                    return requests;
                }
            }
            None => return requests,
        }
    }
    requests
}

// Returns how many bytes of the first block are missing, or None if it is refused.
fn missing_of_first(alloc: Global, bytes: &[u8]) -> Option<usize> {
    match PcapNgParser::new(alloc, bytes) {
        Ok(_) => Some(0),
        Err(PcapError::IncompleteBuffer(n)) => Some(n),
        Err(_) => None,
    }
}

fn parser_of(alloc: Global, bytes: &[u8]) -> Option<PcapNgParser> {
    match PcapNgParser::new(alloc, bytes) {
        Ok((_rest, parser)) => Some(parser),
        Err(_) => None,
    }
}

// Returns how many bytes of a block are missing: 0 if it is whole, None if it is refused.
fn missing_of(parser: &mut PcapNgParser, held: &[u8]) -> Option<usize> {
    match parser.next_block(held) {
        Ok(_) => Some(0),
        Err(PcapError::IncompleteBuffer(n)) => Some(n),
        Err(_) => None,
    }
}

pub(crate) fn pieces(
    alloc: Global,
    bytes: &[u8],
    cuts: &str,
    told: &mut String,
) -> ResultParsing<()> {
    let pieces = cut(alloc, bytes, cuts)?;
    if !pieces_fit(pieces.as_slice()) {
        return Ok(());
    }
    match pieces_pcapng(alloc, pieces.as_slice()) {
        Ok((run, numbers)) => {
            push_run(alloc, told, &run)?;
            push_numbers(told, numbers.as_slice())
        }
        Err(error) => push_refusal(told, &error),
    }
}

fn push_run(alloc: Global, told: &mut String, run: &NgRun) -> ResultParsing<()> {
    push_blocks(alloc, told, run.blocks.as_slice())?;
    push_state(told, run.parser.section(), run.parser.interfaces())?;
    push_rest(told, run.used, &run.rest)
}

pub(crate) fn read(alloc: Global, bytes: &[u8], most: u64, told: &mut String) -> ResultParsing<()> {
    read_by(alloc, Halting::new(alloc, bytes, usize::MAX)?, most, told)?;
    let mut slowly = String::new(alloc);
    read_by(alloc, Halting::new(alloc, bytes, 3)?, most, &mut slowly)?;
    if slowly.as_str() != told.as_str() {
        write!(told, " by short reads {slowly}")?;
    }
    Ok(())
}

fn read_by(alloc: Global, stream: Halting, most: u64, told: &mut String) -> ResultParsing<()> {
    match read_pcapng(alloc, stream, most) {
        Ok(read) => {
            push_blocks(alloc, told, read.blocks.as_slice())?;
            push_state(told, read.reader.section(), read.reader.interfaces())?;
            push_fault(told, &read.fault)
        }
        Err(error) => push_refusal(told, &error),
    }
}

fn push_blocks(alloc: Global, told: &mut String, blocks: &[Block]) -> ResultParsing<()> {
    write!(told, "blocks")?;
    for block in blocks {
        write!(told, " ")?;
        push_kind(told, block.type_)?;
        write!(
            told,
            ":{}:{}:",
            block.initial_len,
            order(block.endianness())
        )?;
        match block.parsed(alloc) {
            Ok(_body) => write!(told, "ok")?,
            Err(error) => {
                let mut refusal = String::new(alloc);
                push_refusal(&mut refusal, &error)?;
                push_word(told, refusal.as_str())?;
            }
        }
    }
    Ok(())
}

fn push_kind(told: &mut String, type_: BlockType) -> ResultParsing<()> {
    match type_ {
        BlockType::SectionHeader => write!(told, "section")?,
        BlockType::InterfaceDescription => write!(told, "interface")?,
        BlockType::Packet => write!(told, "packet")?,
        BlockType::SimplePacket => write!(told, "simple")?,
        BlockType::NameResolution => write!(told, "names")?,
        BlockType::InterfaceStatistics => write!(told, "statistics")?,
        BlockType::EnhancedPacket => write!(told, "enhanced")?,
        BlockType::SystemdJournalExport => write!(told, "journal")?,
        BlockType::Unknown(number) => write!(told, "unknown_{number}")?,
    }
    Ok(())
}

// Appends a text as one word, without spaces and colons.
fn push_word(told: &mut String, text: &str) -> ResultParsing<()> {
    for letter in text.chars() {
        match letter {
            ' ' => told.push('_')?,
            ':' => told.push(';')?,
            letter => told.push(letter)?,
        }
    }
    Ok(())
}

fn push_state(
    told: &mut String,
    section: &SectionHeaderBlock,
    interfaces: &[InterfaceDescriptionBlock],
) -> ResultParsing<()> {
    let order = if section.has_valid_magic() {
        order(section.endianness())
    } else {
        "none"
    };
    write!(
        told,
        " section {order} {}.{} interfaces",
        section.major_version, section.minor_version
    )?;
    for interface in interfaces {
        write!(told, " {:?}:{}", interface.linktype, interface.snaplen)?;
    }
    Ok(())
}

fn order(endianness: Endianness) -> &'static str {
    match endianness {
        Endianness::Big => "big",
        Endianness::Little => "little",
    }
}
