//! Runs over classic captures.

use crate::pieces::{cut, push_numbers};
use crate::texts::{push_bytes, push_fault, push_refusal, push_rest};
use pcap_file::pcap::{Packet, PcapParser};
use pcap_file::run::{PcapRun, Window, exact_pcap, parse_pcap, pieces_fit, pieces_pcap, read_pcap};
use pcap_file::{PcapError, ResultParsing};
use std::alloc::Global;
use test_support::captures::{back, front};
use test_support::readers::Halting;

pub(crate) fn parse(alloc: Global, bytes: &[u8], told: &mut String) -> ResultParsing<()> {
    match parse_pcap(alloc, bytes) {
        Ok(run) => push_run(told, &run),
        Err(error) => push_refusal(told, &error),
    }
}

pub(crate) fn exact(alloc: Global, bytes: &[u8], told: &mut String) -> ResultParsing<()> {
    match exact_pcap(alloc, &mut Window::new(bytes)) {
        Ok((run, requests)) => {
            push_run(told, &run)?;
            write!(told, " requests {requests}")?;
            let made = count_requests(bytes);
            if made != requests {
                write!(told, " where a caller makes {made}")?;
            }
            Ok(())
        }
        Err(error) => push_refusal(told, &error),
    }
}

// Returns how many requests the parser makes of a caller who supplies exactly the bytes requested.
fn count_requests(bytes: &[u8]) -> u64 {
    let mut window = Window::new(bytes);
    let shown = window.ask(24);
    let Some(parser) = parser_of(front(bytes, shown)) else {
        return 1;
    };
    let mut requests = 1u64;
    let mut used = 24;
    for _turn in 0..u64::MAX {
        let held = back(window.seen(), used);
        if held.is_empty() && window.is_done() {
            return requests;
        }
        match missing_of(&parser, held) {
            Some(0) => used = window.seen().len(),
            Some(n) => {
                requests = requests.saturating_add(1);
                if window.ask(n) < n {
                    return requests;
                }
            }
            None => return requests,
        }
    }
    requests
}

fn parser_of(bytes: &[u8]) -> Option<PcapParser> {
    match PcapParser::new(bytes) {
        Ok((_rest, parser)) => Some(parser),
        Err(_) => None,
    }
}

// Returns how many bytes of a packet are missing: 0 if it is whole, None if it is refused.
fn missing_of(parser: &PcapParser, held: &[u8]) -> Option<usize> {
    match parser.next_packet(held) {
        Ok(_) => Some(0),
        Err(PcapError::IncompleteBuffer(n)) => Some(n),
        Err(_) => None,
    }
}

pub(crate) fn pieces(
    alloc: Global,
    bytes: &[u8],
    cuts: &str,
    told: &mut String,
) -> ResultParsing<()> {
    let pieces = cut(alloc, bytes, cuts)?;
    if !pieces_fit(pieces.as_slice()) {
        return Ok(());
    }
    match pieces_pcap(alloc, pieces.as_slice()) {
        Ok((run, numbers)) => {
            push_run(told, &run)?;
            push_numbers(told, numbers.as_slice())
        }
        Err(error) => push_refusal(told, &error),
    }
}

pub(crate) fn read(alloc: Global, bytes: &[u8], most: u64, told: &mut String) -> ResultParsing<()> {
    read_by(alloc, Halting::new(alloc, bytes, usize::MAX)?, most, told)?;
    let mut slowly = String::new(alloc);
    read_by(alloc, Halting::new(alloc, bytes, 3)?, most, &mut slowly)?;
    if slowly.as_str() != told.as_str() {
        write!(told, " by short reads {slowly}")?;
    }
    Ok(())
}

fn read_by(alloc: Global, stream: Halting, most: u64, told: &mut String) -> ResultParsing<()> {
    match read_pcap(alloc, stream, most) {
        Ok(read) => {
            push_packets(told, read.packets.as_slice())?;
            push_fault(told, &read.fault)
        }
        Err(error) => push_refusal(told, &error),
    }
}

fn push_run(told: &mut String, run: &PcapRun) -> ResultParsing<()> {
    push_packets(told, run.packets.as_slice())?;
    push_rest(told, run.used, &run.rest)
}

fn push_packets(told: &mut String, packets: &[Packet]) -> ResultParsing<()> {
    write!(told, "packets")?;
    for packet in packets {
        let header = packet.header;
        write!(
            told,
            " {}.{}:{}:{}:",
            header.ts_sec, header.ts_nsec, header.incl_len, header.orig_len
        )?;
        push_bytes(told, packet.data_.as_slice())?;
    }
    Ok(())
}
