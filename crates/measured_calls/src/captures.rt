//! Calls on a classic capture in memory.

use pcap_classic::ResultParsing;
use pcap_classic::pcap::{PcapParser, PcapReader, PcapWriter};
use pcap_classic::run::{Copied, Under, copy_buffered, copy_pcap};
use std::alloc::Global;
use std::io::BufReader;
use test_support::sum_of_passes;

// The size of the reader's buffer for `copy_buffered`, in bytes.
const ROOM: usize = 65536;

// Returns the sum over the values of all passes, or None if no call has this name.
pub(crate) fn passes_of(
    alloc: Global,
    call: &str,
    passes: u64,
    bytes: &[u8],
) -> Option<ResultParsing<u64>> {
    match call {
        "next_packet" => Some(next_packet(passes, bytes)),
        "next" => Some(next(alloc, passes, bytes)),
        "next_header" => Some(next_header(alloc, passes, bytes)),
        "write_packet" => Some(write_packet(alloc, passes, bytes)),
        "copy" => Some(copy(alloc, passes, bytes)),
        "copy_buffered" => Some(copy_out_of_a_buffer(alloc, passes, bytes)),
        "memcpy" => Some(memcpy(alloc, passes, bytes)),
        _ => None,
    }
}

fn next_packet(passes: u64, bytes: &[u8]) -> ResultParsing<u64> {
    let mut sum = 0u64;
    for _ in 0..passes {
        let (mut left, parser) = PcapParser::new(bytes)?;
        for _ in 0..u64::MAX {
            if left.is_empty() {
                break;
            }
            let (rest, packet) = parser.next_packet(left)?;
            sum = sum
                .wrapping_add(u64::from(packet.header.ts_nsec))
                .wrapping_add(packet.data_.len() as u64);
            left = rest;
        }
    }
    Ok(sum)
}

// Returns the length of the next packet.
fn read_one(reader: &mut PcapReader<&[u8]>) -> ResultParsing<Option<u64>> {
    match reader.next() {
        None => Ok(None),
        Some(Err(error)) => Err(error),
        Some(Ok(packet)) => Ok(Some(packet.data_.len() as u64)),
    }
}

fn read_all(alloc: Global, bytes: &[u8]) -> ResultParsing<u64> {
    let mut sum = 0u64;
    let mut reader = PcapReader::new(alloc, bytes)?;
    for _ in 0..u64::MAX {
        match read_one(&mut reader)? {
            None => break,
            Some(n) => sum = sum.wrapping_add(n),
        }
    }
    Ok(sum)
}

fn next(alloc: Global, passes: u64, bytes: &[u8]) -> ResultParsing<u64> {
    sum_of_passes!(passes { read_all(alloc, bytes)? })
}

// Returns the length of the next packet, which is lent.
fn lend_one(reader: &mut PcapReader<&[u8]>) -> ResultParsing<Option<u64>> {
    match reader.next_header() {
        None => Ok(None),
        Some(Err(error)) => Err(error),
        Some(Ok(_header)) => Ok(Some(reader.data().len() as u64)),
    }
}

fn lend_all(alloc: Global, bytes: &[u8]) -> ResultParsing<u64> {
    let mut sum = 0u64;
    let mut reader = PcapReader::new(alloc, bytes)?;
    for _ in 0..u64::MAX {
        match lend_one(&mut reader)? {
            None => break,
            Some(n) => sum = sum.wrapping_add(n),
        }
    }
    Ok(sum)
}

fn next_header(alloc: Global, passes: u64, bytes: &[u8]) -> ResultParsing<u64> {
    sum_of_passes!(passes { lend_all(alloc, bytes)? })
}

fn write_packet(alloc: Global, passes: u64, bytes: &[u8]) -> ResultParsing<u64> {
    let (mut left, parser) = PcapParser::new(bytes)?;
    let mut packets = Vec::new(alloc);
    for _ in 0..u64::MAX {
        if left.is_empty() {
            break;
        }
        let (rest, packet) = parser.next_packet(left)?;
        packets.push(packet)?;
        left = rest;
    }
    let header = *parser.header();
    let mut out: Vec<u8> = Vec::with_capacity(alloc, bytes.len())?;
    sum_of_passes!(passes {
        out.clear();
        {
            let mut writer = PcapWriter::with_header(header, &mut out)?;
            for packet in &packets {
                writer.write_packet(packet)?;
            }
        }
        out.len() as u64
    })
}

fn copy(alloc: Global, passes: u64, bytes: &[u8]) -> ResultParsing<u64> {
    let mut out: Vec<u8> = Vec::with_capacity(alloc, bytes.len())?;
    sum_of_passes!(passes {
        out.clear();
        let mut input = bytes;
        let Copied { fault, .. } = copy_pcap(alloc, &mut input, &mut out, Under::Same, u64::MAX);
        if let Some(error) = fault {
            return Err(error);
        }
        out.len() as u64
    })
}

// Copies the capture through a reader's buffer, which is allocated anew for each pass.
#[inline(never)]
fn copy_out_of_a_buffer(alloc: Global, passes: u64, bytes: &[u8]) -> ResultParsing<u64> {
    let mut out: Vec<u8> = Vec::with_capacity(alloc, bytes.len())?;
    sum_of_passes!(passes {
        out.clear();
        let mut input = BufReader::with_capacity(alloc, ROOM, bytes)?;
        let Copied { fault, .. } = copy_buffered(
            alloc,
            &mut input,
            &mut out,
            Under::Same,
            u64::MAX,
        );
        if let Some(error) = fault {
            return Err(error);
        }
        out.len() as u64
    })
}

// Copies the bytes and does nothing else, as a baseline for all other calls.
fn memcpy(alloc: Global, passes: u64, bytes: &[u8]) -> ResultParsing<u64> {
    let mut out: Vec<u8> = Vec::with_capacity(alloc, bytes.len())?;
    sum_of_passes!(passes {
        out.clear();
        out.extend_from_slice(bytes)?;
        out.len() as u64
    })
}
