//! Replays calls on slices. Each line of the input is a call, the byte order, the timestamp resolution, an option's code and a slice in
//! hexadecimal digits, separated by bars. Each line of the output is the result: the remainder and the value, how many bytes the slice
//! lacks, or the error.
//!
//! The calls of `stdin` were drawn at random. `tests/model/run` makes `stdout` with a model of the formats that shares no code with this
//! program.
#![tactic(auto)]

mod framed;

use byteorder::{BigEndian, ByteOrder, LittleEndian};
use framed::{parsed, refusal};
use pcap_file::pcap::{Packet, PacketHeader, PcapHeader};
use pcap_file::pcapng::{
    BlockType, CustomBinaryOption, CustomUtf8Option, EnhancedPacketOption, Ipv4Record, Ipv6Record,
    PacketOption, Record, str_from_u8_null_terminated,
};
use pcap_file::{PcapError, TsResolution};
use std::io;

fn main(rt: HostRuntime) -> io::Result<()> {
    for line in rt.lines(rt.alloc()) {
        let line = line?;
        let Some((call, rest)) = line.as_str().split_once('|') else {
            continue;
        };
        let Some((order, rest)) = rest.split_once('|') else {
            continue;
        };
        let Some((resolution, rest)) = rest.split_once('|') else {
            continue;
        };
        let Some((code, digits)) = rest.split_once('|') else {
            continue;
        };
        let resolution = match resolution {
            "nano" => TsResolution::NanoSecond,
            _ => TsResolution::MicroSecond,
        };
        if let (Ok(code), Ok(slice)) = (code.parse::<u16>(), hex::decode(rt.alloc(), digits)) {
            if order == "big" {
                replay::<BigEndian>(&rt, call, resolution, code, slice.as_slice())?;
            } else {
                replay::<LittleEndian>(&rt, call, resolution, code, slice.as_slice())?;
            }
        }
    }
    Ok(())
}

// Prints the result of a call.
fn replay<B: ByteOrder>(
    rt: &HostRuntime,
    call: &str,
    resolution: TsResolution,
    code: u16,
    slice: &[u8],
) -> io::Result<()> {
    if let Some(name) = call.strip_prefix("ParsedBlock::from_slice ") {
        return replay_body::<B>(rt, name, slice);
    }
    match call {
        "PcapHeader::from_slice" => match PcapHeader::from_slice(slice) {
            Ok((rest, header)) => println!(rt; "ok {rest:?} {header:?}"),
            Err(error) => refused(rt, error),
        },
        "PacketHeader::from_slice" => match PacketHeader::from_slice::<B>(slice, resolution) {
            Ok((rest, header)) => println!(rt; "ok {rest:?} {header:?}"),
            Err(error) => refused(rt, error),
        },
        "Packet::from_slice" => match Packet::from_slice::<B>(slice, resolution) {
            Ok((rest, packet)) => println!(rt; "ok {rest:?} {packet:?}"),
            Err(error) => refused(rt, error),
        },
        _ => replay_options::<B>(rt, call, code, slice),
    }
}

// Does the same for a call that reads options.
fn replay_options<B: ByteOrder>(
    rt: &HostRuntime,
    call: &str,
    code: u16,
    slice: &[u8],
) -> io::Result<()> {
    match call {
        "CustomBinaryOption::from_slice" => match CustomBinaryOption::from_slice::<B>(code, slice) {
            Ok(option) => println!(rt; "ok [] {option:?}"),
            Err(error) => refused(rt, error),
        },
        "CustomUtf8Option::from_slice" => match CustomUtf8Option::from_slice::<B>(code, slice) {
            Ok(option) => println!(rt; "ok [] {option:?}"),
            Err(error) => refused(rt, error),
        },
        "EnhancedPacketOption::from_slice" => match EnhancedPacketOption::from_slice::<B>(
            rt.alloc(),
            slice,
        ) {
            Ok((rest, options)) => println!(rt; "ok {rest:?} {options:?}"),
            Err(error) => refused(rt, error),
        },
        "PacketOption::from_slice" => match PacketOption::from_slice::<B>(rt.alloc(), slice) {
            Ok((rest, options)) => println!(rt; "ok {rest:?} {options:?}"),
            Err(error) => refused(rt, error),
        },
        _ => replay_record::<B>(rt, call, slice),
    }
}

// Does the same for a call that reads names or records.
fn replay_record<B: ByteOrder>(rt: &HostRuntime, call: &str, slice: &[u8]) -> io::Result<()> {
    match call {
        "Ipv4Record::from_slice" => match Ipv4Record::from_slice(rt.alloc(), slice) {
            Ok(record) => println!(rt; "ok [] {record:?}"),
            Err(error) => refused(rt, error),
        },
        "Ipv6Record::from_slice" => match Ipv6Record::from_slice(rt.alloc(), slice) {
            Ok(record) => println!(rt; "ok [] {record:?}"),
            Err(error) => refused(rt, error),
        },
        "Record::from_slice" => match Record::from_slice::<B>(rt.alloc(), slice) {
            Ok((rest, record)) => println!(rt; "ok {rest:?} {record:?}"),
            Err(error) => refused(rt, error),
        },
        "str_from_u8_null_terminated" => match str_from_u8_null_terminated(slice) {
            Ok((rest, text)) => println!(rt; "ok {rest:?} {text:?}"),
            Err(error) => refused(rt, error),
        },
        _ => println!(rt; "no such call"),
    }
}

// Does the same for a body of this type. Its block in a capture must give the same value.
fn replay_body<B: ByteOrder>(rt: &HostRuntime, name: &str, slice: &[u8]) -> io::Result<()> {
    let (type_, number) = match name {
        "SectionHeader" => (BlockType::SectionHeader, 0x0a0d0d0a),
        "InterfaceDescription" => (BlockType::InterfaceDescription, 1),
        "Packet" => (BlockType::Packet, 2),
        "SimplePacket" => (BlockType::SimplePacket, 3),
        "NameResolution" => (BlockType::NameResolution, 4),
        "InterfaceStatistics" => (BlockType::InterfaceStatistics, 5),
        "EnhancedPacket" => (BlockType::EnhancedPacket, 6),
        "SystemdJournalExport" => (BlockType::SystemdJournalExport, 9),
        _ => (BlockType::Unknown(77), 77),
    };
    match parsed::<B>(rt.alloc(), type_, number, slice) {
        Ok(told) => println!(rt; "{told}"),
        Err(error) => refused(rt, error),
    }
}

fn refused(rt: &HostRuntime, error: PcapError) -> io::Result<()> {
    match refusal(rt.alloc(), &error) {
        Ok(told) => println!(rt; "{told}"),
        Err(_) => println!(rt; "out of memory"),
    }
}
