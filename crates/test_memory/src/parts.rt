//! Calls on options and records.

use crate::bytes::{COMMENTS, CUSTOM, IPV4, IPV6, IPV6_RECORD, NAMES, UNKNOWN_RECORD};
use crate::tell;
use byteorder::BigEndian;
use pcap_blocks::{
    CustomBinaryOption, CustomUtf8Option, EnhancedPacketOption, Ipv4Record, Ipv6Record,
    PacketOption, Record, UnknownOption, UnknownRecord,
};
use pcap_classic::{PcapError, ResultParsing};
use std::alloc::Global;
use std::io;

pub(crate) fn make_calls(rt: &HostRuntime) -> io::Result<()> {
    let alloc = rt.alloc();
    tell(rt, "custom bytes", custom_bytes(alloc))?;
    tell(rt, "custom text", custom_text(alloc))?;
    tell(rt, "unknown option", unknown_option(alloc))?;
    tell(rt, "options of an enhanced packet", enhanced_options(alloc))?;
    tell(rt, "options of a packet", packet_options(alloc))?;
    tell(rt, "names of four bytes", ipv4(alloc))?;
    tell(rt, "names of 16 bytes", ipv6(alloc))?;
    tell(rt, "record of four bytes", record(alloc, &NAMES))?;
    tell(rt, "record of 16 bytes", record(alloc, &IPV6_RECORD))?;
    tell(rt, "unknown record", unknown_record(alloc))
}

fn custom_bytes(alloc: Global) -> ResultParsing<CustomBinaryOption<'static>> {
    let option = CustomBinaryOption::from_slice::<BigEndian>(2989, &CUSTOM)?;
    option.into_owned(alloc)
}

fn custom_text(alloc: Global) -> ResultParsing<CustomUtf8Option<'static>> {
    let option = CustomUtf8Option::from_slice::<BigEndian>(2988, &CUSTOM)?;
    option.into_owned(alloc)
}

fn unknown_option(alloc: Global) -> ResultParsing<UnknownOption<'static>> {
    UnknownOption::new(99, 6, &CUSTOM).into_owned(alloc)
}

fn enhanced_options(alloc: Global) -> ResultParsing<()> {
    let (_rest, options) = EnhancedPacketOption::from_slice::<BigEndian>(alloc, &COMMENTS)?;
    for option in options {
        let _option = option.into_owned(alloc)?;
    }
    Ok(())
}

fn packet_options(alloc: Global) -> ResultParsing<()> {
    let (_rest, options) = PacketOption::from_slice::<BigEndian>(alloc, &COMMENTS)?;
    for option in options {
        let _option = option.into_owned(alloc)?;
    }
    Ok(())
}

fn ipv4(alloc: Global) -> ResultParsing<Ipv4Record<'static>> {
    Ipv4Record::from_slice(alloc, &IPV4)?.into_owned(alloc)
}

fn ipv6(alloc: Global) -> ResultParsing<Ipv6Record<'static>> {
    Ipv6Record::from_slice(alloc, &IPV6)?.into_owned(alloc)
}

fn record(alloc: Global, bytes: &[u8]) -> ResultParsing<Record<'static>> {
    let (_rest, record) = Record::from_slice::<BigEndian>(alloc, bytes)?;
    record.into_owned(alloc)
}

fn unknown_record(alloc: Global) -> ResultParsing<UnknownRecord<'static>> {
    let (_rest, record) = Record::from_slice::<BigEndian>(alloc, &UNKNOWN_RECORD)?;
    match record {
        Record::Unknown(record) => record.into_owned(alloc),
        _ => Err(PcapError::InvalidField("it is of a known type")),
    }
}
