//! Calls on slices.

use crate::calls::filled;
use crate::errors::is_shown;
use byteorder::BigEndian;
use pcap_classic::pcap::{Packet, PacketHeader, PcapHeader, PcapParser};
use pcap_classic::run::{PcapRun, Rest, parse_pcap};
use pcap_classic::{CowBytes, DataLink, Endianness, PcapError, ResultParsing, TsResolution};
use std::alloc::{AllocError, Global};
use std::test::Fail;
use test_support::captures::{BIG_HEAD, LITTLE_HEAD, back, big, capture, front, pattern};
use test_support::rows::every_row;

// Returns whether a call that ended so lacks this many bytes.
fn lacks(error: &Option<PcapError>, n: usize) -> bool {
    match error {
        Some(PcapError::IncompleteBuffer(lack)) => *lack == n,
        _ => false,
    }
}

// Returns whether a parser of the capture requests its packet's header, and then the data.
fn asks(bytes: &[u8]) -> bool {
    match PcapParser::new(bytes) {
        Ok((rest, parser)) => {
            rest.len() == 114
                && parser.header().snaplen == 65535
                && lacks(&parser.next_packet(&[]).err(), 16)
                && lacks(&parser.next_packet(front(rest, 16)).err(), 98)
        }
        Err(_) => false,
    }
}

#[test]
fn requests(rt: HostRuntime) -> Result<(), Fail> {
    assert!(rt; lacks(&PcapHeader::from_slice(front(&BIG_HEAD, 23)).err(), 1));
    assert!(rt; lacks(&PcapParser::new(&[]).err(), 24));
    assert!(rt; lacks(&PcapParser::new(&[7; 10]).err(), 14));
    let bytes = big(rt.alloc())?;
    assert!(rt; asks(bytes.as_slice()));
    Ok(())
}

// Returns whether this is the run over the first `end` bytes of the big-endian capture.
fn is_run_of_beginning(run: &ResultParsing<PcapRun>, end: usize) -> bool {
    match run {
        Err(PcapError::IncompleteBuffer(n)) => end < 24 && *n == 24 - end,
        Err(_) => false,
        Ok(run) => match run.rest {
            Rest::Clean => run.used == end && (end == 24 || end == 138),
            Rest::Needs(n) if end < 40 => run.used == 24 && n == 40 - end,
            Rest::Needs(n) => run.used == 24 && end < 138 && n == 138 - end,
            Rest::Refused(_) => false,
        },
    }
}

#[test]
fn every_beginning(rt: HostRuntime) -> Result<(), Fail> {
    let bytes = big(rt.alloc())?;
    for end in 0..139 {
        let beginning = front(bytes.as_slice(), end);
        assert!(rt;
            is_run_of_beginning(&parse_pcap(rt.alloc(), beginning), end),
            "at {end}"
        );
    }
    Ok(())
}

// The fields of a capture's header and of its packet's header.
#[derive(Clone, Copy)]
struct Said {
    endianness: Endianness,
    snaplen: u32,
    packet: PacketHeader,
}

// Returns whether a run over these bytes has one packet, and the headers have these fields.
fn is_run(run: &PcapRun, bytes: &[u8], said: Said) -> bool {
    let header = &run.header;
    let is_header = header.has_valid_magic()
        && header.endianness() == said.endianness
        && header.ts_resolution() == TsResolution::MicroSecond
        && header.snaplen == said.snaplen
        && header.datalink == DataLink::ETHERNET;
    let is_whole = run.used == bytes.len() && matches!(run.rest, Rest::Clean);
    let is_packet = match run.packets.as_slice() {
        [packet] => is_lent(packet, said.packet, back(bytes, 40)),
        _ => false,
    };
    is_header && is_whole && is_packet
}

// Returns whether a packet has this header, and lends these bytes.
fn is_lent(packet: &Packet<'_>, header: PacketHeader, bytes: &[u8]) -> bool {
    packet.header == header && packet.data_.is_borrowed() && packet.data_.as_slice() == bytes
}

fn is_whole(alloc: Global, bytes: &[u8], said: Said) -> bool {
    matches!(&parse_pcap(alloc, bytes), Ok(run) if is_run(run, bytes, said))
}

#[test]
fn whole_captures(rt: HostRuntime) -> Result<(), Fail> {
    let big = Said {
        endianness: Endianness::Big,
        snaplen: 65535,
        packet: PacketHeader::new(0x4fa11b29, 152_630_000, 0x62, 0x62),
    };
    let little = Said {
        endianness: Endianness::Little,
        snaplen: 0x1000,
        packet: PacketHeader::new(0x4f633248, 0, 0x75, 0x75),
    };
    for (head, end, said) in [(&BIG_HEAD, 98, big), (&LITTLE_HEAD, 117, little)] {
        let bytes = capture(rt.alloc(), head, end)?;
        assert!(rt; is_whole(rt.alloc(), bytes.as_slice(), said), "{end} bytes");
    }
    Ok(())
}

// Formats the packet of these bytes with its time and the bytes after it, or the error.
fn packet(alloc: Global, bytes: &[u8]) -> Result<String, Fail> {
    match Packet::from_slice::<BigEndian>(bytes, TsResolution::MicroSecond) {
        Ok((rest, packet)) => {
            let header = packet.header;
            let time = header.timestamp();
            let (seconds, nanoseconds) = (time.as_secs(), time.subsec_nanos());
            let data = packet.data_.as_slice();
            Ok(format!(in alloc; "{header:?} {data:?} {rest:?} at {seconds} {nanoseconds}")?)
        }
        Err(error) => Ok(format!(in alloc; "{error:?}")?),
    }
}

#[test]
fn heads_of_packets(rt: HostRuntime) -> Result<(), Fail> {
    let table = r#"
        00000000 00418938 00010000 00010000 => InvalidField("PacketHeader ts_usec * 1000 > 0xFFFFFFFF")
        00000000 00418938 00040001 00040001 => InvalidField("PacketHeader ts_usec * 1000 > 0xFFFFFFFF")
        00000000 00000000 00000062 00000061 => InvalidField("PacketHeader incl_len > orig_len")
        00000000 00000000 00010000 00000000 => InvalidField("PacketHeader incl_len > orig_len")
        00000000 00000000 00040001 00000000 => InvalidField("PacketHeader incl_len > 0x40000")
        00000000 00000000 00040001 00040001 => InvalidField("PacketHeader incl_len > 0x40000")
        00000000 00000000 00000000 00040001 => InvalidField("PacketHeader orig_len > 0x40000")
        00000000 00000000 00010000 00010000 => IncompleteBuffer(65536)
        00000000 00000000 00040000 00040000 => IncompleteBuffer(262144)
        00000000 00418937 00000000 00000000 => PacketHeader { ts_sec: 0, ts_nsec: 4294967000, incl_len: 0, orig_len: 0 } [] [] at 4 294967000
        00000000 00000000 00000000 00010000 => PacketHeader { ts_sec: 0, ts_nsec: 0, incl_len: 0, orig_len: 65536 } [] [] at 0 0
    "#;
    every_row(rt.alloc(), table, packet)
}

#[test]
fn default_headers(rt: HostRuntime) {
    assert!(rt; PacketHeader::default() == PacketHeader::new(0, 0, 0, 0));
}

// Returns whether a packet has a header with this stored length, and owns these bytes.
fn is_own(own: &Packet<'_>, incl_len: u32, bytes: &[u8]) -> bool {
    own.header == PacketHeader::new(1, 2, incl_len, 3)
        && !own.data_.is_borrowed()
        && own.data_.as_slice() == bytes
}

// Returns whether a packet with these bytes and this stated length owns them: as a copy, and if it is given the bytes themselves.
fn owns(alloc: Global, incl_len: u32, bytes: &[u8]) -> ResultParsing<bool> {
    let packet = Packet {
        header: PacketHeader::new(1, 2, incl_len, 3),
        data_: CowBytes::Borrowed(bytes),
    };
    let is_copied = is_own(&packet.to_owned(alloc)?, incl_len, bytes);
    let is_given = is_own(&packet.into_owned(alloc)?, incl_len, bytes);
    Ok(is_copied && is_given)
}

#[test]
fn owned_packets(rt: HostRuntime) -> Result<(), Fail> {
    let pattern = pattern(rt.alloc(), 262_144)?;
    // the stated length, and the length of the data
    for (incl_len, len) in [
        (9, 2),
        (0, 5),
        (u32::MAX, 0),
        (65_535, 65_535),
        (65_537, 65_537),
        (262_144, 262_144),
    ] {
        let bytes = front(pattern.as_slice(), len);
        assert!(rt; owns(rt.alloc(), incl_len, bytes)?, "{len} bytes");
    }
    Ok(())
}

// Returns whether the clone of a packet has the same header and the same bytes, held in the same way.
fn is_cloned(packet: &Packet<'_>) -> Result<bool, AllocError> {
    let clone = packet.clone()?;
    let is_held = packet.data_.is_borrowed() == clone.data_.is_borrowed();
    let is_same = packet.data_.as_slice() == clone.data_.as_slice();
    Ok(is_held && is_same && packet.header == clone.header)
}

#[test]
fn clones(rt: HostRuntime) -> Result<(), Fail> {
    let header = PacketHeader::new(1, 2, 3, 4);
    let data_ = CowBytes::Owned(Vec::from_slice(rt.alloc(), &[5, 6])?);
    assert!(rt; is_cloned(&Packet { header, data_ })?);
    let data_ = CowBytes::Borrowed(&[5, 6]);
    assert!(rt; is_cloned(&Packet { header, data_ })?);
    Ok(())
}

// Returns whether the number of a row is that of the row's link type, in both directions.
fn is_link(alloc: Global, row: &str) -> bool {
    let (number, name) = row.split_once(" => ").unwrap_or((row, ""));
    match number.trim().parse::<u32>() {
        Ok(number) => {
            let link = DataLink::from(number);
            u32::from(link) == number && is_shown(alloc, &link, name)
        }
        Err(_) => false,
    }
}

#[test]
fn link_types(rt: HostRuntime) -> Result<(), Fail> {
    let table = "
        0 => NULL
        1 => ETHERNET
        2 => Unknown(2)
        113 => LINUX_SLL
        162 => USER15
        268 => SDLC
        269 => Unknown(269)
    ";
    for row in filled(table)?.lines() {
        assert!(rt; is_link(rt.alloc(), row), "{row}");
    }
    assert!(rt;
        DataLink::from(269) == DataLink::Unknown(269) && DataLink::from(162) == DataLink::USER15
    );
    assert!(rt; DataLink::Unknown(1) != DataLink::ETHERNET);
    assert!(rt; u32::from(DataLink::Unknown(1)) == 1);
    assert!(rt; Endianness::new::<BigEndian>() == Endianness::Big);
    Ok(())
}
