//! Classic captures whose header has more than a link type in its field, as the length of frame check sequences.

ghost use Rattle.std.specs.Prelude.{None};

use crate::opening::interface_under;
use pcap_file::pcap::PcapHeader;
use pcap_file::pcapng::PcapNgWriter;
use pcap_file::{LinkField, PcapReader, ResultParsing};
use std::alloc::Global;
use std::io;
use std::io::{Read, Write};

/// The length of the header of a classic capture, in bytes.
pub(crate) const HEADER: usize = 24;

/// The number above all link types that an interface can have.
const LINK_TYPES: u32 = 65536;

/// The bit of the field that says that it has a length of frame check sequences.
const HAS_FCS_LEN: u32 = 1 << 26;

/// The place of that length in the field. It counts units of two bytes.
const FCS_LEN_AT: u32 = 28;

/// The nanoseconds in a second.
const SECOND: u64 = 1_000_000_000;

/// A capture whose header was read, and is read again from here.
#[derive(Drop)]
pub(crate) struct Again<R> {
    header: [u8; HEADER],
    /// How many bytes of the header were read again.
    passed: usize,
    rest: R,
}

impl<R> Again<R> {
    /// Returns the capture of this header and of the bytes after it.
    pub(crate) fn new(header: [u8; HEADER], rest: R) -> Again<R> {
        Again {
            header,
            passed: 0,
            rest,
        }
    }
}

impl<R: Read> Read for Again<R> {
    ghost remaining = { λ capture. None };

    fn read(&mut self, buf: &mut [u8]) -> io::Result<usize> {
        let Some(left) = self.header.get(self.passed..) else {
            return self.rest.read(buf);
        };
        if left.is_empty() {
            return self.rest.read(buf);
        }
        let count = left.len().min(buf.len());
        buf[..count].copy_from_slice(&left[..count]);
        self.passed = self.passed.saturating_add(count);
        Ok(count)
    }
}

/// Returns the header in these bytes, if its field has more than a link type.
pub(crate) fn header_with_more(bytes: &[u8; HEADER]) -> Option<PcapHeader> {
    let (_, header) = PcapHeader::from_slice(bytes).ok()?;
    if u32::from(header.datalink) < LINK_TYPES {
        return None;
    }
    Some(header)
}

/// Returns whether the field of a header has bits that have no meaning. An interface doesn't keep these.
pub(crate) fn has_reserved_bits(header: &PcapHeader) -> bool {
    let number = u32::from(header.datalink);
    let LinkField { link, fcs_len } = LinkField::from(number);
    let length = match fcs_len {
        None => 0,
        Some(bytes) => HAS_FCS_LEN | (u32::from(bytes) / 2) << FCS_LEN_AT,
    };
    number != u32::from(link) | length
}

/// Writes the packets after a header as the blocks that `convert_to_pcapng` makes of them. The interface has the link type alone,
/// and the length of frame check sequences is an option of it.
pub(crate) fn put_packets<R: Read + Drop, W: Write + Drop>(
    alloc: Global,
    reader: &mut PcapReader<R>,
    writer: &mut PcapNgWriter<W>,
) -> ResultParsing<()> {
    writer.write_pcapng_block(&interface_under(alloc, &reader.header)?)?;
    for _ in 0..u64::MAX {
        let Some(head) = reader.next_header() else {
            break;
        };
        let head = head?;
        let time = u64::from(head.ts_sec) * SECOND + u64::from(head.ts_nsec);
        writer.write_packet(0, time, reader.data(), head.orig_len)?;
    }
    Ok(())
}
