//! The bytes that writers write.

ghost use Rattle.std.specs.Prelude.{◌<◌, ◌^◌, length};

use crate::calls;
use crate::names::name_of_packet;
use crate::scripts::packet;
use byteorder::{BigEndian, ByteOrder, LittleEndian};
use pcap_classic::pcap::{Packet, PacketHeader, PcapHeader, PcapWriter};
use pcap_classic::run::{PcapRun, Rest, parse_pcap};
use pcap_classic::{CowBytes, DataLink, Endianness, PcapError, ResultParsing, TsResolution};
use std::alloc::{AllocError, Global};
use std::test::Fail;
use test_support::captures::{back, big, contents, front};
use test_support::rows::{are_digits, every_row};

// Returns whether each setter gives the magic number of the values set so far, and leaves the other fields.
fn sets() -> bool {
    let mut header = PcapHeader::default();
    let first = header.magic_number;
    header.set_endianness(Endianness::Little);
    let second = header.magic_number;
    header.set_ts_resolution(TsResolution::NanoSecond);
    let third = header.magic_number;
    header.set_endianness(Endianness::Big);
    first == 0xa1b2c3d4
        && second == 0xd4c3b2a1
        && third == 0x4d3cb2a1
        && header.magic_number == 0xa1b23c4d
        && header.snaplen == 65535
}

// Returns whether a header with another link type otherwise is the default one.
fn links() -> bool {
    let other = PcapHeader::with_datalink(DataLink::RAW);
    other.datalink == DataLink::RAW && other.version_major == 2 && other.version_minor == 4
}

#[test]
fn setters(rt: HostRuntime) {
    assert!(rt; sets() && links());
}

// Returns the number in four bytes from this one on.
fn number(bytes: &[u8], start: usize) -> u32 {
    let mut number = [0; 4];
    for (digit, byte) in number.iter_mut().zip(back(bytes, start)) {
        *digit = *byte;
    }
    u32::from_be_bytes(number)
}

// Writes a packet with this header and these bytes to a new capture, and a second time from its parts if its header states that length.
fn puts(magic_number: u32, out: &mut Vec<u8>, header: PacketHeader, bytes: &[u8]) -> bool {
    let capture = PcapHeader {
        magic_number,
        ..PcapHeader::default()
    };
    let packet = Packet {
        header,
        data_: CowBytes::Borrowed(bytes),
    };
    match PcapWriter::with_header(capture, out) {
        Ok(mut writer) => {
            let mut is_put = writer.write_packet(&packet).is_ok();
            if header.incl_len as usize == bytes.len() {
                let PacketHeader {
                    ts_sec,
                    ts_nsec,
                    orig_len,
                    ..
                } = header;
                is_put &= writer.write(ts_sec, ts_nsec, bytes, orig_len).is_ok();
            }
            is_put
        }
        Err(_) => false,
    }
}

// Returns whether a packet's header by itself is written as these bytes in big-endian order and microseconds.
fn is_written_as(alloc: Global, header: PacketHeader, bytes: &[u8]) -> bool {
    let mut out = Vec::new(alloc);
    let micro = TsResolution::MicroSecond;
    header.write_to::<_, BigEndian>(&mut out, micro).is_ok() && out.as_slice() == bytes
}

// Writes a packet of these bytes: the magic number of the capture, the packet's seconds, nanoseconds, stored and original length, and its
// data. Returns the digits of the header that was written before the data, and how often both were.
fn goes_out(alloc: Global, bytes: &[u8]) -> Result<String, Fail> {
    let magic = number(bytes, 0);
    let header = PacketHeader::new(
        number(bytes, 4),
        number(bytes, 8),
        number(bytes, 12),
        number(bytes, 16),
    );
    let data = back(bytes, 20);
    let mut out = Vec::new(alloc);
    let is_put = puts(magic, &mut out, header, data);
    let packets = back(out.as_slice(), 24);
    let head = front(packets, 16);
    let is_head = magic != 0xa1b2c3d4 || is_written_as(alloc, header, head);
    let digits = hex::encode(alloc, head)?;
    let times = times_of(packets, data);
    Ok(format!(in alloc; "{digits} {times} {}", is_put && is_head)?)
}

// Returns how often these bytes have a header, and this data after it: once, or twice the same.
fn times_of(packets: &[u8], data: &[u8]) -> usize {
    let first = front(packets, data.len().saturating_add(16));
    let second = back(packets, first.len());
    match second.is_empty() {
        _ if back(first, 16) != data => 0,
        true => 1,
        false if second == first => 2,
        false => 0,
    }
}

// The rows of both tables have the digits that `goes_out` reads. After the arrow come the digits of the header before the packet's data,
// how often the writer writes that header with the data, and whether each call succeeds and a header by itself has the same bytes. It is
// twice for a packet whose stored length is that of its data: then the writer writes the packet's parts, too.

#[test]
fn packets_under_headers(rt: HostRuntime) -> Result<(), Fail> {
    let table = "
        a1b2c3d4 00000001 00000bb7 00000001 00000005 aa => 00000001000000020000000100000005 2 true
        a1b23c4d 00000001 00000007 00000009 00000009 aabb => 00000001000000070000000900000009 1 true
        4d3cb2a1 4fa11b29 0918f2f0 00000062 00000062 000102030405060708090a0b0c0d0e0f101112131415161718191a1b1c1d1e1f202122232425262728292a2b2c2d2e2f303132333435363738393a3b3c3d3e3f404142434445464748494a4b4c4d4e4f505152535455565758595a5b5c5d5e5f6061 => 291ba14ff0f218096200000062000000 2 true
        a1b2c3d4 00000001 000003e7 00000000 00000000 => 00000001000000000000000000000000 2 true
    ";
    every_row(rt.alloc(), table, goes_out)
}

#[test]
fn lengths_that_no_capture_has(rt: HostRuntime) -> Result<(), Fail> {
    let table = "
        a1b2c3d4 00000001 000007d0 00000009 00000003 aa => 00000001000000020000000900000003 1 true
        a1b2c3d4 00000001 000007d0 00040001 00040001 aa => 00000001000000020004000100040001 1 true
        a1b2c3d4 00000001 000007d0 ffffffff 00000000 aa => 0000000100000002ffffffff00000000 1 true
        a1b2c3d4 ffffffff ffffffff ffffffff ffffffff aa => ffffffff00418937ffffffffffffffff 1 true
    ";
    every_row(rt.alloc(), table, goes_out)
}

// The headers of writers, and the capture's headers by themselves. In the second row the writer has space for its header, which is one of
// nanoseconds, and fails at the packet after it.
#[test]
fn headers(rt: HostRuntime) -> Result<(), Fail> {
    let table = "
        0: new_writer => given, turned 24
        24: write under=fine room=n => Other, fine n
        0: write_header => given, one 24
        0: write_packet_header => given, packet_header 16
    ";
    calls::every_row(rt.alloc(), table)
}

// Returns whether the packet of these bytes owns them: as a copy, and if it is given the bytes themselves.
fn owns(alloc: Global, contents: &[u8]) -> ResultParsing<bool> {
    let packet = packet(contents);
    let is_copied = name_of_packet(&packet.to_owned(alloc)?) == "packet";
    Ok(is_copied && name_of_packet(&packet.into_owned(alloc)?) == "packet")
}

// Returns whether an empty packet owns its data.
fn owns_nothing(alloc: Global) -> ResultParsing<bool> {
    Ok(
        !Packet::new(1, 2, &[], 0)
            .into_owned(alloc)?
            .data_
            .is_borrowed(),
    )
}

// Returns whether a packet that is given one byte states that length.
fn states_its_byte(alloc: Global) -> Result<bool, AllocError> {
    let owned = Packet::new_owned(1, 2, Vec::from_slice(alloc, &[7])?, 3);
    Ok(owned.header == PacketHeader::new(1, 2, 1, 3))
}

#[test]
fn owned_packets(rt: HostRuntime) -> Result<(), Fail> {
    let contents = contents(rt.alloc())?;
    assert!(rt; matches!(owns(rt.alloc(), contents.as_slice()), Ok(true)));
    assert!(rt; matches!(owns_nothing(rt.alloc()), Ok(true)));
    assert!(rt; matches!(states_its_byte(rt.alloc()), Ok(true)));
    Ok(())
}

// Returns whether a header is written as these digits.
fn is_written<B: ByteOrder>(alloc: Global, header: &PcapHeader, digits: &str) -> bool {
    let mut out = Vec::new(alloc);
    header.write_to::<_, B>(&mut out).is_ok() && are_digits(out.as_slice(), digits)
}

// Returns whether the array of a header has these digits.
fn is_array<B: ByteOrder>(alloc: Global, header: &PcapHeader, digits: &str) -> bool {
    match header.to_array::<B>(alloc) {
        Ok(array) => are_digits(array.as_slice(), digits),
        Err(_) => false,
    }
}

// Returns whether both hold.
fn is_both<B: ByteOrder>(alloc: Global, header: &PcapHeader, digits: &str) -> bool {
    is_written::<B>(alloc, header, digits) && is_array::<B>(alloc, header, digits)
}

#[test]
fn arrays_of_headers(rt: HostRuntime) {
    let digits = "a1b2c3d4 0002 0004 00000000 00000000 0000ffff 00000001";
    assert!(rt; is_array::<BigEndian>(rt.alloc(), &PcapHeader::default(), digits));
}

#[test]
fn headers_that_no_capture_has(rt: HostRuntime) {
    let header = PcapHeader {
        magic_number: 0,
        ts_correction: -2,
        datalink: DataLink::Unknown(2),
        ..PcapHeader::default()
    };
    let big = "00000000 0002 0004 fffffffe 00000000 0000ffff 00000002";
    assert!(rt; is_both::<BigEndian>(rt.alloc(), &header, big));
    let little = "00000000 0200 0400 feffffff 00000000 ffff0000 02000000";
    assert!(rt; is_both::<LittleEndian>(rt.alloc(), &header, little));
}

// Returns whether no packet is written with a wrong magic number, and only the bytes `out` were written.
fn refuses(writer: &mut PcapWriter<Vec<u8>>, packet: &Packet<'_>, out: &[u8]) -> bool {
    writer.header.magic_number = 0;
    let is_refused = matches!(
        writer.write_packet(packet),
        Err(PcapError::InvalidField("PcapHeader wrong magic number"))
    );
    is_refused && !writer.failed() && writer.get_ref().as_slice() == out
}

// Returns whether the packet is written again in the other byte order, after the first bytes.
fn turns(writer: &mut PcapWriter<Vec<u8>>, packet: &Packet<'_>, contents: &[u8]) -> bool {
    let mut header = PcapHeader::default();
    header.set_endianness(Endianness::Little);
    writer.header = header;
    let before = writer.get_ref().len();
    let is_written = writer.write_packet(packet).is_ok();
    let out = back(writer.get_ref().as_slice(), before);
    let is_head = are_digits(front(out, 16), "291ba14f 36540200 62000000 62000000");
    is_written && is_head && back(out, 16) == contents
}

// Returns whether the packet of this capture is written, is refused with a wrong magic number, and is written in the other byte order.
fn goes_out_in_both(alloc: Global) -> ResultParsing<bool> {
    let whole = big(alloc)?;
    let whole = whole.as_slice();
    let contents = back(whole, 40);
    let packet = packet(contents);
    let mut writer = PcapWriter::with_header(PcapHeader::default(), Vec::new(alloc))?;
    writer.write_packet(&packet)?;
    Ok(refuses(&mut writer, &packet, whole) && turns(&mut writer, &packet, contents))
}

#[test]
fn orders_between_packets(rt: HostRuntime) {
    assert!(rt; matches!(goes_out_in_both(rt.alloc()), Ok(true)));
}

// Returns the capture of this packet, which is the largest that a capture may have.
fn largest(alloc: Global, bytes: &[u8]) -> ResultParsing<Vec<u8>>
    requires { length bytes.now < 2 ^ 32 }
{
    let mut writer = PcapWriter::new(Vec::new(alloc))?;
    writer.write(1, 2999, bytes, 262_144)?;
    Ok(writer.into_writer())
}

// Returns whether this is a run of that packet alone.
fn is_largest(run: &PcapRun, bytes: &[u8]) -> bool {
    match run.packets.as_slice() {
        [packet] => {
            matches!(run.rest, Rest::Clean)
                && packet.header == PacketHeader::new(1, 2000, 262_144, 262_144)
                && packet.data_.as_slice() == bytes
        }
        _ => false,
    }
}

// Returns whether these 262184 bytes are read as that packet.
fn is_read(alloc: Global, out: &[u8], bytes: &[u8]) -> bool {
    out.len() == 262_184 && matches!(&parse_pcap(alloc, out), Ok(run) if is_largest(run, bytes))
}

fn goes_out_and_in(alloc: Global) -> ResultParsing<bool> {
    let mut bytes = Vec::new(alloc);
    bytes.resize(262_144, 7)?;
    let out = largest(alloc, bytes.as_slice())?;
    Ok(is_read(alloc, out.as_slice(), bytes.as_slice()))
}

#[test]
fn largest_packet(rt: HostRuntime) {
    assert!(rt; matches!(goes_out_and_in(rt.alloc()), Ok(true)));
}
