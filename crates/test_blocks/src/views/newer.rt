//! Views of newer kinds.

use byteorder::{BigEndian, ByteOrder, LittleEndian};
use pcap_blocks::{BlockType, EnhancedPacketBlock, UnknownBlock, UnknownRecord};
use pcap_core::{CowBytes, Endianness};
use std::alloc::Global;
use std::test::*;
use test_support::rows::bytes;

// Returns whether these bytes, as a block of secrets, hold the bytes of "abc" as the secrets of a TLS session.
fn holds_secrets(order: Endianness, body: &[u8]) -> bool {
    match UnknownBlock::new(BlockType::Unknown(10), 0, body).decryption_secrets(order) {
        Some(held) => held.secrets_type == 0x544c_534b && held.secrets == b"abc".as_slice(),
        None => false,
    }
}

#[test]
fn secrets_of_both_orders(rt: HostRuntime) -> Result<(), Fail> {
    for (order, digits) in [
        (Endianness::Big, "544c534b 00000003 616263 00"),
        (
            Endianness::Little,
            "4b534c54 03000000 616263 00 0100 0100 64000000",
        ),
    ] {
        let body = bytes(rt.alloc(), digits)?;
        assert!(rt; holds_secrets(order, body.as_slice()), "{digits}");
    }
    Ok(())
}

// Returns whether a block of this type with these bytes holds no secrets.
fn holds_none(number: u32, body: &[u8]) -> bool {
    let block = UnknownBlock::new(BlockType::Unknown(number), 0, body);
    block.decryption_secrets(Endianness::Big).is_none()
}

#[test]
fn no_secrets(rt: HostRuntime) -> Result<(), Fail> {
    for (number, digits) in [
        (10u32, "544c534b 000000"),
        (10, "544c534b 00000003 616263"),
        (10, "544c534b 00000005 61626364"),
        (11, "544c534b 00000003 616263 00"),
    ] {
        let body = bytes(rt.alloc(), digits)?;
        assert!(rt; holds_none(number, body.as_slice()), "{digits}");
    }
    Ok(())
}

// Returns a record of this type with this value.
fn record(type_: u16, value: &[u8]) -> UnknownRecord<'_> {
    UnknownRecord {
        type_,
        length: 0,
        value: CowBytes::Borrowed(value),
    }
}

// Returns whether a record of type 3 with this value is this address of six bytes with these names, and no address of eight.
fn is_eui48(value: &[u8], address: &[u8], names: &[u8]) -> bool {
    let record = record(3, value);
    match record.eui48() {
        Some(held) => held.address == address && held.names == names && record.eui64().is_none(),
        None => false,
    }
}

// Returns whether a record of type 4 with this value is this address of eight bytes with these names, and no address of six.
fn is_eui64(value: &[u8], address: &[u8], names: &[u8]) -> bool {
    let record = record(4, value);
    match record.eui64() {
        Some(held) => held.address == address && held.names == names && record.eui48().is_none(),
        None => false,
    }
}

#[test]
fn hardware_addresses(rt: HostRuntime) {
    let value = b"\x02\0\0\0\0\x01a\0b\0".as_slice();
    assert!(rt; is_eui48(value, &[2, 0, 0, 0, 0, 1], b"a\0b\0".as_slice()));
    assert!(rt; is_eui64(value, &[2, 0, 0, 0, 0, 1, 97, 0], b"b\0".as_slice()));
    assert!(rt; record(3, &[2, 0, 0, 0, 1]).eui48().is_none());
    assert!(rt; record(4, &[2, 0, 0, 0, 0, 0, 1]).eui64().is_none());
}

// Returns whether a packet has this verdict: its kind and value.
fn is_verdict(packet: &EnhancedPacketBlock<'_>, verdict: Option<(u8, &[u8])>) -> bool {
    match (packet.verdict(), verdict) {
        (Some(held), Some((kind, value))) => held.kind == kind && held.value == value,
        (None, None) => true,
        _ => false,
    }
}

// The number, the queue and the verdict in the newer options of a packet.
#[derive(Clone, Copy)]
struct Newer {
    id: Option<u64>,
    queue: Option<u32>,
    verdict: Option<(u8, &'static [u8])>,
}

const NONE: Newer = Newer {
    id: None,
    queue: None,
    verdict: None,
};

// Returns whether a packet with these bytes has these values.
fn has_newer<B: ByteOrder>(alloc: Global, body: &[u8], order: Endianness, newer: Newer) -> bool {
    match &EnhancedPacketBlock::from_slice::<B>(alloc, body) {
        Ok((_, packet)) => {
            packet.packet_id(order) == newer.id
                && packet.queue(order) == newer.queue
                && is_verdict(packet, newer.verdict)
        }
        Err(_) => false,
    }
}

#[test]
fn newer_options_of_packets(rt: HostRuntime) -> Result<(), Fail> {
    let body = bytes(
        rt.alloc(),
        "00000000 00000000 00000000 00000000 00000000 0005 0008 0000000000000102 0005 0004 00000000 0006 0004 00000003 0007 0009 01 0000000000000002 000000",
    )?;
    let newer = Newer {
        id: Some(0x102),
        queue: Some(3),
        verdict: Some((1, &[0, 0, 0, 0, 0, 0, 0, 2])),
    };
    assert!(rt; has_newer::<BigEndian>(rt.alloc(), body.as_slice(), Endianness::Big, newer));
    Ok(())
}

#[test]
fn newer_options_in_little_endian_order(rt: HostRuntime) -> Result<(), Fail> {
    let body = bytes(
        rt.alloc(),
        "00000000 00000000 00000000 00000000 00000000 0500 0800 0201000000000000 0600 0400 03000000 0700 0000",
    )?;
    let newer = Newer {
        id: Some(0x102),
        queue: Some(3),
        verdict: None,
    };
    assert!(rt; has_newer::<LittleEndian>(rt.alloc(), body.as_slice(), Endianness::Little, newer));
    Ok(())
}

// Checks that the first such option decides, even if its length is wrong.
#[test]
fn no_newer_options(rt: HostRuntime) -> Result<(), Fail> {
    for digits in [
        "00000000 00000000 00000000 00000000 00000000",
        "00000000 00000000 00000000 00000000 00000000 0005 0004 00000102 0005 0008 0000000000000102 0006 0002 00030000 0006 0004 00000003",
    ] {
        let body = bytes(rt.alloc(), digits)?;
        assert!(rt;
            has_newer::<BigEndian>(rt.alloc(), body.as_slice(), Endianness::Big, NONE),
            "{digits}"
        );
    }
    Ok(())
}
