//! The stored bytes of a simple packet, and bytes that are lent.

use byteorder::BigEndian;
use pcap_blocks::SimplePacketBlock;
use pcap_core::{CowBytes, ResultParsing};
use std::alloc::Global;
use std::test::*;
use test_support::rows::bytes;

// Returns whether `len` bytes of a simple packet with this body are stored under this snapshot length: 1, 2, 3 and so on.
fn stores(body: &[u8], snaplen: u32, len: usize) -> bool {
    match &SimplePacketBlock::from_slice::<BigEndian>(body) {
        Ok((_, packet)) => {
            let stored = packet.stored(snaplen);
            stored.len() == len && [1u8, 2, 3, 4, 5].starts_with(stored)
        }
        Err(_) => false,
    }
}

// Checks rows: the body of a simple packet, the snapshot length, and how many of its bytes are stored.
#[test]
fn stored_bytes(rt: HostRuntime) -> Result<(), Fail> {
    for (digits, snaplen, len) in [
        ("00000005 0102030405 000000", 0u32, 5usize),
        ("00000005 0102030405 000000", 262144, 5),
        ("00000005 01020300", 3, 3),
        ("00000005 01020304", 0, 4),
        ("00000005 01020304", 2, 2),
        ("00000000", 0, 0),
    ] {
        let body = bytes(rt.alloc(), digits)?;
        assert!(rt; stores(body.as_slice(), snaplen, len), "{digits}");
    }
    Ok(())
}

// Returns whether owned bytes are not lent.
fn are_owned(alloc: Global, bytes: &[u8]) -> ResultParsing<bool> {
    Ok(
        CowBytes::Borrowed(bytes)
            .into_owned(alloc)?
            .as_borrowed()
            .is_none(),
    )
}

#[test]
fn lent_bytes(rt: HostRuntime) -> Result<(), Fail> {
    let bytes = [1u8, 2];
    assert!(rt; CowBytes::Borrowed(&bytes).as_borrowed() == Some(bytes.as_slice()));
    assert!(rt; are_owned(rt.alloc(), &bytes)?);
    Ok(())
}
