//! Options by their names.

use byteorder::BigEndian;
use pcap_blocks::{
    EnhancedPacketBlock, InterfaceDescriptionBlock, InterfaceStatisticsBlock, NameResolutionBlock,
    PacketBlock, SectionHeaderBlock,
};
use std::alloc::Global;
use std::test::*;
use test_support::rows::bytes;

// Returns whether a section has the expected comment, hardware, operating system and application.
fn names_a_section(alloc: Global, body: &[u8]) -> bool {
    match &SectionHeaderBlock::from_slice(alloc, body) {
        Ok((_, section)) => {
            section.comment() == Some("a")
                && section.hardware() == Some("b")
                && section.os() == Some("c")
                && section.application() == Some("d")
        }
        Err(_) => false,
    }
}

#[test]
fn names_of_a_section(rt: HostRuntime) -> Result<(), Fail> {
    let body = bytes(
        rt.alloc(),
        "1a2b3c4d 0001 0000 ffffffffffffffff 0004 0001 64000000 0001 0001 61000000 0001 0001 78000000 0002 0001 62000000 0003 0001 63000000",
    )?;
    assert!(rt; names_a_section(rt.alloc(), body.as_slice()));
    Ok(())
}

// Returns whether an interface has all values with a name.
fn names_an_interface(alloc: Global, body: &[u8]) -> bool {
    match &InterfaceDescriptionBlock::from_slice::<BigEndian>(alloc, body) {
        Ok((_, interface)) => {
            interface.comment() == Some("a")
                && interface.name() == Some("eth0")
                && interface.description() == Some("c")
                && interface.os() == Some("d")
                && interface.hardware() == Some("e")
                && interface.speed() == Some(1_000_000_000u64)
        }
        Err(_) => false,
    }
}

// Returns whether it has no comment, no name and no speed.
fn names_nothing(alloc: Global, body: &[u8]) -> bool {
    match &InterfaceDescriptionBlock::from_slice::<BigEndian>(alloc, body) {
        Ok((_, interface)) => {
            interface.comment().is_none()
                && interface.name().is_none()
                && interface.speed().is_none()
        }
        Err(_) => false,
    }
}

#[test]
fn names_of_an_interface(rt: HostRuntime) -> Result<(), Fail> {
    let body = bytes(
        rt.alloc(),
        "0001 0000 00040000 000f 0001 65000000 000c 0001 64000000 0008 0008 000000003b9aca00 0003 0001 63000000 0002 0004 65746830 0002 0001 78000000 0001 0001 61000000",
    )?;
    assert!(rt; names_an_interface(rt.alloc(), body.as_slice()));
    Ok(())
}

// Checks that a custom option and an unknown one are not mistaken for named ones.
#[test]
fn an_interface_without_names(rt: HostRuntime) -> Result<(), Fail> {
    let body = bytes(
        rt.alloc(),
        "0001 0000 00040000 0bac 0005 00000001 61 000000 0063 0001 61000000 0009 0001 06000000",
    )?;
    assert!(rt; names_nothing(rt.alloc(), body.as_slice()));
    Ok(())
}

fn comments_on_a_packet(alloc: Global, body: &[u8]) -> bool {
    match &EnhancedPacketBlock::from_slice::<BigEndian>(alloc, body) {
        Ok((_, packet)) => packet.comment() == Some("hi"),
        Err(_) => false,
    }
}

fn comments_on_an_obsolete_packet(alloc: Global, body: &[u8]) -> bool {
    match &PacketBlock::from_slice::<BigEndian>(alloc, body) {
        Ok((_, packet)) => packet.comment() == Some("hi"),
        Err(_) => false,
    }
}

#[test]
fn comments_on_packets(rt: HostRuntime) -> Result<(), Fail> {
    let body = bytes(
        rt.alloc(),
        "00000000 00000000 00000000 00000000 00000000 0004 0008 0000000000000001 0001 0002 68690000",
    )?;
    assert!(rt; comments_on_a_packet(rt.alloc(), body.as_slice()));
    assert!(rt; comments_on_an_obsolete_packet(rt.alloc(), body.as_slice()));
    Ok(())
}

fn comments_on_names(alloc: Global, body: &[u8]) -> bool {
    match &NameResolutionBlock::from_slice::<BigEndian>(alloc, body) {
        Ok((_, names)) => names.comment() == Some("a"),
        Err(_) => false,
    }
}

#[test]
fn names_with_a_comment(rt: HostRuntime) -> Result<(), Fail> {
    let body = bytes(rt.alloc(), "0000 0000 0001 0001 61000000")?;
    assert!(rt; comments_on_names(rt.alloc(), body.as_slice()));
    Ok(())
}

// Returns whether statistics have the expected comment and numbers.
fn counts(alloc: Global, body: &[u8]) -> bool {
    match &InterfaceStatisticsBlock::from_slice::<BigEndian>(alloc, body) {
        Ok((_, statistics)) => {
            statistics.comment() == Some("b")
                && statistics.received() == Some(100u64)
                && statistics.dropped() == Some(3u64)
        }
        Err(_) => false,
    }
}

#[test]
fn statistics_with_a_comment(rt: HostRuntime) -> Result<(), Fail> {
    let body = bytes(
        rt.alloc(),
        "00000000 00000000 00000000 0005 0008 0000000000000003 0004 0008 0000000000000064 0001 0001 62000000",
    )?;
    assert!(rt; counts(rt.alloc(), body.as_slice()));
    Ok(())
}
