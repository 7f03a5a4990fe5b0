//! Parsers that are resumed from places in a capture.

use pcap_core::{DataLink, PcapError};
use pcap_file::pcapng::InterfaceDescriptionBlock;
use pcap_parts::resume;
use std::alloc::Global;
use std::test::*;
use test_support::captures::{SECTIONS, back};

// Returns whether each of these is an interface of the capture with two sections.
fn are_ethernet(interfaces: &[InterfaceDescriptionBlock]) -> bool {
    for interface in interfaces {
        if interface.linktype != DataLink::from(1) || interface.snaplen != 0x4_0000 {
            return false;
        }
    }
    true
}

// Returns whether the parser that is resumed from these places has this byte order and these interfaces.
fn is_resumed(
    alloc: Global,
    header: usize,
    interfaces: &[usize],
    is_big: bool,
) -> Result<bool, Fail> {
    let parser = resume(alloc, &SECTIONS, header, interfaces)?;
    Ok(
        parser.section().endianness().is_big() == is_big
            && parser.interfaces().len() == interfaces.len()
            && are_ethernet(parser.interfaces()),
    )
}

#[test]
fn sections_of_both_orders(rt: HostRuntime) -> Result<(), Fail> {
    for (header, interface, is_big) in [(0, 28, true), (48, 76, false)] {
        let twice = [interface, interface];
        assert!(rt; is_resumed(rt.alloc(), header, &[], is_big)?, "{header}");
        assert!(rt; is_resumed(rt.alloc(), header, &twice, is_big)?, "{header}");
    }
    Ok(())
}

// Returns, for a parser that continues with the last block: how many bytes are left, the block's length, and how many interfaces there
// are.
fn behind_the_bound(alloc: Global) -> Result<(usize, u32, usize), Fail> {
    let mut parser = resume(alloc, &SECTIONS, 48, &[])?;
    let (rest, block) = parser.next_block(back(&SECTIONS, 76))?;
    Ok((rest.len(), block.initial_len, parser.interfaces().len()))
}

#[test]
fn goes_on_behind_the_bound(rt: HostRuntime) -> Result<(), Fail> {
    assert_eq!(rt; behind_the_bound(rt.alloc())?, (0, 20, 1));
    Ok(())
}

// Returns whether no parser is resumed from these places, because twelve bytes are missing.

fn lacks_a_head(alloc: Global, header: usize, interfaces: &[usize]) -> bool {
    matches!(
        &resume(alloc, &SECTIONS, header, interfaces),
        Err(PcapError::IncompleteBuffer(12))
    )
}

fn is_refused(alloc: Global, header: usize) -> bool {
    matches!(
        &resume(alloc, &SECTIONS, header, &[]),
        Err(PcapError::InvalidField(_))
    )
}

#[test]
fn wrong_places(rt: HostRuntime) {
    assert!(rt; lacks_a_head(rt.alloc(), 96, &[]));
    assert!(rt; lacks_a_head(rt.alloc(), usize::MAX, &[]));
    assert!(rt; is_refused(rt.alloc(), 28));
    assert!(rt; lacks_a_head(rt.alloc(), 0, &[28, 96]));
}
