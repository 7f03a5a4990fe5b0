//! The search for the next blocks after corrupt bytes in a PcapNg capture.

use crate::again_rows::{BEFORE, BETWEEN, SECTIONS};
use pcap_tolerant_captures::PcapNgParserAsIs;
use pcap_tolerant_captures::resync::{resync, resync_section};
use std::alloc::Global;
use std::test::Fail;
use test_support::rows::every_row;

// Appends a place as the rows have it.
fn put_place(text: &mut String, place: Option<usize>) -> Result<(), Fail> {
    match place {
        None => text.push_str("none")?,
        Some(at) => write!(text, "{at}")?,
    }
    Ok(())
}

// Formats where runs of one, two and three blocks are found after the first block, and where a section header is.
fn told(alloc: Global, capture: &[u8]) -> Result<String, Fail> {
    let (left, opened) = PcapNgParserAsIs::new(alloc, capture)?;
    let mut text = String::new(alloc);
    for k in 1..4 {
        put_place(&mut text, resync(&opened.parser, left, k))?;
        text.push_str(", ")?;
    }
    put_place(&mut text, resync_section(left))?;
    Ok(text)
}

#[test]
fn behind_garbage(rt: HostRuntime) -> Result<(), Fail> {
    for table in [BEFORE, BETWEEN, SECTIONS] {
        every_row(rt.alloc(), table, told)?;
    }
    Ok(())
}
