//! Captures with many interfaces, many options and one large block. No limit cuts them short.

use crate::slices::{RUNS, told as told_of_slice};
use crate::ways::told;
use pcap_file::pcapng::{PcapNgParser, PcapNgReader};
use pcap_file::run::read_pcapng;
use std::alloc::Global;
use std::test::Fail;
use test_support::captures::SECTION;
use test_support::readers::Halting;
use test_support::rows::{bytes, same};

// Returns a big-endian section, 2000 interfaces, and a block of an unknown type with `len` bytes, a multiple of 4096.
fn capture(alloc: Global, len: u32) -> Result<Vec<u8>, Fail> {
    let interface = bytes(alloc, "00000001 00000014 0001 0000 00040000 00000014")?;
    let mut whole = Vec::from_slice(alloc, &SECTION)?;
    for _turn in 0..2000 {
        whole.extend_from_slice(interface.as_slice())?;
    }
    whole.extend_from_slice(&[0, 0, 0, 0xff])?;
    whole.extend_from_slice(&len.to_be_bytes())?;
    whole.resize((len as usize).saturating_add(40_024), 7)?;
    whole.extend_from_slice(&len.to_be_bytes())?;
    Ok(whole)
}

// Checks each run over a capture whose last block has 20 MiB.
#[test]
fn runs(rt: HostRuntime) -> Result<(), Fail> {
    let whole = capture(rt.alloc(), 0x0140_0000)?;
    for way in RUNS {
        let told = told_of_slice(rt.alloc(), way, whole.as_slice())?;
        same(
            told.as_str(),
            "2001 blocks up to Unknown(255)/20971520/20971520/Big Big 1.0 -1 [] with 2000 interfaces used 21011548 Clean",
        )?;
    }
    let stream = Halting::new(rt.alloc(), whole.as_slice(), 1_000_000)?;
    let told = told(rt.alloc(), "read_pcapng", stream, 3000)?;
    same(
        told.as_str(),
        "2001 blocks up to Unknown(255)/20971520/20971520/Big None Big 1.0 -1 [] with 2000 interfaces",
    )
}

// Returns how many blocks a reader lends, and the size of the last body.
fn lent(reader: &mut PcapNgReader<Halting>) -> (usize, usize) {
    let mut count = 0usize;
    let mut last = 0;
    for _turn in 0..3000 {
        match reader.next_header() {
            Some(Ok(_)) => last = reader.body().len(),
            _ => break,
        }
        count = count.saturating_add(1);
    }
    (count, last)
}

// Checks a block of 2 MiB that is lent.
#[test]
fn lent_blocks(rt: HostRuntime) -> Result<(), Fail> {
    let whole = capture(rt.alloc(), 0x0020_0000)?;
    let stream = Halting::new(rt.alloc(), whole.as_slice(), 1_000_000)?;
    let mut reader = PcapNgReader::new(rt.alloc(), stream)?;
    assert!(rt; lent(&mut reader) == (2001, 2_097_140));
    assert!(rt; !reader.failed() && reader.interfaces().len() == 2000);
    Ok(())
}

// Returns a section header with 300 comments of eight bytes each, and an interface with as many.
fn commented(alloc: Global) -> Result<Vec<u8>, Fail> {
    let mut comments = String::new(alloc);
    for _turn in 0..300 {
        comments.push_str("0001 0001 61000000 ")?;
    }
    let digits = format!(in alloc;
        "0a0d0d0a 0000097c 1a2b3c4d 0001 0000 ffffffffffffffff {comments} 0000097c
        00000001 00000974 0001 0000 00040000 {comments} 00000974"
    )?;
    bytes(alloc, digits.as_str())
}

// Returns how many options the section and its one interface have, and how many bytes are left after them.
fn counts(alloc: Global, capture: &[u8]) -> Result<(usize, usize, usize), Fail> {
    let (rest, mut parser) = PcapNgParser::new(alloc, capture)?;
    let (rest, _block) = parser.next_block(rest)?;
    let options = match parser.interfaces() {
        [interface] => interface.options.len(),
        _ => 0,
    };
    Ok((parser.section().options.len(), options, rest.len()))
}

// Returns how many options the section has in a stream that is read to its end.
fn counts_read(alloc: Global, stream: Halting) -> usize {
    match &read_pcapng(alloc, stream, 9) {
        Ok(read) if read.fault.is_none() => read.reader.section().options.len(),
        _ => 0,
    }
}

#[test]
fn many_options(rt: HostRuntime) -> Result<(), Fail> {
    let whole = commented(rt.alloc())?;
    assert!(rt; counts(rt.alloc(), whole.as_slice())? == (300, 300, 0));
    let stream = Halting::new(rt.alloc(), whole.as_slice(), 1000)?;
    assert!(rt; counts_read(rt.alloc(), stream) == 300);
    Ok(())
}
