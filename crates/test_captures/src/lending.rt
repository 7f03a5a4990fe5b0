//! Blocks that a reader lends.

use crate::told::{joined, tell_block, tell_end, tell_state};
use pcap_file::PcapNgReader;
use pcap_file::pcapng::BlockHeader;
use std::alloc::{AllocError, Global};
use std::test::Fail;
use test_support::captures::{SECTIONS, back, front};
use test_support::readers::Halting;
use test_support::rows::{every_row, same};

// Returns the header that the reader gives next, if there is one.
fn given(reader: &mut PcapNgReader<Halting>) -> Option<BlockHeader> {
    match reader.next_header() {
        Some(Ok(header)) => Some(header),
        _ => None,
    }
}

// Returns whether the block that is lent with this header is that header around a body of these bytes.
fn is_lent(reader: &PcapNgReader<Halting>, header: BlockHeader, body: &[u8]) -> bool {
    let block = reader.block(header);
    block.body.is_borrowed()
        && block.body.as_slice() == body
        && reader.body() == body
        && block.type_ == header.type_
        && block.initial_len == header.initial_len
        && block.endianness() == header.endianness
}

// Adds the block that a reader lends next, and how many bytes of the stream are taken with it. These must end with the bytes that are lent.
fn tell_lent(reader: &mut PcapNgReader<Halting>, told: &mut String) -> Result<(), AllocError> {
    let Some(header) = given(reader) else {
        return tell_end(told, None);
    };
    tell_block(told, &reader.block(header))?;
    let end = reader.get_ref().taken;
    let text = back(
        front(&SECTIONS, end),
        end.saturating_sub(header.initial_len as usize),
    );
    let body = back(front(text, text.len().saturating_sub(4)), 8);
    if reader.text() != text || !is_lent(reader, header, body) {
        told.push_str("lent otherwise ")?;
    }
    write!(told, "to {end} ")
}

// The blocks after the first section, each with the number of bytes that are taken with it. `None` is the end after them. The first `true`
// says that the reader lends the first section when it is new. The second says that it lends nothing after the last block, and that no
// read failed. Then comes the state.
const LENT: &str = "InterfaceDescription/20/20/Big to 48 SectionHeader/28/28/Little to 76 \
    InterfaceDescription/20/20/Little to 96 None true true Little 1.0 -1 [] with ETHERNET/262144/[]";

// Checks that a reader lends the first section, then the blocks after it, and then nothing.
fn lends_each(alloc: Global, step: usize) -> Result<(), Fail> {
    let stream = Halting::new(alloc, &SECTIONS, step)?;
    let mut reader = PcapNgReader::new(alloc, stream)?;
    let is_first = reader.text() == front(&SECTIONS, 28)
        && reader.body() == back(front(&SECTIONS, 24), 8);
    let mut told = String::new(alloc);
    for _block in 0..4 {
        tell_lent(&mut reader, &mut told)?;
    }
    let is_last = reader.text().is_empty() && reader.body().is_empty() && !reader.failed();
    write!(told, "{is_first} {is_last} ")?;
    tell_state(&mut told, reader.section(), reader.interfaces())?;
    same(told.as_str(), LENT)
}

#[test]
fn lent_blocks(rt: HostRuntime) -> Result<(), Fail> {
    for step in [1, 7, 200] {
        lends_each(rt.alloc(), step)?;
    }
    Ok(())
}

// Formats the body of the block that is lent with this header.
fn body_text(
    alloc: Global,
    reader: &PcapNgReader<Halting>,
    header: BlockHeader,
) -> Result<String, Fail> {
    let block = reader.block(header);
    Ok(format!(in alloc; "{:?}", block.parsed(alloc)?)?)
}

// Formats the body of the block that a reader lends after an interface, with `step` bytes a read.
fn body_by(alloc: Global, bytes: &[u8], step: usize) -> Result<String, Fail> {
    let whole = joined(alloc, front(&SECTIONS, 48), bytes)?;
    let stream = Halting::new(alloc, whole.as_slice(), step)?;
    let mut reader = PcapNgReader::new(alloc, stream)?;
    let _interface = given(&mut reader);
    let header = given(&mut reader).ok_or("no block")?;
    body_text(alloc, &reader, header)
}

// Does the same with reads of one byte and of a hundred, which must give the same.
fn lent_body(alloc: Global, bytes: &[u8]) -> Result<String, Fail> {
    let one = body_by(alloc, bytes, 1)?;
    let many = body_by(alloc, bytes, 100)?;
    same(many.as_str(), one.as_str())?;
    Ok(one)
}

#[test]
fn lent_bodies(rt: HostRuntime) -> Result<(), Fail> {
    let table = "
        000000ff 0000000c 0000000c => Unknown(UnknownBlock { type_: Unknown(255), length: 0, value: Borrowed([]) })
        00000003 00000014 00000001 61000000 00000014 => SimplePacket(SimplePacketBlock { original_len: 1, data_: Borrowed([97, 0, 0, 0]) })
        00000009 00000010 5f3d0a00 00000010 => SystemdJournalExport(SystemdJournalExportBlock { journal_entry: Borrowed([95, 61, 10, 0]) })
    ";
    every_row(rt.alloc(), table, lent_body)
}

// Returns the size of the next block's body, owned, if one comes.
fn owned_length(reader: &mut PcapNgReader<Halting>) -> Option<usize> {
    match reader.next() {
        Some(Ok(block)) => Some(block.body.len()),
        _ => None,
    }
}

// Returns whether a reader lends a body of eight bytes, and then gives an owned one of length `owned`, if any, and lends nothing.
fn lends_and_gives(reader: &mut PcapNgReader<Halting>, owned: Option<usize>) -> bool {
    let is_lent = given(reader).is_some() && reader.body().len() == 8;
    is_lent && owned_length(reader) == owned && reader.text().is_empty() && reader.body().is_empty()
}

#[test]
fn lent_and_owned_blocks(rt: HostRuntime) -> Result<(), Fail> {
    for step in [1, 100] {
        let stream = Halting::new(rt.alloc(), &SECTIONS, step)?;
        let mut reader = PcapNgReader::new(rt.alloc(), stream)?;
        assert!(rt; lends_and_gives(&mut reader, Some(16)), "by {step}");
        assert!(rt; lends_and_gives(&mut reader, None), "by {step}");
    }
    Ok(())
}
