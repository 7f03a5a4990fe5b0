//! Consecutive sections, and their interfaces. `calls` describes the rows. Before each row, except the first of a capture, stands how the
//! section is after it: its byte order and the number of its interfaces.

use crate::calls::{parsed, section};
use crate::writing::{holds, tells_row};
use pcap_blocks::BlockType;
use pcap_core::{Endianness, ResultParsing};
use pcap_written::{PcapNgWriter, RawBlock};
use std::alloc::Global;
use std::test::*;
use test_support::rows::{are_digits, same};
use test_support::writers::Narrow;

// Checks a row, and that the section then has this byte order and number of interfaces.
fn leads(
    alloc: Global,
    writer: &mut PcapNgWriter<&mut Narrow>,
    (state, row): (&str, &str),
) -> Result<(), Fail> {
    if !tells_row(alloc, writer, row)? {
        return Err(Fail::new(format_args!("{row}")));
    }
    let (order, interfaces) = (writer.endianness(), writer.interfaces());
    let told = format!(in alloc; "{order:?} {interfaces}")?;
    same(told.as_str(), state)
}

/// Checks the rows of one capture. Each begins with the byte order and the number of interfaces of the section after it. The first one is
/// the header of the first section.
pub(crate) fn run(alloc: Global, script: &str) -> Result<(), Fail> {
    let (first, rows) = script.trim().split_once('\n').ok_or("one row")?;
    let (call, _numbers, answer) = parsed(first, &[], "")?;
    let mut output = Narrow::new(alloc, usize::MAX, true);
    let section = section(alloc, call)?;
    let mut writer = PcapNgWriter::with_section_header(alloc, &section, &mut output)?;
    if !are_digits(writer.get_ref().out.as_slice(), answer) {
        return Err(Fail::new(format_args!("{first}")));
    }
    for row in rows.lines() {
        let row = row.trim().split_once(": ").ok_or("a row with no state")?;
        leads(alloc, &mut writer, row)?;
    }
    Ok(())
}

// A packet is refused until its interface is described.
const BIG: &str = "
    section big 0 0 => 0a0d0d0a 0000001c 1a2b3c4d 0001 0000 ffffffffffffffff 0000001c
    Big 0: enhanced interface 0 0 => Block: interface_id is not described
    Big 1: interface plain 0 0 => 00000001 00000014 0001 0000 00000000 00000014
    Big 1: enhanced interface 0 0 => 00000006 00000024 00000000 00000001 00000002 00000002 00000003 61620000 00000024
    Big 1: enhanced interface 0 1 => Block: interface_id is not described
    Big 2: interface plain 0 0 => 00000001 00000014 0001 0000 00000000 00000014
    Big 2: enhanced interface 0 1 => 00000006 00000024 00000001 00000001 00000002 00000002 00000003 61620000 00000024
    Big 2: enhanced interface 0 2 => Block: interface_id is not described
    Big 3: interface plain 0 0 => 00000001 00000014 0001 0000 00000000 00000014
    Big 3: enhanced interface 0 2 => 00000006 00000024 00000002 00000001 00000002 00000002 00000003 61620000 00000024
";

// The same in little-endian byte order.
const LITTLE: &str = "
    section little 0 0 => 0a0d0d0a 1c000000 4d3c2b1a 0100 0000 ffffffffffffffff 1c000000
    Little 0: enhanced interface 0 0 => Block: interface_id is not described
    Little 1: interface plain 0 0 => 01000000 14000000 0100 0000 00000000 14000000
    Little 1: enhanced interface 0 0 => 06000000 24000000 00000000 01000000 02000000 02000000 03000000 61620000 24000000
    Little 1: enhanced interface 0 1 => Block: interface_id is not described
    Little 2: interface plain 0 0 => 01000000 14000000 0100 0000 00000000 14000000
    Little 2: enhanced interface 0 1 => 06000000 24000000 01000000 01000000 02000000 02000000 03000000 61620000 24000000
    Little 2: enhanced interface 0 2 => Block: interface_id is not described
    Little 3: interface plain 0 0 => 01000000 14000000 0100 0000 00000000 14000000
    Little 3: enhanced interface 0 2 => 06000000 24000000 02000000 01000000 02000000 02000000 03000000 61620000 24000000
";

#[test]
fn interfaces_that_grow(rt: HostRuntime) -> Result<(), Fail> {
    run(rt.alloc(), BIG)?;
    run(rt.alloc(), LITTLE)
}

// Each section comes after one with two interfaces, and begins without interfaces: in the other byte order, the same, the other, the same.
const CONSECUTIVE: &str = "
    section big 0 0 => 0a0d0d0a 0000001c 1a2b3c4d 0001 0000 ffffffffffffffff 0000001c
    Big 1: interface snaplen 0 262144 => 00000001 00000014 0001 0000 00040000 00000014
    Big 2: interface plain 0 0 => 00000001 00000014 0001 0000 00000000 00000014
    Little 0: section little 0 0 => 0a0d0d0a 1c000000 4d3c2b1a 0100 0000 ffffffffffffffff 1c000000
    Little 0: enhanced interface 0 0 => Block: interface_id is not described
    Little 1: interface snaplen 0 262144 => 01000000 14000000 0100 0000 00000400 14000000
    Little 1: enhanced interface 0 1 => Block: interface_id is not described
    Little 2: interface plain 0 0 => 01000000 14000000 0100 0000 00000000 14000000
    Little 0: section little 0 0 => 0a0d0d0a 1c000000 4d3c2b1a 0100 0000 ffffffffffffffff 1c000000
    Little 0: enhanced interface 0 0 => Block: interface_id is not described
    Little 1: interface plain 0 0 => 01000000 14000000 0100 0000 00000000 14000000
    Little 1: enhanced interface 0 1 => Block: interface_id is not described
    Little 2: interface plain 0 0 => 01000000 14000000 0100 0000 00000000 14000000
    Big 0: section big 0 0 => 0a0d0d0a 0000001c 1a2b3c4d 0001 0000 ffffffffffffffff 0000001c
    Big 0: enhanced interface 0 0 => Block: interface_id is not described
    Big 1: interface plain 0 0 => 00000001 00000014 0001 0000 00000000 00000014
    Big 1: enhanced interface 0 1 => Block: interface_id is not described
    Big 2: interface plain 0 0 => 00000001 00000014 0001 0000 00000000 00000014
    Big 0: section big 0 0 => 0a0d0d0a 0000001c 1a2b3c4d 0001 0000 ffffffffffffffff 0000001c
    Big 0: enhanced interface 0 0 => Block: interface_id is not described
    Big 1: interface plain 0 0 => 00000001 00000014 0001 0000 00000000 00000014
    Big 1: enhanced interface 0 1 => Block: interface_id is not described
";

#[test]
fn interfaces_of_each_section(rt: HostRuntime) -> Result<(), Fail> {
    run(rt.alloc(), CONSECUTIVE)
}

// The header that `new` writes, and an empty block behind it.
const HEADER: &str = "0a0d0d0a 1c000000 4d3c2b1a 0100 0000 ffffffffffffffff 1c000000";

const BLOCK: &str = "00000000 0c000000 0c000000";

// Returns whether a vector has the header of a section, and only a block after the header was removed from it.
fn lends(alloc: Global) -> ResultParsing<bool> {
    let block = RawBlock {
        type_: BlockType::Unknown(0),
        endianness: Endianness::Little,
        body: &[],
    };
    let mut writer = PcapNgWriter::new(alloc, Vec::new(alloc))?;
    let is_little = writer.endianness() == Endianness::Little && writer.interfaces() == 0;
    let is_plain = is_little && !writer.failed() && are_digits(writer.get_ref().as_slice(), HEADER);
    writer.get_mut().clear();
    writer.write_raw_block(&block)?;
    Ok(is_plain && are_digits(writer.into_writer().as_slice(), BLOCK))
}

#[test]
fn lent_writer(rt: HostRuntime) {
    assert!(rt; holds(lends(rt.alloc())));
}
