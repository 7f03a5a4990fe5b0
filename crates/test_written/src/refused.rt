//! Calls that the writer refuses, each for one reason, and writers that aren't made. `calls` describes the rows.

use crate::calls::{parsed, section};
use crate::writing::{Place, has_message};
use pcap_core::{Endianness, PcapError};
use pcap_written::{PcapNgWriter, Unwritable};
use std::alloc::Global;
use std::test::*;
use test_support::rows::bytes;
use test_support::writers::Narrow;

const BLOCKS: &str = "
    section magic 0 0,439041102,1295788827,4294967295 => SectionHeaderBlock: invalid magic number
    packet length 0 0,1,3,4294967295 => EnhancedPacketBlock: captured_len != data.len()
    enhanced length 0 0,1,3,4294967295 => EnhancedPacketBlock: captured_len != data.len()
    unknown length 2 0,1,3,4,4294967295 => UnknownBlock: length != value.len()
    packet interface 0 2,3,65535 => Block: interface_id is not described
    enhanced interface 0 2,3,65536,4294967295 => Block: interface_id is not described
    statistics interface 0 2,3,65536,4294967295 => Block: interface_id is not described
    parts interface 5 2,3,4294967295 => Block: interface_id is not described
    interface link 0 65536,4294967295 => InterfaceDescriptionBlock: linktype > 65535
    interface link 0 0,1,268 => InterfaceDescriptionBlock: linktype has a name
    unknown type 2 168627466,1,2,3,4,5,6,9 => UnknownBlock: type has a name
    unknown section 2 0 => UnknownBlock: type has a name
    unknown interface 2 0 => UnknownBlock: type has a name
    unknown enhanced 2 0 => UnknownBlock: type has a name
    unknown journal 2 0 => UnknownBlock: type has a name
";

// Each record comes after one that can be written. After `ipv4` and `ipv6` stand the names: each is a number of letters, or the name
// itself, and a dash stands for no name. After `record` stands the length that the record states.
const RECORDS: &str = "
    ipv4 1 1 0 => NameResolutionBlock: address of another length
    ipv4 1 16 0 => NameResolutionBlock: address of another length
    ipv6 1 4 0 => NameResolutionBlock: address of another length
    ipv4 1,\0 4 0 => NameResolutionBlock: name with a zero byte
    ipv4 a\0b 4 0 => NameResolutionBlock: name with a zero byte
    ipv6 \0 16 0 => NameResolutionBlock: name with a zero byte
    ipv4 - 4 0 => NameResolutionBlock: Ipv4Record len < 6
    ipv4 0 4 0 => NameResolutionBlock: Ipv4Record len < 6
    ipv6 - 16 0 => NameResolutionBlock: Ipv6Record len < 18
    ipv6 0 16 0 => NameResolutionBlock: Ipv6Record len < 18
    ipv4 65531,0 4 0 => NameResolutionBlock: Record length > 65535
    ipv4 65530,0 4 0 => NameResolutionBlock: Record length > 65535
    ipv4 65535,0 4 0 => NameResolutionBlock: Record length > 65535
    ipv4 70000,1 4 0 => NameResolutionBlock: Record length > 65535
    ipv4 40000,40000 4 0 => NameResolutionBlock: Record length > 65535
    ipv6 65531,0 16 0 => NameResolutionBlock: Record length > 65535
    ipv6 65530,0 16 0 => NameResolutionBlock: Record length > 65535
    ipv6 65535,0 16 0 => NameResolutionBlock: Record length > 65535
    ipv6 70000,1 16 0 => NameResolutionBlock: Record length > 65535
    ipv6 40000,40000 16 0 => NameResolutionBlock: Record length > 65535
    ipv6 65519 16 0 => NameResolutionBlock: Record length > 65535
    end - 0 0 => NameResolutionBlock: nrb_record_end among the records
    record 0 0 0,1 => UnknownRecord: type has a name
    record 1 1 2 => UnknownRecord: type has a name
    record 1 0 3 => UnknownRecord: length != value.len()
    record 0 1 3 => UnknownRecord: length != value.len()
    record 0 65536 65535 => UnknownRecord: length != value.len()
";

// Each option comes after one that can be written. In the rows with `code`, COUNT is the length that the option states, and the NUMBERS are
// its codes. In the rows with `states` it is the other way: the NUMBERS are the lengths that the option states. `options` says more.
const OPTIONS: &str = "
    section code 0 0,1,2,3,4,2988,2989,19372,19373 => Option: value of another code
    interface code 0 0,1,2,3,4,5,6,7,8,9,10,11,12,13,14,15,2988,2989,19372,19373 => Option: value of another code
    packet code 0 0,1,2,3,2988,2989,19372,19373 => Option: value of another code
    enhanced code 0 0,1,2,3,4,2988,2989,19372,19373 => Option: value of another code
    names code 0 0,1,2,3,4,2988,2989,19372,19373 => Option: value of another code
    statistics code 0 0,1,2,3,4,5,6,7,8,2988,2989,19372,19373 => Option: value of another code
    section custom-text 0 0,1,2987,2989,19373,65535 => Option: value of another code
    interface custom-text 0 0,1,2987,2989,19373,65535 => Option: value of another code
    packet custom-text 0 0,1,2987,2989,19373,65535 => Option: value of another code
    enhanced custom-text 0 0,1,2987,2989,19373,65535 => Option: value of another code
    names custom-text 0 0,1,2987,2989,19373,65535 => Option: value of another code
    statistics custom-text 0 0,1,2987,2989,19373,65535 => Option: value of another code
    section custom-bytes 0 0,1,2988,2990,19372,65535 => Option: value of another code
    interface custom-bytes 0 0,1,2988,2990,19372,65535 => Option: value of another code
    packet custom-bytes 0 0,1,2988,2990,19372,65535 => Option: value of another code
    enhanced custom-bytes 0 0,1,2988,2990,19372,65535 => Option: value of another code
    names custom-bytes 0 0,1,2988,2990,19372,65535 => Option: value of another code
    statistics custom-bytes 0 0,1,2988,2990,19372,65535 => Option: value of another code
    section states 0 1 => UnknownOption: length != value.len()
    section states 1 0,65535 => UnknownOption: length != value.len()
    section states 4 3 => UnknownOption: length != value.len()
    interface states 0 1 => UnknownOption: length != value.len()
    interface states 1 0,65535 => UnknownOption: length != value.len()
    interface states 4 3 => UnknownOption: length != value.len()
    packet states 0 1 => UnknownOption: length != value.len()
    packet states 1 0,65535 => UnknownOption: length != value.len()
    packet states 4 3 => UnknownOption: length != value.len()
    enhanced states 0 1 => UnknownOption: length != value.len()
    enhanced states 1 0,65535 => UnknownOption: length != value.len()
    enhanced states 4 3 => UnknownOption: length != value.len()
    names states 0 1 => UnknownOption: length != value.len()
    names states 1 0,65535 => UnknownOption: length != value.len()
    names states 4 3 => UnknownOption: length != value.len()
    statistics states 0 1 => UnknownOption: length != value.len()
    statistics states 1 0,65535 => UnknownOption: length != value.len()
    statistics states 4 3 => UnknownOption: length != value.len()
    interface ipv4 7 0 => InterfaceDescriptionOption: IfIpv4Addr length != 8
    interface ipv4 65536 0 => InterfaceDescriptionOption: IfIpv4Addr length != 8
    interface ipv6 16 0 => InterfaceDescriptionOption: IfIpv6Addr length != 17
    interface mac 8 0 => InterfaceDescriptionOption: IfMacAddr length != 6
    names server-ipv4 5 0 => NameResolutionOption: NsDnsIpv4Addr length != 4
    names server-ipv6 0 0 => NameResolutionOption: NsDnsIpv6Addr length != 16
    interface filter 0 0 => InterfaceDescriptionOption: IfFilter is empty
    interface filter 65536 0 => Option: value length > 65535
    packet hash 65536 0 => Option: value length > 65535
    enhanced hash 65536 0 => Option: value length > 65535
    names custom-bytes 65532 2989 => Option: value length > 65535
    statistics comment 65536 0 => Option: value length > 65535
    section hardware 65536 0 => Option: value length > 65535
";

/// The digits of the first bytes of values.
pub(crate) const FILLING: &str = "01020304050607";

/// What is written after each row.
pub(crate) const NEXT_BIG: &str =
    "enhanced interface 0 1 => 00000006 00000024 00000001 00000001 00000002 00000002 00000003 61620000 00000024";

/// The same in little-endian byte order.
pub(crate) const NEXT_LITTLE: &str =
    "enhanced interface 0 1 => 06000000 24000000 01000000 01000000 02000000 02000000 03000000 61620000 24000000";

/// Checks each row of a table in this byte order, with `next` after it.
pub(crate) fn check_all(
    alloc: Global,
    order: Endianness,
    next: &str,
    table: &str,
) -> Result<(), Fail> {
    let letters = "a".repeat(alloc, 70_000)?;
    let digits = FILLING.repeat(alloc, 10_000)?;
    let bytes = bytes(alloc, digits.as_str())?;
    let place = Place {
        order,
        next,
        bytes: bytes.as_slice(),
        letters: letters.as_str(),
    };
    place.check_all(alloc, table)
}

// Checks each row of a table in both byte orders.
fn check_both(alloc: Global, table: &str) -> Result<(), Fail> {
    check_all(alloc, Endianness::Big, NEXT_BIG, table)?;
    check_all(alloc, Endianness::Little, NEXT_LITTLE, table)
}

#[test]
fn blocks(rt: HostRuntime) -> Result<(), Fail> {
    check_both(rt.alloc(), BLOCKS)
}

#[test]
fn records(rt: HostRuntime) -> Result<(), Fail> {
    check_both(rt.alloc(), RECORDS)
}

#[test]
fn options(rt: HostRuntime) -> Result<(), Fail> {
    check_both(rt.alloc(), OPTIONS)
}

// Returns why no writer is made for the section of a row.
fn refusal(alloc: Global, row: &str, output: &mut Narrow) -> Result<Option<PcapError>, Fail> {
    let letters = "a".repeat(alloc, 65_536)?;
    let (call, _numbers, _answer) = parsed(row, &[], letters.as_str())?;
    let section = section(alloc, call)?;
    Ok(PcapNgWriter::with_section_header(alloc, &section, output).err())
}

// Returns whether no writer is made for the section of a row, with this message, and nothing is written.
fn is_not_made(alloc: Global, row: &str, message: &str) -> Result<bool, Fail> {
    let mut output = Narrow::new(alloc, 1000, true);
    let is_told = match &refusal(alloc, row, &mut output)? {
        Some(error) => has_message(error, message),
        None => false,
    };
    Ok(is_told && output.out.is_empty() && output.calls == 0)
}

#[test]
fn first_section_of_no_order(rt: HostRuntime) -> Result<(), Fail> {
    let message = "SectionHeaderBlock: invalid magic number";
    assert!(rt; is_not_made(rt.alloc(), "section magic 0 0 => ", message)?);
    Ok(())
}

#[test]
fn first_section_with_a_long_text(rt: HostRuntime) -> Result<(), Fail> {
    let message = "Option: value length > 65535";
    assert!(rt; is_not_made(rt.alloc(), "section system 65536 0 => ", message)?);
    Ok(())
}

#[test]
fn messages_of_what_is_too_much(rt: HostRuntime) {
    assert!(rt; Unwritable::BlockTooLong.message() == "Block: length > 0xFFFFFFFF");
    assert!(rt; Unwritable::InterfacesFull.message() == "SectionHeader: too many interfaces");
}
