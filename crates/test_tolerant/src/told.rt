//! Output of lenient reading: lines about packets and blocks, lines about their flaws, and mended packets and blocks that break no rule.

use crate::block_rows::{NUMBERS, OPTIONS};
use crate::streams::CAPTURE;
use pcap_core::Endianness;
use pcap_tolerant::ReaderAsIs;
use pcap_tolerant_captures::PcapNgReaderAsIs;
use pcapfile_as_is::{
    BlockPacketLines, BlockRepairs, BlockTeller, Counted, FlawLines, PacketLines, Repairs, Teller,
    tell_blocks, tell_flaws, tell_packets,
};
use std::alloc::Global;
use std::test::Fail;
use test_support::readers::Halting;
use test_support::rows::{are_digits, bytes, same};
use test_support::writers::Narrow;

// What a call writes, and what it counts.
#[derive(Drop)]
struct Output {
    bytes: Vec<u8>,
    counted: Counted,
}

// Returns a failure if these are not the lines of a text, or the counts not those after the lines.
fn is_text(alloc: Global, lines: &[u8], counted: Counted, text: &str) -> Result<(), Fail> {
    let lines = str::from_utf8(lines).unwrap_or("not UTF-8");
    let Counted {
        items,
        flawed,
        bytes,
    } = counted;
    let told = format!(in alloc; "{lines}{items} items, {flawed} flawed, {bytes} bytes")?;
    same(told.as_str(), text)
}

// Returns what is written about the packets of the capture.
fn written<P: Teller>(alloc: Global, teller: &mut P) -> Result<Output, Fail> {
    let capture = bytes(alloc, CAPTURE)?;
    let stream = Halting::new(alloc, capture.as_slice(), 9)?;
    let mut reader = ReaderAsIs::new(alloc, stream, 0)?;
    let mut output = Narrow::new(alloc, 4096, true);
    let mut counted = Counted {
        items: 0,
        flawed: 0,
        bytes: 24,
    };
    match tell_packets(
        alloc,
        teller,
        &mut reader,
        &mut output,
        u64::MAX,
        &mut counted,
    ) {
        Ok(None) => Ok(Output {
            bytes: output.out,
            counted,
        }),
        _ => Err("an early end")?,
    }
}

// The lines about the packets of the capture, and the counts.
const LINES: &str = "1 7.000005000 3/3
2 12.294968000 3/2 !2 !5
3 9.000000000 3/0 !5
3 items, 2 flawed, 81 bytes";

// The lines about their flaws, and the counts.
const FLAWS: &str = "a: packet 2 at byte 43 breaks rule 2: PacketHeader ts_usec * 1000 > 0xFFFFFFFF
a: packet 2 at byte 43 breaks rule 5: PacketHeader incl_len > orig_len
a: packet 3 at byte 62 breaks rule 5: PacketHeader incl_len > orig_len
3 items, 2 flawed, 81 bytes";

// Returns a failure if other lines are written about the packets of the capture.
fn tells<P: Teller>(alloc: Global, teller: &mut P, text: &str) -> Result<(), Fail> {
    let written = written(alloc, teller)?;
    is_text(alloc, written.bytes.as_slice(), written.counted, text)
}

#[test]
fn lines(rt: HostRuntime) -> Result<(), Fail> {
    tells(rt.alloc(), &mut PacketLines, LINES)?;
    tells(rt.alloc(), &mut FlawLines { prefix: "a: " }, FLAWS)
}

// The packets of the capture after their repair.
const REPAIRED: &str = "
    07000000 05000000 03000000 03000000 010203
    0c000000 38800400 03000000 03000000 040506
    09000000 00000000 03000000 03000000 070809";

#[test]
fn repairs(rt: HostRuntime) -> Result<(), Fail> {
    let mut repairs = Repairs {
        order: Endianness::Little,
        prefix: String::from_str(rt.alloc(), "a: ")?,
        notes: Narrow::new(rt.alloc(), 4096, true),
        room: Vec::new(rt.alloc()),
    };
    let written = written(rt.alloc(), &mut repairs)?;
    let is_made = are_digits(written.bytes.as_slice(), REPAIRED);
    assert!(rt;
        is_made
            && written.counted.items == 3
            && written.counted.flawed == 2
            && written.counted.bytes == 81
    );
    Ok(())
}

// Returns what is written about the blocks of the first capture of a table, or of the one in these digits: by a teller, or about flaws.
fn written_of_blocks<P: BlockTeller>(
    alloc: Global,
    teller: Option<&mut P>,
    table: &str,
) -> Result<Output, Fail> {
    let (digits, _text) = table.split_once("=>").unwrap_or((table, ""));
    let capture = bytes(alloc, digits)?;
    let stream = Halting::new(alloc, capture.as_slice(), 9)?;
    let mut reader = PcapNgReaderAsIs::new(alloc, stream);
    let mut output = Narrow::new(alloc, 4096, true);
    let mut counted = Counted {
        items: 0,
        flawed: 0,
        bytes: 0,
    };
    let (out, count) = (&mut output, &mut counted);
    let ended = match teller {
        Some(teller) => tell_blocks(alloc, teller, &mut reader, out, u64::MAX, count),
        None => tell_flaws(alloc, "a: ", &mut reader, out, u64::MAX, count),
    };
    match ended {
        Ok(None) => Ok(Output {
            bytes: output.out,
            counted,
        }),
        _ => Err("an early end")?,
    }
}

// The flaws of the first capture of the table of options, in either byte order.
const BLOCK_FLAWS: &str = "a: block 1 at byte 0 is not UTF-8 in option 1
a: block 2 at byte 48 is not UTF-8 in option 1
a: block 2 at byte 48 breaks rule 1901 in option 4: InterfaceDescriptionOption: IfIpv4Addr length != 8
a: block 2 at byte 48 breaks rule 1905 in option 8: InterfaceDescriptionOption: IfSpeed length != 8
4 items, 2 flawed, 216 bytes";

// The flaws of the first capture of the table of numbers.
const NUMBER_FLAWS: &str =
    "a: block 2 at byte 28 breaks rule 12: InterfaceDescriptionBlock: block length < 8
a: block 7 at byte 184 breaks rule 18: Option: length + pad.len() > slice.len()
a: block 9 at byte 256 breaks rule 1906 in option 9: InterfaceDescriptionOption: IfTsResol length != 1
11 items, 3 flawed, 364 bytes";

// The packets in the blocks of the first capture of either table.
const OPTION_LINES: &str = "1 1700000000.123456789 1/1 0
2 1700000000.000000005 1/1 0 !1911 !utf8
2 items, 3 flawed, 216 bytes";

const NUMBER_LINES: &str = "1 - 1/1 0
2 1700003600.000007000 1/1 1
3 - 1/1 2
4 - 1/1 0
5 3.000976562 1/1 0
6 - 1/1 1
6 items, 3 flawed, 364 bytes";

// A section and an interface in microseconds with a snapshot length of 4, and then: an obsolete packet with flags of 2 bytes and a custom
// option without a number; a simple packet of 6 bytes on the wire, and one with an empty body; two enhanced packets, one with no space
// for its fields and one with none for its bytes; and name records.
const KINDS: &str = "
    0a0d0d0a 0000001c 1a2b3c4d 00010000 ffffffff ffffffff 0000001c
    00000001 00000014 00010000 00000004 00000014
    00000002 00000038 00000000 00000000 00000005 00000003 00000004 aabbcc00 00020002 78790000 0bac0002 61620000 00000000 00000038
    00000003 00000014 00000006 01020304 00000014
    00000003 0000000c 0000000c
    00000006 0000001c 00000000 00000000 00000000 00000000 0000001c
    00000006 00000024 00000000 00000000 00000000 00000005 00000005 aa000000 00000024
    00000004 00000010 00000000 00000010
    00000006 00000024 00000000 00000000 000f4240 00000001 00000002 aa000000 00000024
";

const KIND_LINES: &str = "1 0.000005000 3/4 0 !1913 !short
2 - 4/6 0
3 refused !15
4 refused !13
5 refused !14
6 1.000000000 1/2 0
6 items, 4 flawed, 252 bytes";

// Returns a failure if other lines are written about the blocks of a capture: about packets, or about flaws.
fn tells_blocks(
    alloc: Global,
    teller: Option<&mut BlockPacketLines>,
    table: &str,
    text: &str,
) -> Result<(), Fail> {
    let written = written_of_blocks(alloc, teller, table)?;
    is_text(alloc, written.bytes.as_slice(), written.counted, text)
}

#[test]
fn flaws_of_blocks(rt: HostRuntime) -> Result<(), Fail> {
    tells_blocks(rt.alloc(), None, OPTIONS, BLOCK_FLAWS)?;
    tells_blocks(rt.alloc(), None, NUMBERS, NUMBER_FLAWS)
}

#[test]
fn packets_in_blocks(rt: HostRuntime) -> Result<(), Fail> {
    let mut lines = BlockPacketLines;
    tells_blocks(rt.alloc(), Some(&mut lines), OPTIONS, OPTION_LINES)?;
    tells_blocks(rt.alloc(), Some(&mut lines), NUMBERS, NUMBER_LINES)?;
    tells_blocks(rt.alloc(), Some(&mut lines), KINDS, KIND_LINES)
}

// The first capture of the table of numbers after mending.
const NUMBERS_MENDED: &str = "
    0a0d0d0a 1c000000 4d3c2b1a 01000000 ffffffff ffffffff 1c000000
    01000000 14000000 01000000 00000000 14000000
    01000000 20000000 01000000 00000400 0e000800 100e0000 00000000 20000000
    06000000 24000000 00000000 240a0600 00401e18 01000000 01000000 aa000000 24000000
    06000000 24000000 01000000 240a0600 07401e18 01000000 01000000 aa000000 24000000
    06000000 24000000 02000000 00000000 05000000 01000000 01000000 aa000000 24000000
    0a0d0d0a 0000001c 1a2b3c4d 00010000 ffffffff ffffffff 0000001c
    00000006 00000024 00000000 00000000 00000001 00000001 00000001 aa000000 00000024
    00000001 0000001c 00010000 00040000 00090001 8a000000 0000001c
    00000006 00000024 00000000 00000000 00000c01 00000001 00000001 aa000000 00000024
    00000006 00000024 00000001 00000000 00000001 00000001 00000001 aa000000 00000024";

// The messages about it, and the counts.
const NUMBERS_SAID: &str =
    "a: block 2 at byte 28: its body is too short for an interface, and is filled up with zeros, so that its packets get a link type and times
a: block 7 at byte 184: options that break rules are left out
a: block 9 at byte 256: options that break rules are left out
11 items, 3 flawed, 364 bytes";

// Two sections that state a length, the second with a comment that isn't UTF-8, and a packet with no space for its fields.
const STATED: &str = "
    0a0d0d0a 0000001c 1a2b3c4d 00010000 00000000 0000001c 0000001c
    00000006 0000001c 00000000 00000000 00000000 00000000 0000001c
    0a0d0d0a 00000024 1a2b3c4d 00010000 00000000 00000000 00010001 ff000000 00000024";

const STATED_MENDED: &str = "
    0a0d0d0a 0000001c 1a2b3c4d 00010000 ffffffff ffffffff 0000001c
    0a0d0d0a 0000001c 1a2b3c4d 00010000 ffffffff ffffffff 0000001c";

const STATED_SAID: &str = "a: block 1 at byte 0: the length of its section is stated no more
a: block 2 at byte 28: its body breaks a rule, and it is left out
a: block 3 at byte 56: options that break rules are left out, and the length of its section is stated no more
3 items, 3 flawed, 92 bytes";

// Returns a failure if the blocks of a capture become others than those in these digits, or the messages or counts are others.
fn mends(alloc: Global, table: &str, digits: &str, text: &str) -> Result<(), Fail> {
    let mut repairs = BlockRepairs {
        prefix: String::from_str(alloc, "a: ")?,
        notes: Narrow::new(alloc, 4096, true),
        body: Vec::new(alloc),
        text: Vec::new(alloc),
    };
    let written = written_of_blocks(alloc, Some(&mut repairs), table)?;
    if !are_digits(written.bytes.as_slice(), digits) {
        return Err("other blocks")?;
    }
    is_text(alloc, repairs.notes.out.as_slice(), written.counted, text)
}

#[test]
fn mended_captures(rt: HostRuntime) -> Result<(), Fail> {
    mends(rt.alloc(), NUMBERS, NUMBERS_MENDED, NUMBERS_SAID)?;
    mends(rt.alloc(), STATED, STATED_MENDED, STATED_SAID)
}
