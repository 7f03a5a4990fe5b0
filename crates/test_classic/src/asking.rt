//! Counts the calls on streams and writers, and the buffers that they are given.

use crate::calls::every_row;
use crate::captures::capture_of;
use crate::scripts::reader;
use pcap_classic::pcap::PcapReader;
use std::alloc::Global;
use std::test::Fail;
use test_support::readers::Halting;

// Returns whether the next packet has this size, and no new buffer was used since the first packet.
fn holds_the_next(reader: &mut PcapReader<Halting>, size: usize) -> bool {
    let is_given = matches!(reader.next_header(), Some(Ok(_)));
    is_given && reader.data().len() == size && reader.get_ref().clear == 3
}

// Returns whether the five packets are held in one buffer.
fn holds_all(alloc: Global) -> bool {
    let Some(five) = capture_of(alloc, "five") else {
        return false;
    };
    let Ok(mut reader) = reader(alloc, five.as_slice(), 200) else {
        return false;
    };
    let mut is_so = true;
    // a new buffer is used for the capture's header, the first packet's header, and its data
    for size in [9, 9, 1, 5, 9] {
        is_so &= holds_the_next(&mut reader, size);
    }
    is_so
}

#[test]
fn held_packets_share_one_room(rt: HostRuntime) {
    assert!(rt; holds_all(rt.alloc()));
}

// A new buffer is used for the capture's header, the first packet's header, and its data.
#[test]
fn copied_packets_share_one_room(rt: HostRuntime) -> Result<(), Fail> {
    every_row(
        rt.alloc(),
        "0: copy given=five most=5 => 5 end, five 137 | clear=3",
    )
}

// Returns the size of the next packet, owned, if one comes.
fn owned_length(reader: &mut PcapReader<Halting>) -> Option<usize> {
    match reader.next() {
        Some(Ok(packet)) => Some(packet.data_.len()),
        _ => None,
    }
}

// Returns whether packets of these lengths come, or none, while the lent data stays.
fn keeps_lent_data(reader: &mut PcapReader<Halting>, lengths: [Option<usize>; 6]) -> bool {
    let mut is_kept = true;
    for length in lengths {
        is_kept &= owned_length(reader) == length && reader.data() == [7; 9].as_slice();
    }
    is_kept
}

// Returns whether the data of a lent packet stays while the reader gives the other packets as owned values.
fn stays_lent(alloc: Global, step: usize) -> bool {
    let Some(six) = capture_of(alloc, "six") else {
        return false;
    };
    let Ok(mut reader) = reader(alloc, six.as_slice(), step) else {
        return false;
    };
    let is_owned = owned_length(&mut reader) == Some(98) && reader.data().is_empty();
    let is_given = matches!(reader.next_header(), Some(Ok(_)));
    let lengths = [Some(9), Some(1), Some(5), Some(9), None, None];
    is_owned && is_given && keeps_lent_data(&mut reader, lengths)
}

#[test]
fn lent_data_stays_while_packets_are_owned(rt: HostRuntime) {
    assert!(rt; stays_lent(rt.alloc(), 1));
    assert!(rt; stays_lent(rt.alloc(), 200));
}

// All of them, which are whole in the buffer, are written in one call after the header.
#[test]
fn packets_go_out_together(rt: HostRuntime) -> Result<(), Fail> {
    let row =
        "65536: copy given=empties step=n buffer=n room=n width=n most=9999 => 2000 end, empties 32024 | writes=2";
    every_row(rt.alloc(), row)
}
