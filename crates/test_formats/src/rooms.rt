//! Checks how much space a filled buffer offers and takes, and how many writes are made.

use crate::rows::cause;
use pcap_core::ResultParsing;
use pcap_items::stream::{Told, put, take_bytes};
use std::alloc::{AllocError, Global};
use std::io::Read;
use std::test::Fail;
use test_support::readers::Halting;
use test_support::writers::Narrow;

// Lengths that are requested of a stream of two bytes. No memory can hold the last two.
const LENGTHS: [usize; 4] = [3, 0x0010_0000, 0x4000_0000_0000_0000, 0xffff_ffff_ffff_ffff];

// Returns whether a request of `n` bytes from a stream of two ends early, and no read is given a buffer of more than 65536 bytes.
fn asks_for(alloc: Global, n: usize) -> Result<bool, AllocError> {
    let mut stream = Halting::new(alloc, &[1, 2], 9)?;
    let mut has_failed = false;
    let taken = take_bytes(alloc, &mut stream, &mut has_failed, n);
    let is_torn = match &taken {
        Err(error) => cause(error) == "early end",
        Ok(_) => false,
    };
    let is_read = stream.taken == 2 && stream.calls == 2 && !has_failed;
    Ok(is_torn && is_read && stream.most_room == n.min(65_536))
}

#[test]
fn room_grows_with_the_bytes_that_come(rt: HostRuntime) -> Result<(), Fail> {
    for n in LENGTHS {
        assert!(rt; asks_for(rt.alloc(), n)?, "{n}");
    }
    Ok(())
}

// Returns a stream of 200000 bytes, which one read may give.
fn large(alloc: Global) -> Result<Halting, AllocError> {
    let mut stream = Halting::new(alloc, &[], 200_000)?;
    stream.bytes.resize(200_000, 7)?;
    Ok(stream)
}

// Returns whether its bytes come in four reads, each with space for the missing bytes, at most 65536.
fn takes_largest(alloc: Global) -> ResultParsing<bool> {
    let mut stream = large(alloc)?;
    let taken = take_bytes(alloc, &mut stream, &mut false, 200_000)?;
    let is_read = stream.calls == 4 && stream.most_room == 65_536;
    Ok(is_read && taken.as_slice() == stream.bytes.as_slice())
}

#[test]
fn reads_are_as_large_as_they_may_be(rt: HostRuntime) -> Result<(), Fail> {
    assert!(rt; takes_largest(rt.alloc())?);
    Ok(())
}

// Returns whether a read through a `Told` stream fills a buffer in one call.
fn fills(alloc: Global) -> Result<bool, AllocError> {
    let mut told = Told::new(large(alloc)?);
    let is_full = matches!(told.read(&mut [0; 150_000]), Ok(150_000));
    Ok(is_full && told.get_ref().calls == 1 && told.get_ref().most_room == 150_000)
}

// Checks that a read through a `Told` stream offers the whole buffer that it was given.
#[test]
fn told_reads_offer_all_room(rt: HostRuntime) -> Result<(), Fail> {
    assert!(rt; fills(rt.alloc())?);
    Ok(())
}

// Returns whether 200000 bytes are written in one call if the writer takes all that it is given.
fn goes_out_at_once(alloc: Global) -> Result<bool, AllocError> {
    let bytes = large(alloc)?.bytes;
    let mut output = Narrow::new(alloc, 300_000, true);
    let is_out = put(&mut output, &mut false, bytes.as_slice()).is_ok();
    Ok(is_out && output.out.as_slice() == bytes.as_slice() && output.calls == 1)
}

#[test]
fn writes_are_as_large_as_they_may_be(rt: HostRuntime) -> Result<(), Fail> {
    assert!(rt; goes_out_at_once(rt.alloc())?);
    Ok(())
}
