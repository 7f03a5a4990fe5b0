//! Reading from streams.

use crate::calls::every_row;
use crate::scripts::reads;
use pcap_classic::ResultParsing;
use pcap_classic::run::{PcapRead, read_pcap};
use std::alloc::{AllocError, Global};
use std::test::Fail;
use test_support::captures::{BIG_HEAD, back, big, front};
use test_support::readers::{EndsOnce, Halting};

#[test]
fn readers(rt: HostRuntime) -> Result<(), Fail> {
    // nothing comes after a packet that is refused; packets under a magic number that was put into the header; and a wrong magic number,
    // which is refused after one byte of the next packet, for any part of it
    let table = "
        1 7 9 200 300 500: reader step=n => packet end
        1 7 9 200 300 500: reader step=n given=wrong => refused magic | taken=24
        1 7 9 200 300 500: reader step=n given=wrong length=10 => refused UnexpectedEof | taken=10
        1 7 9 200 300 500: reader step=n given=long_first => length end
        1 7 9 200 300 500: reader step=n given=two => packet put_fine fine put_wrong end
        1 7 9 200 300 500: reader step=n given=two => packet put_wrong magic end | taken=139
        1 7 9 200 300 500: reader step=n given=two length=238 => packet put_wrong magic end | taken=139
        1 7 9 200 300 500: reader step=n given=two length=143 => packet put_wrong magic end | taken=139
        1 7 9 200 300 500: reader step=n length=29 => put_wrong magic end | taken=25
    ";
    every_row(rt.alloc(), table)
}

#[test]
fn runs(rt: HostRuntime) -> Result<(), Fail> {
    // at most the requested packets, and no more bytes; and a packet that is refused after the first one
    let table = "
        1 7 9 200 300 500: run step=n given=alike => packet packet packet end
        1 7 9 200 300 500: run step=n given=wrong => refused magic | taken=24
        1 7 9 200 300 500: run step=n most=0 => end | taken=24
        1 7 9 200 300 500: run step=n given=long most=1 => packet end | taken=138
        1 7 9 200 300 500: run step=n given=long length=143 most=1 => packet end | taken=138
        1 7 9 200 300 500: run step=n most=1 => packet end | taken=138 ends=0
        1 7 9 200 300 500: run step=n given=long => packet length | taken=154
    ";
    every_row(rt.alloc(), table)
}

#[test]
fn every_beginning(rt: HostRuntime) -> Result<(), Fail> {
    let table = "
        0..24: run step=1 length=n => refused UnexpectedEof
        24: run step=1 length=n => end
        25..138: run step=1 length=n => UnexpectedEof
        138: run step=1 length=n => packet end
    ";
    every_row(rt.alloc(), table)
}

#[test]
fn every_failed_read(rt: HostRuntime) -> Result<(), Fail> {
    let table = "
        1..25: run step=1 given=two fails_at=n => refused Other | reads=n
        25..139: run step=1 given=two fails_at=n => Other | reads=n
        139..253: run step=1 given=two fails_at=n => packet Other | reads=n
        253: run step=1 given=two fails_at=n => packet packet Other | reads=n
    ";
    every_row(rt.alloc(), table)
}

// The call that fails, after 50 bytes, and the most bytes of one read.
#[test]
fn interrupted_reads(rt: HostRuntime) -> Result<(), Fail> {
    let row =
        "51/1 4/50: reader length=50 step=m fails_at=n kind=Interrupted => Interrupted end | reads=n";
    every_row(rt.alloc(), row)
}

// Parts of the capture by themselves, after which nothing more is taken.
#[test]
fn values(rt: HostRuntime) -> Result<(), Fail> {
    let table = "
        1 7 9 200 300 500: header step=n => given | taken=24
        1 7 9 200 300 500: packet_header step=n start=24 => given | taken=40
        1 7 9 200 300 500: packet step=n start=24 => packet | taken=138
        1 7 9 200 300 500: header step=n given=wrong => magic
    ";
    every_row(rt.alloc(), table)
}

// Returns whether a reader of a slice refuses a wrong magic number after the same bytes as a reader of a stream.
fn refuses_at_once(alloc: Global, bytes: &[u8]) -> bool {
    let mut left = bytes;
    reads(alloc, &mut left, "put_wrong magic end") && left.len() == 29 - 24 - 1
}

// Returns whether the capture's packet comes, then the end, and then both again.
fn goes_on(alloc: Global, whole: &[u8], step: usize) -> bool {
    let stream = EndsOnce {
        first: whole,
        second: back(whole, 24),
        step,
        has_ended: false,
    };
    reads(alloc, stream, "packet end packet end")
}

#[test]
fn other_streams(rt: HostRuntime) -> Result<(), Fail> {
    let whole = big(rt.alloc())?;
    let whole = whole.as_slice();
    assert!(rt; goes_on(rt.alloc(), whole, 1));
    assert!(rt; goes_on(rt.alloc(), whole, 200));
    assert!(rt; refuses_at_once(rt.alloc(), front(whole, 29)));
    Ok(())
}

// Returns whether this is a run of one packet of this length.
fn is_large(read: &ResultParsing<PcapRead>, length: usize) -> bool {
    match read {
        Ok(read) => match read.packets.as_slice() {
            [packet] => read.fault.is_none() && packet.data_.len() == length,
            _ => false,
        },
        Err(_) => false,
    }
}

// Returns whether a large packet is read in the expected calls: one for the capture's header, one for the packet's header, four for its
// data, and one at the end.
fn reads_large(alloc: Global) -> Result<bool, AllocError> {
    let mut stream = Halting::new(alloc, &BIG_HEAD[..24], 100_000)?;
    stream
        .bytes
        .extend_from_slice(&[0, 0, 0, 0, 0, 0, 0, 0, 0, 4, 0, 0, 0, 4, 0, 0])?;
    stream.bytes.resize(24 + 16 + 262_144, 7)?;
    let is_one = is_large(&read_pcap(alloc, &mut stream, 9), 262_144);
    Ok(is_one && stream.calls == 7 && stream.most_room == 65536)
}

#[test]
fn large_packets(rt: HostRuntime) {
    assert!(rt; matches!(reads_large(rt.alloc()), Ok(true)));
}
