//! Copies from streams to writers.

use crate::calls::{every_row, through_each_buffer};
use std::test::Fail;

#[test]
fn rows(rt: HostRuntime) -> Result<(), Fail> {
    // other headers; at most the requested packets, before one that is refused; no call after them; wrong magic numbers, with which nothing
    // is read or nothing is written; and a capture that ends inside its packet
    let table = "
        1 7 99 200: copy step=n under=little_nano => 1 end, fine 138
        1 7 99 200: copy step=n given=nanoseconds under=big_micro => 1 end, cut 40
        1 7 99 200: copy step=n given=long most=0 => 0 end, one 24 | taken=24
        1 7 99 200: copy step=n given=long most=1 => 1 end, one 138 | taken=138
        1 7 99 200: copy step=n given=long most=2 => 1 length, one 138
        1 7 99 200: copy step=n most=1 => 1 end, one 138 | ends=0
        1 7 99 200: copy step=n most=1 under=little_micro => 1 end, turned 138 | ends=0
        1 7 99 200: copy step=n length=40 under=wrong => 0 magic | reads=0
        1 7 99 200: copy step=n given=wrong => 0 magic
        1 7 99 200: copy step=n length=40 => 0 UnexpectedEof, one 24
    ";
    through_each_buffer(rt.alloc(), table)
}

#[test]
fn fractions_are_cut(rt: HostRuntime) -> Result<(), Fail> {
    every_row(rt.alloc(), "1 99: run step=n given=cut => empty end")
}

#[test]
fn every_room(rt: HostRuntime) -> Result<(), Fail> {
    let table = "
        0..138: copy step=1 room=n fails=0 => 0 WriteZero write_failed, one n
        0..138: copy step=50 room=n fails=0 => 0 WriteZero write_failed, one n
        0..138: copy step=50 room=n => 0 Other write_failed, one n
        0..138: copy room=n fails=0 => 0 WriteZero write_failed, one n
    ";
    through_each_buffer(rt.alloc(), table)
}

// A packet counts only if it was written whole. The one in which a write failed was taken.
#[test]
fn torn_packets(rt: HostRuntime) -> Result<(), Fail> {
    let table = "
        24..138: copy given=three room=n => 0 Other write_failed, three n | taken=138
        138..154: copy given=three room=n => 1 Other write_failed, three n | taken=154
        154..170: copy given=three room=n => 2 Other write_failed, three n | taken=170
        24..138: copy given=three room=n under=big_micro => 0 Other write_failed, three n | taken=138
        138..154: copy given=three room=n under=big_micro => 1 Other write_failed, three n | taken=154
        154..170: copy given=three room=n under=big_micro => 2 Other write_failed, three n | taken=170
        24..138: copy given=three room=n under=little_micro => 0 Other write_failed, turned n | taken=138
        138..154: copy given=three room=n under=little_micro => 1 Other write_failed, turned n | taken=154
        154..170: copy given=three room=n under=little_micro => 2 Other write_failed, turned n | taken=170
    ";
    through_each_buffer(rt.alloc(), table)
}

// Each call of a writer that takes at most ten bytes in a call, and how many bytes were written before it: the capture's header, that of
// the packet, and the packet's bytes.
#[test]
fn interrupted_writes(rt: HostRuntime) -> Result<(), Fail> {
    let table = "
        1/0 2/10 3/20 4/24 5/34 6/40 7/50 8/60 9/70 10/80 11/90 12/100 13/110 14/120 15/130: copy under=little_micro width=10 interrupted=n => 0 Interrupted write_failed, turned m | writes=n
        1/0 2/10 3/20 4/24 5/34 6/40 7/50 8/60 9/70 10/80 11/90 12/100 13/110 14/120 15/130: copy under=little_micro width=10 idle=n => 0 WriteZero write_failed, turned m | writes=n
    ";
    through_each_buffer(rt.alloc(), table)
}

// The same for some calls if the byte order stays: then ten bytes of the packet are written in each call after the header.
#[test]
fn interrupted_stretches(rt: HostRuntime) -> Result<(), Fail> {
    let table = "
        3/20 4/24 5/34 6/44 14/124 15/134: copy width=10 interrupted=n => 0 Interrupted write_failed, one m | writes=n
        3/20 4/24 5/34 6/44 14/124 15/134: copy width=10 idle=n => 0 WriteZero write_failed, one m | writes=n
    ";
    through_each_buffer(rt.alloc(), table)
}

#[test]
fn every_failed_read(rt: HostRuntime) -> Result<(), Fail> {
    let table = "
        1..25: copy step=1 fails_at=n kind=Interrupted => 0 Interrupted read_failed | reads=n
        25..139: copy step=1 fails_at=n kind=Interrupted => 0 Interrupted read_failed, one 24 | reads=n
        139: copy step=1 fails_at=n kind=Interrupted => 1 Interrupted read_failed, one 138 | reads=n
    ";
    through_each_buffer(rt.alloc(), table)
}

#[test]
fn torn_headers(rt: HostRuntime) -> Result<(), Fail> {
    let row = "0..24: copy step=9 length=n => 0 UnexpectedEof | taken=n";
    through_each_buffer(rt.alloc(), row)
}

// At most the reads of all 138 bytes through a buffer, and one at the end.
#[test]
fn one_end(rt: HostRuntime) -> Result<(), Fail> {
    let row = "7/24 5/40 3/100 2/65536: copy buffer=m => 1 end, one 138 | most_reads=n";
    every_row(rt.alloc(), row)
}
