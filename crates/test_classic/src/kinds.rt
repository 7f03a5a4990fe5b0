//! The kinds of the errors inside `IoError`.

use crate::calls::every_row;
use std::test::Fail;

// Bytes of the capture in three reads, and then the end, or a call that fails.
#[test]
fn reads(rt: HostRuntime) -> Result<(), Fail> {
    let table = "
        7: header step=n length=21 => UnexpectedEof
        7: header step=n length=21 fails_at=4 kind=TimedOut => TimedOut
        7: reader step=n length=21 => refused UnexpectedEof
        7: reader step=n length=21 fails_at=4 kind=TimedOut => refused TimedOut
        5: packet_header start=24 step=n length=39 => UnexpectedEof
        5: packet_header start=24 step=n length=39 fails_at=4 kind=TimedOut => TimedOut
        10: packet start=24 step=n length=50 => UnexpectedEof
        10: packet start=24 step=n length=50 fails_at=4 kind=TimedOut => TimedOut
        50: reader step=n length=50 => UnexpectedEof
        50: reader step=n length=50 fails_at=4 kind=TimedOut => TimedOut
        50: run step=n length=50 => UnexpectedEof
        50: run step=n length=50 fails_at=4 kind=TimedOut => TimedOut
        50: copy step=n length=50 => 0 UnexpectedEof, one 24
        50: copy step=n length=50 fails_at=4 kind=TimedOut => 0 TimedOut read_failed, one 24
    ";
    every_row(rt.alloc(), table)
}

#[test]
fn empty_streams(rt: HostRuntime) -> Result<(), Fail> {
    let table = "
        9: header step=n length=0 => UnexpectedEof
        9: packet_header step=n length=0 => UnexpectedEof
        9: packet step=n length=0 => UnexpectedEof
    ";
    every_row(rt.alloc(), table)
}

// A writer without more space fails or takes nothing.
#[test]
fn writes(rt: HostRuntime) -> Result<(), Fail> {
    let table = "
        10: new_writer room=n fails=0 => WriteZero, turned n
        10: new_writer room=n => Other, turned n
        10: write room=n fails=0 => refused WriteZero, one n
        10: write room=n => refused Other, one n
        10: write_header room=n fails=0 => WriteZero, one n
        10: write_header room=n => Other, one n
        10: write_packet_header room=n fails=0 => WriteZero, packet_header n
        10: write_packet_header room=n => Other, packet_header n
        50: write room=n fails=0 => WriteZero, one n
        50: write room=n => Other, one n
        50: write room=n fails=0 interrupted=3 => Interrupted, one 40
        50: copy room=n fails=0 => 0 WriteZero write_failed, one n
        50: copy room=n => 0 Other write_failed, one n
    ";
    every_row(rt.alloc(), table)
}
