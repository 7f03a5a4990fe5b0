//! Packets that a reader lends.

use crate::calls::every_row;
use std::test::Fail;

#[test]
fn lent_packets(rt: HostRuntime) -> Result<(), Fail> {
    let row = "1 7 200: reader step=n => lent_nothing lent_packet lent_end | taken=138";
    every_row(rt.alloc(), row)
}

#[test]
fn torn_lent_packets(rt: HostRuntime) -> Result<(), Fail> {
    let row = "25 39 40 137: reader step=9 length=n => lent_UnexpectedEof lent_end";
    every_row(rt.alloc(), row)
}

// The reader has no header to read.
#[test]
fn readers_of_a_known_header(rt: HostRuntime) -> Result<(), Fail> {
    every_row(rt.alloc(), "9: known step=n start=24 => lent_packet")
}
