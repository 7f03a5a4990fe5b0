//! Lenient runs over whole classic captures. The captures were written by hand.

use crate::tables::told_end;
use pcap_tolerant::parse_pcap_as_is;
use std::alloc::Global;
use std::test::Fail;
use test_support::rows::every_row;

// Captures with a big-endian header, and the packets in them.
const RUNS: &str = r#"
    a1b2c3d4 00020004 00000000 00000000 0000ffff 00000001  00000001 00000002 00000001 00000001 aa  00000001 00000002 00000001 00000000 bb  00000001 00000002 00000000 00000000  00000001 004c4b40 00000000 00000000  cc => 4 packets, 2 flawed, first Some(1), 90 bytes, Needs(15)
    a1b2c3d4 00020004 00000000 00000000 0000ffff 00000001 => 0 packets, 0 flawed, first None, 24 bytes, Clean
    a1b2c3d4 00020004 00000000 00000000 0000ffff 00000001  00000001 00000002 00000000 00000000  00000001 00000002 00040001 00000000 => 1 packets, 0 flawed, first None, 40 bytes, Refused(InvalidField("PacketHeader incl_len > 0x40000"))
"#;

// Formats the number of packets, how many are flawed, the first flawed one, how many bytes the packets take, and the rest.
fn told(alloc: Global, capture: &[u8]) -> Result<String, Fail> {
    match parse_pcap_as_is(alloc, capture, 262144) {
        Ok(run) => {
            let (packets, flawed, first) = (run.packets.len(), run.flawed(), run.first_flawed());
            let (used, rest) = (run.used, &run.rest);
            Ok(format!(in alloc;
                "{packets} packets, {flawed} flawed, first {first:?}, {used} bytes, {rest:?}"
            )?)
        }
        Err(error) => told_end(alloc, &error),
    }
}

#[test]
fn flawed_packets_among_others(rt: HostRuntime) -> Result<(), Fail> {
    every_row(rt.alloc(), RUNS, told)
}
