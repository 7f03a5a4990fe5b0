//! Whole runs over slices.

use pcap_classic::run::parse_pcap;
use std::alloc::Global;
use std::test::Fail;
use test_support::rows::{bytes, rows};

/// A big-endian header in microseconds.
const HEADER: &str = "a1b2c3d4 0002 0004 00000000 00000000 0000ffff 00000001";

// Formats the run over these digits: its packets, how many bytes it takes, and what follows them.
fn run(alloc: Global, digits: &str) -> Result<String, Fail> {
    let bytes = bytes(alloc, digits)?;
    let run = match parse_pcap(alloc, bytes.as_slice()) {
        Ok(run) => run,
        Err(error) => return Ok(format!(in alloc; "{error:?}")?),
    };
    let mut told = String::new(alloc);
    for packet in &run.packets {
        let header = packet.header;
        let packet = format!(in alloc;
            "{}.{} {}/{} {:?}, ",
            header.ts_sec, header.ts_nsec, header.incl_len, header.orig_len, packet.data_
        )?;
        told.push_str(packet.as_str())?;
    }
    Ok(format!(in alloc; "{told}used {} {:?}", run.used, run.rest)?)
}

#[test]
fn runs_over_packets(rt: HostRuntime) -> Result<(), Fail> {
    let table = r#"
        => used 24 Clean
        00000001 00000002 00000003 00000004 aabbcc 00000005 000003e7 00000000 00000009 => 1.2000 3/4 Borrowed([170, 187, 204]), 5.999000 0/9 Borrowed([]), used 59 Clean
        00000001 00000002 00000001 00000001 aa 00000003 00000004 00000002 00000002 bbcc 00000005 00000006 00000000 00000000 => 1.2000 1/1 Borrowed([170]), 3.4000 2/2 Borrowed([187, 204]), 5.6000 0/0 Borrowed([]), used 75 Clean
        00000001 00000002 00000001 00000001 aa 00000003 => 1.2000 1/1 Borrowed([170]), used 41 Needs(12)
        00000001 00000002 00000001 00000001 aa 00000003 00000004 00000007 00000007 bbcc => 1.2000 1/1 Borrowed([170]), used 41 Needs(5)
        00000001 00000002 00000001 00000001 aa 00000003 00418938 00000000 00000000 => 1.2000 1/1 Borrowed([170]), used 41 Refused(InvalidField("PacketHeader ts_usec * 1000 > 0xFFFFFFFF"))
        00000001 00000002 00000001 00000001 aa 00000003 00000004 00040001 00040001 => 1.2000 1/1 Borrowed([170]), used 41 Refused(InvalidField("PacketHeader incl_len > 0x40000"))
        00000001 00000002 00000001 00000001 aa 00000003 00000004 00000000 00040001 => 1.2000 1/1 Borrowed([170]), used 41 Refused(InvalidField("PacketHeader orig_len > 0x40000"))
        00000001 00000002 00000001 00000001 aa 00000003 00000004 00000002 00000001 => 1.2000 1/1 Borrowed([170]), used 41 Refused(InvalidField("PacketHeader incl_len > orig_len"))
        00000001 00000002 00000000 00000000 00000003 00000004 00000000 00000000 00000005 00000006 00000002 00000001 aabb => 1.2000 0/0 Borrowed([]), 3.4000 0/0 Borrowed([]), used 56 Refused(InvalidField("PacketHeader incl_len > orig_len"))
    "#;
    for (digits, told) in rows(rt.alloc(), table)? {
        let digits = format!(in rt.alloc(); "{HEADER} {digits}")?;
        let run = run(rt.alloc(), digits.as_str())?;
        assert_eq!(rt; run.as_str(), told, "at {digits}");
    }
    Ok(())
}

#[test]
fn refused_runs(rt: HostRuntime) -> Result<(), Fail> {
    let table = r#"
        a1b2c3d5 0002 0004 00000000 00000000 0000ffff 00000001 => InvalidField("PcapHeader wrong magic number")
        0a0d0d0a 0000001c 1a2b3c4d 00010000 ffffffff ffffffff 0000001c => InvalidField("PcapHeader wrong magic number")
        00000000 0002 0004 00000000 00000000 0000ffff 00000001 00000001 00000002 00000000 00000000 => InvalidField("PcapHeader wrong magic number")
        a1b2c3d5 0002 0004 00000000 00000000 0000ffff 000000 => IncompleteBuffer(1)
        => IncompleteBuffer(24)
    "#;
    for (digits, told) in rows(rt.alloc(), table)? {
        let run = run(rt.alloc(), digits)?;
        assert_eq!(rt; run.as_str(), told, "at {digits}");
    }
    Ok(())
}
