//! calling_slice < capture: prints a line for each packet of a capture in memory, and what follows the packets.
#![tactic(auto)]

use pcap_file::PcapError;
use pcap_file::run::{PcapRun, Rest, parse_pcap};
use std::io::Read;

fn main(rt: HostRuntime) -> Result<(), PcapError> {
    let mut bytes = Vec::new(rt.alloc());
    rt.stdin().read_to_end(&mut bytes)?;
    let PcapRun { packets, rest, .. } = parse_pcap(rt.alloc(), bytes.as_slice())?;
    for packet in &packets {
        println!(rt;
            "{} of {} bytes",
            packet.data_.len(),
            packet.header.orig_len
        )?;
    }
    match rest {
        Rest::Clean => println!(rt; "nothing follows")?,
        Rest::Needs(n) => println!(rt; "the next packet lacks {n} bytes")?,
        Rest::Refused(error) => println!(rt; "no packet follows: {error}")?,
    }
    Ok(())
}
