//! calling_stream < capture: a line for each packet of a capture that comes off a stream.
#![tactic(auto)]

use pcap_file::{PcapError, PcapReader};
use std::io::BufReader;

fn main(rt: HostRuntime) -> Result<(), PcapError> {
    let input = BufReader::new(rt.alloc(), rt.stdin())?;
    let reader = PcapReader::new(rt.alloc(), input)?;
    for packet in reader.take(usize::MAX) {
        let packet = packet?;
        let time = packet.header.timestamp();
        let len = packet.data_.len();
        println!(rt; "{}.{:09} {len} bytes", time.as_secs(), time.subsec_nanos())?;
    }
    Ok(())
}
