//! calling_as_is < capture: prints a line for each packet, with the first rule that it breaks, and the places where packets are found
//! again after corrupt bytes.
#![tactic(auto)]

use pcap_file::PcapError;
use pcap_file::pcap::PcapParser;
use pcap_tolerant::next_packet_as_is;
use pcap_tolerant::resync::resync;
use std::io::Read;

fn main(rt: HostRuntime) -> Result<(), PcapError> {
    let mut bytes = Vec::new(rt.alloc());
    rt.stdin().read_to_end(&mut bytes)?;
    let (mut left, parser) = PcapParser::new(bytes.as_slice())?;
    for _ in 0..u64::MAX {
        if left.is_empty() {
            break;
        }
        match next_packet_as_is(&parser, left, 262144) {
            Ok((rest, packet)) => {
                let time = packet.timestamp(parser.header().ts_resolution());
                let flaw = packet.flaws.first().map_or("no flaw", |rule| rule.text());
                println!(rt;
                    "{}.{:09} {} of {} bytes: {flaw}",
                    time.as_secs(),
                    time.subsec_nanos(),
                    packet.data.len(),
                    packet.orig_len
                )?;
                left = rest;
            }
            Err(error) => {
                let at = resync(&parser, left, 2).unwrap_or(left.len());
                println!(rt; "no packet: {error}; {at} bytes are passed over")?;
                left = &left[at..];
            }
        }
    }
    Ok(())
}
