//! example_filter < PcapNg > PcapNg: copies a capture without its enhanced packets of less than 60 bytes on the wire. It copies each
//! other block byte for byte.
#![tactic(auto)]

use anyhow::Result;
use pcap_file::PcapNgReader;
use pcap_file::pcapng::{Block, ParsedBlock};
use std::alloc::Global;
use std::io::{BufReader, BufWriter, Write};

/// The length of the shortest Ethernet frame, without its checksum, in bytes.
const SHORTEST: u32 = 60;

/// Returns whether a block is kept.
fn is_kept(alloc: Global, block: &Block) -> Result<bool> {
    match block.parsed(alloc)? {
        ParsedBlock::EnhancedPacket(packet) => Ok(packet.original_len >= SHORTEST),
        _ => Ok(true),
    }
}

fn main(rt: HostRuntime) -> Result<()> {
    let input = BufReader::new(rt.alloc(), rt.stdin())?;
    let mut output = BufWriter::new(rt.alloc(), rt.stdout())?;
    let mut reader = PcapNgReader::new(rt.alloc(), input)?;
    output.write_all(reader.text())?;
    for _ in 0..u64::MAX {
        let Some(header) = reader.next_header() else {
            break;
        };
        if is_kept(rt.alloc(), &reader.block(header?))? {
            output.write_all(reader.text())?;
        }
    }
    output.flush()?;
    Ok(())
}
