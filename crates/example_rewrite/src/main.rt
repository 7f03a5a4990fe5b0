//! example_rewrite < PcapNg > PcapNg: writes a capture again from the values of its blocks, in each section's own byte order. Lists of
//! options get their end mark, and padding is zero.
#![tactic(auto)]

use anyhow::Result;
use pcap_file::{PcapNgReader, PcapNgWriter};
use std::io::{BufReader, BufWriter, Write};

fn main(rt: HostRuntime) -> Result<()> {
    let input = BufReader::new(rt.alloc(), rt.stdin())?;
    let output = BufWriter::new(rt.alloc(), rt.stdout())?;
    let mut reader = PcapNgReader::new(rt.alloc(), input)?;
    let mut writer = PcapNgWriter::with_section_header(rt.alloc(), reader.section(), output)?;
    for _ in 0..u64::MAX {
        let Some(header) = reader.next_header() else {
            break;
        };
        let block = reader.block(header?);
        writer.write_block(&block.parsed(rt.alloc())?)?;
    }
    writer.into_writer().flush()?;
    Ok(())
}
