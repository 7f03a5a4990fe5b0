//! example_feed < capture: prints a line for each packet of a capture that comes in pieces, as from a socket.
//!
//! The parser returns how many bytes it lacks. The program waits for exactly these bytes before it calls the parser again. So it waits
//! at most twice for each packet, however few bytes a read gives, and holds no bytes after the packet.

#![tactic(auto)]

use anyhow::{Result, bail};
use pcap_file::{PcapError, PcapParser};
use std::io::{self, Read};

/// A source that gives few bytes at a time, as a socket may.
#[derive(Drop)]
struct Socket<R> {
    inner: R,
}

impl<R: Read> Read for Socket<R> {
    fn read(&mut self, buf: &mut [u8]) -> io::Result<usize> {
        let few = buf.len().min(7);
        self.inner.read(&mut buf[..few])
    }
}

/// The result of supplying bytes.
enum Fed {
    /// The packet at their start is whole, and was printed.
    Shown,
    /// This many bytes of it are missing.
    Lacks(usize),
}

/// Prints the packet in the held bytes, once all of them are there.
fn feed(rt: &HostRuntime, parser: &PcapParser, held: &[u8]) -> Result<Fed> {
    match parser.next_packet(held) {
        Ok((_rest, packet)) => {
            let time = packet.header.timestamp();
            let len = packet.data_.len();
            println!(rt; "{}.{:09} {len} bytes", time.as_secs(), time.subsec_nanos())?;
            Ok(Fed::Shown)
        }
        Err(PcapError::IncompleteBuffer(missing)) => Ok(Fed::Lacks(missing)),
        Err(error) => Err(error.into()),
    }
}

/// Waits for `missing` bytes more, and keeps them. It gets fewer only if the source ends.
fn wait_for<R: Read>(missing: usize, socket: &mut R, held: &mut Vec<u8>) -> io::Result<bool> {
    let came = socket.take(missing as u64).read_to_end(held)?;
    Ok(came == missing)
}

fn main(rt: HostRuntime) -> Result<()> {
    let mut socket = Socket { inner: rt.stdin() };
    let mut held = Vec::new(rt.alloc());
    if !wait_for(24, &mut socket, &mut held)? {
        bail!("no capture: it has {} bytes", held.len());
    }
    let (_rest, parser) = PcapParser::new(held.as_slice())?;
    held.clear();
    for _ in 0..u64::MAX {
        match feed(&rt, &parser, held.as_slice())? {
            Fed::Shown => held.clear(),
            Fed::Lacks(missing) => {
                if !wait_for(missing, &mut socket, &mut held)? {
                    break;
                }
            }
        }
    }
    if !held.is_empty() {
        bail!(
            "the capture ends inside a packet, after {} bytes of it",
            held.len()
        );
    }
    Ok(())
}
