//! example_dissect < capture: prints a line for each packet of an Ethernet capture: its number and time, its addresses, and the ports of
//! TCP and UDP.
#![tactic(auto)]

use anyhow::{Result, bail};
use pcap_file::{DataLink, PcapReader};
use std::fmt;
use std::io::BufReader;
use std::net::{IpAddr, Ipv4Addr, Ipv6Addr, SocketAddr};

/// The addresses and the protocol of an IP packet, and its payload.
#[derive(Clone, Copy)]
struct Datagram<'a> {
    from: IpAddr,
    to: IpAddr,
    protocol: u8,
    /// Empty in a fragment that is not the first.
    payload: &'a [u8],
}

fn number(bytes: &[u8]) -> Option<u16> {
    Some(u16::from_be_bytes(*bytes.first_chunk::<2>()?))
}

fn ipv4_address(bytes: &[u8]) -> Option<IpAddr> {
    Some(IpAddr::V4(Ipv4Addr::from(*bytes.first_chunk::<4>()?)))
}

fn ipv6_address(bytes: &[u8]) -> Option<IpAddr> {
    Some(IpAddr::V6(Ipv6Addr::from(*bytes.first_chunk::<16>()?)))
}

fn ipv4(bytes: &[u8]) -> Option<Datagram<'_>> {
    let head_len = 4 * usize::from(bytes.first()? & 15);
    let is_first_fragment = number(bytes.get(6..)?)? & 0x1fff == 0;
    Some(Datagram {
        from: ipv4_address(bytes.get(12..)?)?,
        to: ipv4_address(bytes.get(16..)?)?,
        protocol: *bytes.get(9)?,
        payload: bytes
            .get(head_len..)
            .filter(|_| is_first_fragment)
            .unwrap_or_default(),
    })
}

fn ipv6(bytes: &[u8]) -> Option<Datagram<'_>> {
    Some(Datagram {
        from: ipv6_address(bytes.get(8..)?)?,
        to: ipv6_address(bytes.get(24..)?)?,
        protocol: *bytes.get(6)?,
        payload: bytes.get(40..)?,
    })
}

/// Returns what an Ethernet frame carries, or None if that isn't IP or its header is truncated.
fn datagram_in(frame: &[u8]) -> Option<Datagram<'_>> {
    let payload = frame.get(14..)?;
    match number(frame.get(12..)?)? {
        0x0800 => ipv4(payload),
        0x86dd => ipv6(payload),
        _ => None,
    }
}

impl Datagram<'_> {
    /// Returns the two ends of a TCP or UDP packet.
    fn ends(&self) -> Option<(SocketAddr, SocketAddr)> {
        let from_port = number(self.payload)?;
        let to_port = number(self.payload.get(2..)?)?;
        let from = SocketAddr::new(self.from, from_port);
        let to = SocketAddr::new(self.to, to_port);
        Some((from, to))
    }
}

impl fmt::Display for Datagram<'_> {
    fn fmt<W: fmt::Write>(&self, f: &mut fmt::Formatter<W>) -> fmt::Result {
        let name = match self.protocol {
            6 => "TCP",
            17 => "UDP",
            other => return write!(f, "{} > {} protocol {other}", self.from, self.to),
        };
        match self.ends() {
            Some((from, to)) => write!(f, "{from} > {to} {name}"),
            None => write!(f, "{} > {} {name}, no ports", self.from, self.to),
        }
    }
}

fn main(rt: HostRuntime) -> Result<()> {
    let input = BufReader::new(rt.alloc(), rt.stdin())?;
    let mut reader = PcapReader::new(rt.alloc(), input)?;
    if reader.header.datalink != DataLink::ETHERNET {
        bail!("not Ethernet, but {:?}", reader.header.datalink);
    }
    for number in 1..u64::MAX {
        let Some(header) = reader.next_header() else {
            break;
        };
        let header = header?;
        let time = header.timestamp();
        print!(rt; "{number} {}.{:09} ", time.as_secs(), time.subsec_nanos())?;
        match datagram_in(reader.data()) {
            Some(datagram) => println!(rt; "{datagram}")?,
            None => println!(rt; "no IP")?,
        }
    }
    Ok(())
}
