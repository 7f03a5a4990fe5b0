//! Reads and writes classic and PcapNg captures, and converts each format to the other.
#![tactic(auto)]

pub mod laws;
pub mod run;

pub use pcap_classic::pcap::{PcapParser, PcapReader, PcapWriter};
pub use pcap_classic::{TsResolution, pcap};
pub use pcap_core::rules::Rule;
pub use pcap_core::{CowBytes, DataLink, Endianness, LinkField, PcapError, ResultParsing};
pub use pcap_ng::pcapng;
pub use pcap_ng::pcapng::{PcapNgParser, PcapNgReader, PcapNgWriter};
