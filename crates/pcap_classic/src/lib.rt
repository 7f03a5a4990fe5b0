//! Classic pcap captures: reading their headers and packets from slices and streams, and writing them.
#![tactic(auto)]

pub mod common;
pub mod errors;
pub mod laws;
pub mod pcap;
pub mod run;
pub mod stream;

pub use common::{CowBytes, DataLink, Endianness, TsResolution};
pub use errors::{PcapError, ResultParsing};
pub use pcap_core::rules;
