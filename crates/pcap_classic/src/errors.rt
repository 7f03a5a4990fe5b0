//! The errors for captures that could not be read or written.

pub use pcap_core::{PcapError, ResultParsing};
