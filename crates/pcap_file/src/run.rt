//! Runs over a whole capture, copies of a capture, and conversions between the formats.

mod converting;
mod placing;
mod unplaced;

pub use converting::convert_to_pcapng;
pub use pcap_classic::run::{
    Copied, PcapRead, PcapRun, Rest, Under, Window, copy_buffered, copy_pcap, exact_pcap,
    parse_pcap, pieces_fit, pieces_pcap, read_pcap,
};
pub use pcap_ng::run::{
    NgCopied, NgRead, NgRun, copy_pcapng, copy_pcapng_buffered, exact_pcapng, parse_pcapng,
    pieces_pcapng, read_pcapng,
};
pub use placing::{IfUnplaced, NgConverted, convert_to_pcap};
pub use unplaced::Unplaced;
