//! Lenient reading of classic captures: packets with their flaws, and resynchronization after corrupt bytes.
//!
//! The strict calls of `pcap_classic` stop at the first rule that a packet breaks. The calls here go on, and report which rules
//! each packet breaks.
#![tactic(auto)]

pub mod as_is;
mod copy;
pub mod laws;
mod owned;
mod pieces;
mod reader;
pub mod resync;
mod run;
mod stated;

pub use as_is::{Flaws, HeadAsIs, PacketAsIs, next_packet_as_is};
pub use copy::{copy_pcap_as_is, copy_pcap_as_is_buffered};
pub use owned::OwnedAsIs;
pub use pieces::{OwnedRunAsIs, pieces_pcap_as_is};
pub use reader::ReaderAsIs;
pub use run::{PcapRunAsIs, parse_pcap_as_is};
