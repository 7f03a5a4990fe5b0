//! Captures in parts, which can be read in parallel. The crate finds cuts that tear no item, skips items, and makes a parser of blocks
//! for any boundary. Places and lengths are in bytes.
#![tactic(auto)]

mod again;
mod at_least;
mod blocks;
mod cut;
mod cut_ng;
pub mod laws;
mod part;
mod parting;
mod skip;
mod walk;

pub use again::resume;
pub use at_least::{cut_pcap_at_least, cut_pcapng_at_least};
pub use blocks::skip_blocks;
pub use cut::{Cut, Cuts, cut_pcap, to_next_end};
pub use cut_ng::{NgCut, NgCuts, cut_pcapng};
pub use part::{parse_ng_part, parse_part};
pub use parting::Parting;
pub use skip::{Passed, skip_packets};
