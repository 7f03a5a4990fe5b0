//! Listing the packets of captures of either format, for the program `pcapfile`.
#![tactic(auto)]

mod formed;
mod formed_items;
mod formed_packets;
mod lines;
mod listing;
mod packets;
mod seen;

pub use listing::list;
