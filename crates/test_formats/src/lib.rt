//! Formats that are neither packets nor blocks, built on the buffers and the laws of `pcap_items`.
#![tactic(auto)]

pub mod laws;
#[cfg(test)]
mod lending;
pub mod lent;
#[cfg(test)]
mod rooms;
#[cfg(test)]
mod rows;
pub mod samples;
