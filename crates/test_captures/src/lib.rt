//! Tests of captures in slices, streams and pieces, of copies, and of conversions between the formats: inputs with the answers that the
//! formats define.
#![tactic(auto)]

#[cfg(test)]
mod block_rows;
#[cfg(test)]
mod copying;
#[cfg(test)]
mod counting;
#[cfg(test)]
mod large;
#[cfg(test)]
mod lending;
#[cfg(test)]
mod packet_rows;
#[cfg(test)]
mod parser;
#[cfg(test)]
mod pieces;
#[cfg(test)]
mod raw;
#[cfg(test)]
mod slices;
#[cfg(test)]
mod streams;
#[cfg(test)]
mod to_pcap;
#[cfg(test)]
mod to_pcapng;
#[cfg(test)]
mod told;
#[cfg(test)]
mod ways;
